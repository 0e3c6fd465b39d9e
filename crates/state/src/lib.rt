// The state by its fields, what a step hands back, and what every step shares: the refusals, the test of a consistent
// state, that of the lent lengths, the lost and the fresh state, and the ways out of a step that is refused or cut.
#![tactic(auto)]

use buffers::{RedoBuffer, UndoBuffer};
use parts::Line;

mod consistency;
mod holding;
mod lengths;
mod limits;
mod refusals;
mod starting;
mod waiting_entries;
mod ways_out;

pub use lengths::wrong_lengths;
pub use refusals::{Refusal, Stop, answer_number, refuse};

// A state by its fields. `lost` is document 01's "dark". `lines` and the buffers may have places that are not in use.
#[derive(Clone, Copy, PartialEq, Eq)]
pub struct Machine {
    pub lost: bool,
    pub words: u16,
    pub slots: u16,
    pub opened: [bool; 8],
    pub lines: [Line; 64],
    pub head: u64,
    pub undos: UndoBuffer,
    pub tail: u64,
    pub redos: RedoBuffer,
}

// What a step hands back that changes the state in place: its answer, and the count left.
#[derive(Clone, Copy, PartialEq, Eq)]
pub struct Made {
    pub answer: Result<(), Stop>,
    pub left: u64,
}

// What a step hands back: its answer, the count left, and the state.
#[derive(Clone, Copy, PartialEq, Eq)]
pub struct Outcome {
    pub answer: Result<(), Stop>,
    pub left: u64,
    pub state: Machine,
}
