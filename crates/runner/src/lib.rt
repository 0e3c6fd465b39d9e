// The run of a list of steps that is lent as slices of numbers.
#![tactic(auto)]

use machine::State;
use state::Refusal;

mod running;

pub use running::run;

// What a run of a list of steps hands back: whether it was refused, and the state after the last step.
#[derive(Clone, Copy, PartialEq, Eq)]
pub struct Ran {
    pub answer: Result<(), Refusal>,
    pub state: State,
}
