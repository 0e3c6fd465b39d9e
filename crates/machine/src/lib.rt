// The step machine of document 01: its state, with a method for each of the nine steps and one for a step given as a
// value. Each hands back what the model's definition of the step gives.
#![tactic(auto)]

use state::{Machine, Stop};

mod methods;

// The state. The steps themselves are functions of the machine in it, in crate `steps`.
#[derive(Clone, Copy, PartialEq, Eq)]
pub struct State {
    pub machine: Machine,
}

// What a step hands back: the answer, the count left, and the state.
#[derive(Clone, Copy, PartialEq, Eq)]
pub struct Answer {
    pub answer: Result<(), Stop>,
    pub left: u64,
    pub state: State,
}

// What begin hands back, which is lent no count: the answer, and the state.
#[derive(Clone, Copy, PartialEq, Eq)]
pub struct Begun {
    pub answer: Result<(), Stop>,
    pub state: State,
}
