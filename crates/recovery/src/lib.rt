// Recovery of the three lent buffers: one forward reading of the log and two passes over it, each linear in its
// records.
#![tactic(auto)]

mod passes;
mod reading;
mod recovering;

pub use recovering::{recover, recovered};
