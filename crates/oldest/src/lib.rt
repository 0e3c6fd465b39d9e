// The oldest record of the log: whether a delete may take it; and whether a step finds room in the log, and if not,
// why. The search for a later commit is linear in the records.
#![tactic(auto)]

mod commits;
mod room;
mod verdicts;

pub use room::no_room;
pub use verdicts::{is_dirty, verdict};
