// The log buffers, and what is done to them: entries added, looked for, taken out and logged. What is logged is
// appended under the supply, and what is left of it is handed back.
#![tactic(auto)]

mod adding;
mod entries;
mod logging;
mod marking;

pub use entries::{Buffer, RedoBuffer, UndoBuffer};
pub use logging::{append_redos, append_undos};
pub use marking::mark_logged;
