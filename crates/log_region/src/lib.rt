// The log region: records written to the layout of document 01 and read back from it, whether one is there, and the
// head. What the crates above know of it are its laws on the list of records that a region holds (proofs/).
#![tactic(auto)]

mod region;
mod slot;

pub use region::{NUMBERS, append, head, is_written, read, set_head, slots};
pub use slot::store;

// A log record by its type. Every value has a layout; one with a thread above 7 or a word not below W reads back as
// bad, that is, as no record.
#[derive(Clone, Copy, PartialEq, Eq)]
pub enum Record {
    UndoRedo {
        thread: u8,
        word: u16,
        undo: u64,
        redo: u64,
    },
    Redo {
        thread: u8,
        word: u16,
        redo: u64,
    },
    Commit {
        thread: u8,
    },
}
