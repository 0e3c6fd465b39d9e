// The types that the model names: an entry, a line, the state of a word, a step, the verdict on the oldest record.
#![tactic(auto)]

ghost use Rattle.std.specs.Prelude.{◌≡◌, ◌%◌};
ghost use Rattle.parts.specs.States.{bits_of};

// An entry that waits to be logged. A redo entry's undo is 0.
#[derive(Clone, Copy, PartialEq, Eq)]
pub struct Entry {
    pub thread: u8,
    pub word: u16,
    pub undo: u64,
    pub redo: u64,
}

// What the state keeps of a line of eight words.
#[derive(Clone, Copy, PartialEq, Eq)]
pub struct Line {
    pub holder: u8,
    pub dirty: bool,
    pub states: u16,
}

// "0 Clean, 1 Dirty (its entry waits in the undo+redo buffer), 2 URLog (undo and newest redo logged), 3 ULog (undo
// logged, newest redo not)"
#[derive(Clone, Copy, PartialEq, Eq)]
pub enum WordState {
    Clean,
    Dirty,
    UrLog,
    ULog,
}

impl WordState {
    // The state that has the two lowest bits of a number.
    pub fn from_bits(bits: u64) -> WordState
        ensures { bits_of result ≡ bits % 4 }
    {
        match bits % 4 {
            0 => WordState::Clean,
            1 => WordState::Dirty,
            2 => WordState::UrLog,
            _ => WordState::ULog,
        }
    }

    // Its two bits.
    pub fn bits(self) -> u64
        ensures { result ≡ bits_of self }
    {
        match self {
            WordState::Clean => 0,
            WordState::Dirty => 1,
            WordState::UrLog => 2,
            WordState::ULog => 3,
        }
    }
}

// One of the nine steps.
#[derive(Clone, Copy, PartialEq, Eq)]
pub enum Step {
    Begin { thread: u64 },
    Store { thread: u64, word: u64, value: u64 },
    LogUndo,
    LogRedo,
    Evict { line: u64 },
    WriteBack { line: u64 },
    Commit { thread: u64 },
    DeleteOldest,
    Recover,
}

// The verdict on the oldest record of a log: there is none, it is bad, its transaction is open, its line needs it, or
// it may be deleted.
#[derive(Clone, Copy, PartialEq, Eq)]
pub enum Verdict {
    Nothing,
    Damaged,
    Open,
    Needed,
    Spare,
}
