// "The kinds and tables"

#[derive(Clone, Copy, PartialEq, Eq)]
pub enum Kind {
    Begin,
    Store,
    LogUndo,
    LogRedo,
    SetDown,
    WriteHome,
    Commit,
    Delete,
    Recover,
}

// "Script, one row for each profile"
const SCRIPT: [[u8; 16]; 8] = [
    [1, 2, 1, 2, 4, 5, 6, 7, 0, 1, 2, 1, 4, 3, 6, 8],
    [1, 6, 5, 1, 7, 6, 1, 6, 5, 7, 1, 7, 2, 6, 5, 7],
    [1, 1, 6, 1, 2, 1, 8, 0, 1, 2, 1, 4, 6, 1, 6, 8],
    [1, 1, 1, 2, 4, 2, 4, 3, 1, 1, 1, 2, 4, 2, 4, 6],
    [1, 1, 6, 1, 6, 1, 1, 6, 1, 6, 5, 1, 1, 6, 1, 6],
    [1, 1, 1, 2, 2, 4, 2, 4, 1, 1, 1, 2, 4, 2, 4, 4],
    [1, 2, 1, 2, 4, 4, 2, 4, 1, 2, 1, 2, 4, 2, 4, 4],
    [1, 2, 1, 2, 4, 1, 6, 5, 7, 7, 1, 2, 1, 6, 5, 7],
];

// "Longest, one row for each profile": kinds 0 to 8
const LONGEST: [[u8; 9]; 8] = [
    [1, 8, 4, 3, 3, 4, 1, 8, 1],
    [1, 8, 4, 3, 3, 4, 1, 8, 1],
    [1, 24, 12, 6, 8, 8, 1, 8, 1],
    [1, 64, 20, 6, 16, 8, 1, 8, 1],
    [1, 24, 12, 6, 8, 8, 1, 8, 1],
    [1, 64, 20, 6, 16, 8, 1, 8, 1],
    [1, 16, 16, 3, 3, 8, 1, 8, 1],
    [1, 5, 5, 3, 3, 4, 1, 8, 1],
];

// "Shift, by kind 0 to 8"
const SHIFT: [u32; 9] = [0, 1, 0, 4, 6, 1, 3, 3, 4];

impl Kind {
    fn numbered(n: u8) -> Kind {
        match n {
            0 => Kind::Begin,
            1 => Kind::Store,
            2 => Kind::LogUndo,
            3 => Kind::LogRedo,
            4 => Kind::SetDown,
            5 => Kind::WriteHome,
            6 => Kind::Commit,
            7 => Kind::Delete,
            _ => Kind::Recover,
        }
    }

    // Script[profile][at]
    pub(crate) fn scripted(profile: u64, at: u64) -> Kind {
        Kind::numbered(SCRIPT[(profile % 8) as usize][(at % 16) as usize])
    }

    // Longest[profile][kind]
    pub(crate) fn longest(self, profile: u64) -> u64 {
        u64::from(LONGEST[(profile % 8) as usize][self as usize])
    }

    // Shift[kind]
    pub(crate) fn shift(self) -> u32 {
        SHIFT[self as usize]
    }
}
