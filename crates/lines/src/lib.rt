// The lines, and what is done to them: the two-bit states of their words read and replaced, Dirty words looked for,
// ULog words counted and logged, lines stored home and released.
#![tactic(auto)]

ghost use Rattle.std.specs.Prelude.{◌≡◌, replicate};
ghost use Rattle.parts.specs.FreeLine.{free_line};

use parts::Line;

mod home_stores;
mod releasing;
mod ulog_records;
mod ulog_words;
mod word_states;

pub use home_stores::{has_dirty, store_line};
pub use releasing::release;
pub use ulog_records::append_newest;
pub use ulog_words::{count_newest, count_ulog};
pub use word_states::{holder_of, mark, state_at, state_of, with_bits, with_state};

// The holder of a line that nobody holds: "255 for none".
pub const NOBODY: u8 = 255;

// The states of a line whose eight words are Clean.
pub const ALL_CLEAN: u16 = 0;

// A line that nobody holds, not dirty, its words all Clean.
pub const FREE_LINE: Line = Line {
    holder: NOBODY,
    dirty: false,
    states: ALL_CLEAN,
};

// Every line free.
pub fn free_lines() -> [Line; 64]
    ensures { result ≡ replicate 64 free_line }
{
    [FREE_LINE; 64]
}
