// A signed reading in one word, as text and back; and words to readings, line by line.
#![tactic(auto)]

mod parsing;
mod printing;
mod stream;

pub use parsing::{Malformed, parse};
pub use printing::print;
pub use stream::{Fed, feed, finish};

// The longest text of a word has this many bytes.
pub const LONGEST: usize = 21;

// A printed line has at most this many bytes.
pub const LINE: usize = LONGEST + 1;
