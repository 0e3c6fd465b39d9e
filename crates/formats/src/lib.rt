// What the formats share: decimal numbers as text and read back from it, and texts in lent buffers.
#![tactic(auto)]

mod answers;
mod digits;
mod numerals;
mod putting;

pub use answers::{DONE, Numbered, TooShort, number_of};
pub use digits::{decimal_length, fill_decimal, last_digit};
pub use numerals::{Number, number_of_digits};
pub use putting::put;
