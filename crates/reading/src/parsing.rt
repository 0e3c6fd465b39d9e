// The word of a text.
ghost use Rattle.std.specs.Prelude.{◌≡◌};
ghost use Rattle.reading.specs.Text.{malformed_number, word_for, read_as, parsed_of};

use crate::{LONGEST, print};
use formats::{Number, Numbered};

// A text isn't that of a word.
#[derive(Clone, Copy, Debug, PartialEq, Eq, Hash)]
pub struct Malformed;

impl Numbered for Malformed {
    ghost number = { malformed_number };

    fn number(&self) -> u64 {
        18
    }
}

// The word of a count, given by its sign and its magnitude.
fn word_for(negative: bool, magnitude: u64) -> u64
    ensures { result ≡ word_for negative magnitude }
{
    if negative {
        magnitude.wrapping_neg()
    } else {
        magnitude
    }
}

// The word, if it prints as the text.
fn read_as(word: u64, text: &[u8]) -> Result<u64, Malformed>
    ensures { result ≡ read_as word text.now }
{
    let mut own = [0u8; LONGEST];
    let size = print(word, &mut own).unwrap();
    if &own[..size] == text {
        Ok(word)
    } else {
        Err(Malformed)
    }
}

// The word that prints as the text, if there is one.
pub fn parse(text: &[u8]) -> Result<u64, Malformed>
    ensures { result ≡ parsed_of text.now }
{
    match formats::number_of_digits(text) {
        Number::Value(magnitude) => read_as(word_for(text.starts_with(b"-"), magnitude), text),
        Number::Blank | Number::Invalid => Err(Malformed),
    }
}
