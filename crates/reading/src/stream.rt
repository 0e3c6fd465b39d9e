// Words to readings, line by line, in a text that is read in pieces.
ghost use Rattle.std.specs.Prelude.{◌≡◌};
ghost use Rattle.formats.specs.Written.{filled, filled_with};
ghost use Rattle.reading.specs.Stream.{printed_line, printed_last, filling, fed_with};

use crate::{LINE, print};
use formats::{Number, TooShort};

const LINE_FEED: u8 = b'\n';

// What reading a piece of a text gives: what has been read of the last line, and the length of what was printed.
#[derive(Clone, Copy, Debug, PartialEq, Eq, Hash)]
pub struct Fed {
    pub number: Number,
    pub length: usize,
}

// Puts a word's reading into the buffer, on a line.
fn put_reading(word: u64, buffer: &mut [u8]) -> Result<usize, TooShort>
    ensures { filled result buffer.new
        ≡ filled_with (printed_line (Number.Value word)) buffer.old }
{
    let mut line = [0u8; LINE];
    let end = print(word, &mut line)?;
    line[end] = LINE_FEED;
    formats::put(&line[..end + 1], buffer)
}

// Puts the line for a number into the buffer: its reading, or 18.
fn put_line(number: Number, buffer: &mut [u8]) -> Result<usize, TooShort>
    ensures { filled result buffer.new
        ≡ filled_with (printed_line number) buffer.old }
{
    match number {
        Number::Value(word) => put_reading(word, buffer),
        Number::Blank | Number::Invalid => formats::put(b"18\n", buffer),
    }
}

// Reads the next piece of a text; `number` is what the pieces before have left of their last line. A line is printed
// into the buffer for each that ends here. The buffer needs LINE bytes for each byte of the piece.
pub fn feed(number: Number, piece: &[u8], buffer: &mut [u8]) -> Result<Fed, TooShort>
    ensures { filling result buffer.new
        ≡ fed_with number piece.now buffer.old }
{
    if buffer.len() / LINE < piece.len() {
        return Err(TooShort);
    }
    let mut last = number;
    let mut length = 0;
    for byte in piece {
        if *byte == LINE_FEED {
            length += put_line(last, &mut buffer[length..])?;
            last = Number::Blank;
        } else {
            last = last.with_byte(*byte);
        }
    }
    Ok(Fed {
        number: last,
        length,
    })
}

// Ends the text: puts the line for a last line that lacks its line feed into the buffer.
pub fn finish(number: Number, buffer: &mut [u8]) -> Result<usize, TooShort>
    ensures { filled result buffer.new
        ≡ filled_with (printed_last number) buffer.old }
{
    match number {
        Number::Blank => Ok(0),
        Number::Value(_) | Number::Invalid => put_line(number, buffer),
    }
}
