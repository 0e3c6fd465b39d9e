// Reads words from standard input, one decimal number to a line, and prints the reading of each on a line; for a line
// that is no number from 0 to 2^64 - 1 it prints 18. A text of any length, in constant memory. Where a read or a write
// fails it says so and stops, and a line that was read in part isn't printed.
#![tactic(auto)]

use formats::Number;
use std::io;
use std::io::{Read, Write};

// A piece of the text, and the room for what it can print.
const PIECE: usize = 2048;

const ROOM: usize = reading::LINE * PIECE;

// Reads a piece of the text, and writes what is printed for it. Hands back what has been read of the piece's last line,
// or nothing at the end of the text.
fn read_piece(
    from: &mut impl Read,
    to: &mut impl Write,
    number: Number,
    piece: &mut [u8; PIECE],
    output: &mut [u8; ROOM],
) -> io::Result<Option<Number>> {
    let n = from.read(piece)?;
    if n == 0 {
        return Ok(None);
    }
    let fed = reading::feed(number, &piece[..n], output).unwrap();
    to.write_all(&output[..fed.length])?;
    Ok(Some(fed.number))
}

// A proved loop has to end, and nothing says that a text does: the turns are counted up to a number that no run
// reaches.
fn read_all(from: &mut impl Read, to: &mut impl Write) -> io::Result<Number> {
    let mut piece = [0u8; PIECE];
    let mut output = [0u8; ROOM];
    let mut number = Number::Blank;
    for _ in 0..u64::MAX {
        match read_piece(from, to, number, &mut piece, &mut output)? {
            Some(read) => number = read,
            None => break,
        }
    }
    Ok(number)
}

fn main(rt: HostRuntime) -> io::Result<()> {
    let mut line = [0u8; reading::LINE];
    let number = read_all(&mut rt.stdin(), &mut rt.stdout())?;
    let length = reading::finish(number, &mut line).unwrap();
    rt.write_all(&line[..length])
}
