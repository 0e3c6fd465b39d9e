// Worked examples of request [2]: each word printed into a buffer of '#' bytes, and read back.
#![tactic(auto)]

use formats::{Numbered, number_of};
use std::fmt::Display;
use std::io;

// The words, and the sizes of the buffers that they are printed into.
const EXAMPLES: [(u64, usize); 28] = [
    (18446744073709551612, 21),
    (4, 21),
    (0, 3),
    (18446744073709551606, 4),
    (9223372036854775808, 21),
    (9, 4),
    (10, 4),
    (11, 4),
    (18446744073709551607, 4),
    (18446744073709551605, 4),
    (18446744073709551615, 4),
    (1, 4),
    (18446744073709551615, 5),
    (9223372036854775808, 22),
    (9223372036854775807, 22),
    (18446744073709551606, 5),
    (0, 2),
    (18446744073709551612, 3),
    (9223372036854775808, 20),
    (4, 0),
    (100, 9),
    (1000, 9),
    (18446744073709539276, 9),
    (123456789, 10),
    (5, 6),
    (18446744073709551611, 6),
    (15, 6),
    (18446744073709551601, 6),
];

// The longest buffer.
const ROOM: usize = 22;

// The answer's number, and what it hands back: a refusal 0.
fn print_answer<T: Copy + Default + Display, E: Copy + Numbered>(
    rt: &impl Print,
    answer: Result<T, E>,
) -> io::Result<()> {
    let number = number_of(&answer);
    let value = answer.unwrap_or_default();
    print!(rt; "{number} {value}")
}

// The answer, the length and the buffer, then what the text leads back to.
fn show(rt: &impl Print, word: u64, buffer: &mut [u8]) -> io::Result<()> {
    let printed = reading::print(word, buffer);
    let back = reading::parse(&buffer[..printed.unwrap_or(0)]);
    print_answer(rt, printed)?;
    print!(rt; " ")?;
    rt.write_all(buffer)?;
    print!(rt; " = ")?;
    print_answer(rt, back)?;
    println!(rt)
}

fn main(rt: HostRuntime) -> io::Result<()> {
    for (word, size) in EXAMPLES {
        let mut buffer = [b'#'; ROOM];
        print!(rt; "{word} in {size} -> ")?;
        show(&rt, word, &mut buffer[..size.min(ROOM)])?;
    }
    Ok(())
}
