// Runs the scenarios of the table on standard input through the machine's public methods, and prints a line for each:
// what came out beside what is expected.
#![tactic(auto)]

ghost use Rattle.std.specs.Io.{ReadsAtMost};

mod acts;
mod bench;
mod by_method;
mod changes;
mod command;
mod expected;
mod report;
mod scenario;

use std::io;
use std::io::Read;

// The room for the table.
const ROOM: usize = 65536;

// Reads until the buffer is full or the input ends, and tells how many bytes it put at the buffer's start.
fn read_full(input: &mut impl Read, buffer: &mut [u8]) -> io::Result<usize>
    ensures { ReadsAtMost result buffer.new }
{
    let mut done = 0;
    while done < buffer.len() {
        let n = input.read(&mut buffer[done..])?;
        if n == 0 {
            break;
        }
        done += n;
    }
    Ok(done)
}

fn main(rt: HostRuntime) -> io::Result<()> {
    let mut room = [0; ROOM];
    let n = read_full(&mut rt.stdin(), &mut room)?;
    if n == ROOM {
        return println!(rt; "the table is too long");
    }
    scenario::all(&rt, &room[..n])
}
