// "a redo record of the working value for each ULog word in lines held by t, rising": what a commit logs of the lines.
ghost use Rattle.std.specs.Prelude.{◌+◌, ◌*◌, ◌≤◌, length};
ghost use Rattle.log_region.specs.Region.{numbers};
ghost use Rattle.log_region.specs.Appended.{Appended, Progressed};
ghost use Rattle.lines.specs.Newest.{newest_in_line, redos_of, newest_records};

use crate::state_at;
use log_region::{NUMBERS, Record};
use parts::{Line, WordState};

// Where appending has come to: the number of the next record, and what is left of the supply.
#[derive(Clone, Copy)]
struct Progress {
    number: u64,
    left: u64,
}

// Appends those of line i, for its holder.
fn append_line(log: &mut [u64], working: &[u64], i: usize, line: Line, start: Progress) -> Progress
    requires { (8 * i + 8 ≤ length working.now) × ((length working.now ≤ 512)
        × (start.number + 8 ≤ 2 * numbers)) }
    ensures { Progressed start.left log.old start.number
        (redos_of working.now line.holder (newest_in_line line.holder i line.holder line.states 8)) log.new
        result.number result.left }
{
    let mut at = start;
    for j in 0..8 {
        if state_at(line.states, j as u64) == WordState::ULog {
            let word = 8 * i + j;
            let record = Record::Redo {
                thread: line.holder,
                word: word as u16,
                redo: working[word],
            };
            let left = log_region::append(log, at.number, record, at.left);
            at = Progress {
                number: at.number + 1,
                left,
            };
        }
    }
    at
}

// Appends all of them, the first as record `number`. W is the number of working words; of one that no machine has,
// nothing is appended.
pub fn append_newest(
    log: &mut [u64],
    number: u64,
    working: &[u64],
    lines: &[Line; 64],
    thread: u8,
    supply: u64,
) -> u64
    ensures { Appended supply log.old number (newest_records lines.now working.now thread) log.new result }
{
    let words = working.len();
    if NUMBERS <= number || 512 < words || words % 8 != 0 {
        return supply;
    }
    let mut at = Progress {
        number,
        left: supply,
    };
    for (i, line) in lines[..words / 8].iter().enumerate() {
        if line.holder == thread {
            at = append_line(log, working, i, *line, at);
        }
    }
    at.left
}
