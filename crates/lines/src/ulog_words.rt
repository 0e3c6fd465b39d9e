// The ULog words: how many there are in a line, and in the lines that a thread holds.
ghost use Rattle.std.specs.Prelude.{◌≡◌, ◌*◌, ◌≤◌, min, eqb, length};
ghost use Rattle.lines.specs.Lines.{first_lines};
ghost use Rattle.parts.specs.States.{state_at, ULog};
ghost use Rattle.model.specs.Lists.{keep, up_to};
ghost use Rattle.lines.specs.Newest.{newest_words};

use crate::state_at;
use parts::{Line, WordState};

// How many words of a line are ULog, by the line's states.
pub fn count_ulog(states: u16) -> usize
    ensures upper_bound { result ≤ 8 }
    ensures value { result ≡ length (keep (λ j. eqb (state_at states j) ULog) (up_to 8)) }
{
    (0..8)
        .filter(
            |j| -> bool
                ensures { result ≡ eqb (state_at states j.now) ULog }
            { state_at(states, *j) == WordState::ULog },
        )
        .count()
}

// The number of ULog words in those of the first n lines that the thread holds. There are 64 lines.
pub fn count_newest(lines: &[Line; 64], n: usize, thread: u64) -> usize
    ensures { result ≡ length (newest_words (first_lines (min n 64) lines.now) thread (8 * min n 64)) }
{
    let mut count = 0;
    for line in &lines[..n.min(64)] {
        if line.holder as u64 == thread {
            count += count_ulog(line.states);
        }
    }
    count
}
