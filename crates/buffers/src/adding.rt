// "each ULog word, rising, adds a redo entry of its working value for the line's holder"
ghost use Rattle.std.specs.Prelude.{◌≡◌, ◌+◌, ◌&&◌, cond, ◌++◌, leb, length};
ghost use Rattle.buffers.specs.Waiting.{waiting, UnusedKept};
ghost use Rattle.buffers.specs.Added.{is_there, ulog_entries};

use crate::RedoBuffer;
use parts::{Entry, Line, WordState};

impl RedoBuffer {
    // Adds the entries of a line, `at` being its number. Nothing is added where there is no place for all of them, nor
    // of a line that is not there.
    pub fn add_ulog_words(&mut self, line: &Line, at: usize, working: &[u64])
        ensures waits { waiting self.new
            ≡ cond (is_there at working.now && leb (self.old.len + length (ulog_entries line.now at working.now)) 32)
            (waiting self.old ++ ulog_entries line.now at working.now) (waiting self.old) }
        ensures unused { UnusedKept self.old self.new }
    {
        if 64 <= at
            || working.len() < 8 * at + 8
            || 32 - lines::count_ulog(line.states) < self.len
        {
            return;
        }
        for j in 0..8 {
            if lines::state_at(line.states, j as u64) == WordState::ULog {
                self.push(Entry {
                    thread: line.holder,
                    word: (8 * at + j) as u16,
                    undo: 0,
                    redo: working[8 * at + j],
                });
            }
        }
    }
}
