// A log buffer as an array of entries: first in, first out. Of a length above N, which no caller keeps, nothing is
// changed.
ghost use Rattle.std.specs.Prelude.{◌≡◌, ◌≤◌, ◌+◌, ◌&&◌, cond, [], ◌∷◌, ◌++◌, take, drop, leb, ltb, position, ◌==◌};
ghost use Rattle.parts.specs.Entries.{discarded, amended};
ghost use Rattle.buffers.specs.Waiting.{waiting, fits, present, empty_buffer, UnusedKept};

use parts::Entry;

// What stands in a place that is not in use, until an entry has stood there.
const NO_ENTRY: Entry = Entry {
    thread: 0,
    word: 0,
    undo: 0,
    redo: 0,
};

// Up to N entries, oldest first. Places from `len` on are not in use.
#[derive(Clone, Copy, PartialEq, Eq)]
pub struct Buffer<const N: usize> {
    pub len: usize,
    pub entries: [Entry; N],
}

// The undo+redo buffer, and the redo buffer.
pub type UndoBuffer = Buffer<16>;

pub type RedoBuffer = Buffer<32>;

impl<const N: usize> Buffer<N> {
    // Nothing waits, and every place is 0.
    pub fn empty() -> Self
        ensures { result ≡ empty_buffer N }
    {
        Buffer {
            len: 0,
            entries: [NO_ENTRY; N],
        }
    }

    // The `count` oldest entries, or all.
    pub fn oldest(&self, count: usize) -> &[Entry]
        ensures { result.now ≡ take count (present self.now) }
    {
        &self.entries[..count.min(self.len).min(N)]
    }

    // The place of the oldest entry of a word.
    pub fn find(&self, word: u16) -> Option<usize>
        ensures { result ≡ position (λ e. e.word == word) (present self.now) }
    {
        self.oldest(N).iter().position(|entry| entry.word == word)
    }

    // Takes `count` entries from place `at` on; those behind them move down.
    fn take_out(&mut self, at: usize, count: usize)
        requires { (at + count ≤ self.old.len) × (self.old.len ≤ N) }
        ensures waits { waiting self.new ≡ take at (waiting self.old) ++ drop (at + count) (waiting self.old) }
        ensures unused { UnusedKept self.old self.new }
    {
        self.entries.copy_within(at + count..self.len, at);
        self.len -= count;
    }

    // The `count` oldest entries go. Of more than there are none does.
    pub fn drop_oldest(&mut self, count: usize)
        ensures waits { waiting self.new
            ≡ cond (leb count self.old.len && fits self.old) (drop count (waiting self.old)) (waiting self.old) }
        ensures unused { UnusedKept self.old self.new }
    {
        if count <= self.len && self.len <= N {
            self.take_out(0, count);
        }
    }

    // An entry is added, if there is a place for it.
    pub fn push(&mut self, entry: Entry)
        ensures waits { waiting self.new
            ≡ cond (ltb self.old.len N) (waiting self.old ++ entry ∷ []) (waiting self.old) }
        ensures unused { UnusedKept self.old self.new }
    {
        if self.len < N {
            self.entries[self.len] = entry;
            self.len += 1;
        }
    }

    // The oldest entry of a word goes.
    pub fn discard(&mut self, word: u16)
        ensures waits { waiting self.new ≡ cond (fits self.old) (discarded word (waiting self.old)) (waiting self.old) }
        ensures unused { UnusedKept self.old self.new }
    {
        if self.len <= N {
            if let Some(at) = self.find(word) {
                self.take_out(at, 1);
            }
        }
    }

    // The redo of the oldest entry of a word is replaced.
    pub fn amend(&mut self, word: u16, redo: u64)
        ensures waits { waiting self.new
            ≡ cond (fits self.old) (amended word redo (waiting self.old)) (waiting self.old) }
        ensures unused { UnusedKept self.old self.new }
    {
        if self.len <= N {
            if let Some(at) = self.find(word) {
                self.entries[at].redo = redo;
            }
        }
    }

    pub fn clear(&mut self)
        ensures waits { waiting self.new ≡ [] }
        ensures unused { UnusedKept self.old self.new }
    {
        self.len = 0;
    }
}
