// What is changed by hand between steps: the lengths that are lent, a word of the log, a number of the state.
use crate::bench::{Bench, Lent, Outcome};
use buffers::Buffer;
use machine::State;
use state::answer_number;

// A number as one of 16 bits, at most 65535.
fn short(n: u64) -> u16 {
    u16::try_from(n).unwrap_or(u16::MAX)
}

// A number as one of 8 bits, at most 255.
fn byte(n: u64) -> u8 {
    u8::try_from(n).unwrap_or(u8::MAX)
}

// One more entry of a buffer, of a thread below 128 and a word below 512; of others, of their low bits. Past the last
// place only the length grows, up to 33.
fn add<const N: usize>(buffer: &mut Buffer<N>, thread: u64, word: u64) {
    let at = buffer.len.min(32);
    if let Some(entry) = buffer.entries.get_mut(at) {
        entry.thread = byte(thread) % 128;
        entry.word = short(word) % 512;
    }
    buffer.len = at + 1;
}

impl Bench {
    // A recovery of larger buffers, all zeros, in place of a step: home, working and log have these lengths.
    pub(crate) fn recovers(&mut self, words: u64, log: u64) {
        let mut home = [0; 520];
        let mut working = [0; 520];
        let mut region = [0; 3076];
        let w = (words as usize).min(520);
        let l = (log as usize).min(3076);
        let supply = u64::MAX;
        let r = State::recover(&mut home[..w], &mut working[..w], &mut region[..l], supply);
        self.so_far = Outcome {
            answer: answer_number(r.answer),
            stores: supply.wrapping_sub(r.left),
        };
        self.left_lost = self.left_lost && (r.answer.is_ok() || r.state == State::lost());
    }

    // Other lengths of home, of working and of the log are lent from now on.
    pub(crate) fn lends(&mut self, home: u64, working: u64, log: u64) {
        self.lent = Lent {
            home: (home as usize).min(64),
            working: (working as usize).min(64),
            log: (log as usize).min(256),
        };
    }

    // Another word of the log.
    pub(crate) fn sets(&mut self, at: u64, value: u64) {
        self.memory.log[(at as usize).min(255)] = value;
    }

    // Another W, L, head and tail of the state.
    pub(crate) fn limits(&mut self, words: u64, slots: u64, head: u64, tail: u64) {
        let machine = &mut self.state.machine;
        machine.words = short(words);
        machine.slots = short(slots);
        machine.head = head;
        machine.tail = tail;
    }

    // Another holder and other word states of a line.
    pub(crate) fn holds(&mut self, line: u64, holder: u64, states: u64) {
        let line = &mut self.state.machine.lines[(line as usize).min(63)];
        line.holder = byte(holder);
        line.states = short(states);
    }

    // One more undo+redo entry.
    pub(crate) fn adds_undo(&mut self, thread: u64, word: u64) {
        add(&mut self.state.machine.undos, thread, word);
    }

    // One more redo entry.
    pub(crate) fn adds_redo(&mut self, thread: u64, word: u64) {
        add(&mut self.state.machine.redos, thread, word);
    }

    // Another length of the redo buffer.
    pub(crate) fn redos(&mut self, len: u64) {
        self.state.machine.redos.len = (len as usize).min(33);
    }

    // A thread has no open transaction.
    pub(crate) fn closes(&mut self, thread: u64) {
        self.state.machine.opened[(thread as usize).min(7)] = false;
    }
}
