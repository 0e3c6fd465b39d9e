// A scenario under way: the state and the buffers, and what came out and what is expected.
ghost use Rattle.std.specs.Prelude.{◌≤◌};

use crate::by_method::step_by_method;
use crate::expected::Expected;
use arrayvec::ArrayVec;
use machine::State;
use parts::Step;
use state::{Stop, answer_number};

// The table's text is not understood, or there is no room for what it says.
#[derive(Clone, Copy)]
pub struct NotUnderstood;

// What one step or several came to: an answer, and stores.
#[derive(Clone, Copy, PartialEq, Eq, Default)]
pub struct Outcome {
    pub answer: u64,
    pub stores: u64,
}

// What came out, and what is expected.
#[derive(Clone, Copy, Default)]
pub struct Note {
    pub got: Outcome,
    pub expected: Outcome,
}

// A slot that is shown at the end, and the words that are expected of it.
#[derive(Clone, Copy, Default)]
pub struct Slot {
    pub place: usize,
    pub words: [u64; 3],
}

// The buffers.
#[derive(Clone, Copy, PartialEq, Eq)]
pub struct Memory {
    pub home: [u64; 64],
    pub working: [u64; 64],
    pub log: [u64; 256],
}

// How many words of each buffer are lent.
#[derive(Clone, Copy)]
pub struct Lent {
    pub home: usize,
    pub working: usize,
    pub log: usize,
    ghost within: { (home ≤ 64) × (working ≤ 64) × (log ≤ 256) },
}

// The machine under test, what came of its steps, and what is expected at the end.
#[derive(Drop)]
pub struct Bench {
    pub state: State,
    pub memory: Memory,
    pub lent: Lent,
    // Of the steps since the last note: the first answer that is not 0, and the stores of all.
    pub so_far: Outcome,
    pub notes: ArrayVec<Note, 32>,
    // No refused step has changed a buffer, none has changed the state, each cut and each refused recover has left the
    // lost state, and the table's text was understood.
    pub kept: bool,
    pub kept_state: bool,
    pub left_lost: bool,
    pub known: bool,
    // Expected at the end: the words of home and working, the log's head, and the words of some slots.
    pub home: Expected,
    pub working: Expected,
    pub head: Option<u64>,
    pub slots: ArrayVec<Slot, 4>,
}

impl Bench {
    // W = 8, L = 8, home 0, and a fresh log.
    pub(crate) fn fresh() -> Bench {
        Bench {
            state: State::lost(),
            memory: Memory {
                home: [0; 64],
                working: [0; 64],
                log: [0; 256],
            },
            lent: Lent {
                home: 8,
                working: 8,
                log: 25,
            },
            so_far: Outcome::default(),
            notes: ArrayVec::new(),
            kept: true,
            kept_state: true,
            left_lost: true,
            known: true,
            home: Expected::zeros(),
            working: Expected::zeros(),
            head: None,
            slots: ArrayVec::new(),
        }
    }

    // One step under a supply, not noted yet.
    pub(crate) fn tries(&mut self, supply: u64, step: Step) {
        let taken = self.state;
        let before = self.memory;
        let mut memory = before;
        let made = step_by_method(
            taken,
            step,
            &mut memory.home[..self.lent.home],
            &mut memory.working[..self.lent.working],
            &mut memory.log[..self.lent.log],
            supply,
        );
        self.state = made.state;
        self.memory = memory;
        self.so_far.stores = self
            .so_far
            .stores
            .wrapping_add(supply.wrapping_sub(made.left));
        let Err(stop) = made.answer else {
            return;
        };
        if self.so_far.answer == 0 {
            self.so_far.answer = answer_number(made.answer);
        }
        if stop != Stop::Cut {
            self.kept = self.kept && memory == before;
        }
        if stop == Stop::Cut || step == Step::Recover {
            self.left_lost = self.left_lost && self.state == State::lost();
        } else {
            self.kept_state = self.kept_state && self.state == taken;
        }
    }

    // What came out since the last note, and what is expected of it.
    pub(crate) fn note(&mut self, expected: Outcome) -> Result<(), NotUnderstood> {
        let got = self.so_far;
        self.so_far = Outcome::default();
        self.notes
            .try_push(Note { got, expected })
            .map_err(|_| NotUnderstood)
    }

    // At the end a slot is expected to have these words.
    pub(crate) fn expects_slot(
        &mut self,
        place: u64,
        words: [u64; 3],
    ) -> Result<(), NotUnderstood> {
        let place = (place as usize).min(80);
        self.slots
            .try_push(Slot { place, words })
            .map_err(|_| NotUnderstood)
    }
}
