// What disturbs a list: parts A, B and F of "One step", and the changes of the log.
use crate::generator::{Generator, one_of, rest};
use crate::setup::Plan;
use crate::tables::Kind;
use log_region::NUMBERS;
use state::{Machine, Refusal, Stop};

// A case by its number, with its a and b.
#[derive(Clone, Copy)]
pub struct Case {
    pub number: u64,
    pub a: u64,
    pub b: u64,
}

// Log word i was changed from old to new.
#[derive(Clone, Copy)]
struct Patch {
    i: usize,
    old: u64,
    new: u64,
}

// `forced` and `case` are those of this step.
#[derive(Clone, Copy)]
pub struct Disturbance {
    pub forced: bool,
    pub case: Option<Case>,
    mend: u64,
    spoiled: bool,
    patch: Option<Patch>,
}

impl Case {
    // The cases 5 to 12: the word i. `head` and `tail` are those of the state.
    fn place(&self, l: u64, head: u64, tail: u64) -> u64 {
        let d = tail.wrapping_sub(head).max(1);
        let number = head.wrapping_add(self.a % d);
        let s = 1 + 3 * (rest(number, l) % 1024);
        match self.number {
            5 => 0,
            6..=9 => s + self.b % 3,
            _ => s + 2,
        }
    }

    // The new word
    fn word(&self, old: u64, head: u64) -> u64 {
        let bit = match self.number {
            5 => {
                let next = head.wrapping_add(1);
                return one_of(self.a, [next, NUMBERS, NUMBERS + 1, u64::MAX]);
            }
            6..=8 => self.b / 3 % 4,
            9 => self.b / 3 % 64,
            10 | 11 => 48 + self.b % 16,
            _ => 58,
        };
        old ^ (1 << bit)
    }
}

impl Disturbance {
    // "These variables start so"
    pub(crate) fn none() -> Disturbance {
        Disturbance {
            forced: false,
            case: None,
            mend: 1,
            spoiled: false,
            patch: None,
        }
    }

    // "A. Forced." and "B. Disturbance.", without the changes
    pub(crate) fn next(&mut self, generator: &mut Generator, plan: &Plan, kind: Kind) {
        self.forced = self.mend == 1;
        self.mend = self.mend.saturating_sub(1);
        self.case = None;
        let may = match plan.profile {
            6 => kind == Kind::SetDown,
            7 => kind == Kind::Delete,
            _ => true,
        };
        if !self.forced && may && rest(generator.raw(), plan.odds) == 0 {
            self.case = Some(self.draw_case(generator, plan));
        }
    }

    // The case, a and b
    fn draw_case(&mut self, generator: &mut Generator, plan: &Plan) -> Case {
        if self.mend > 0 {
            let number = generator.draw(5);
            return Case { number, a: 0, b: 0 };
        }
        let number = generator.draw_from(plan.first, plan.cases);
        let a = generator.raw() >> 16;
        let b = generator.raw() >> 16;
        if number >= 5 {
            self.mend = generator.draw_from(1, 6);
        }
        Case { number, a, b }
    }

    // Part A, of the log
    fn mend(&mut self, log: &mut [u64]) {
        if !self.forced {
            return;
        }
        if self.spoiled {
            log.fill(0);
        } else if let Some(patch) = self.patch
            && let Some(word) = log.get_mut(patch.i)
            && *word == patch.new
        {
            *word = patch.old;
        }
        self.patch = None;
    }

    // The changes of the log, where the state is `machine`
    pub(crate) fn change(&mut self, log: &mut [u64], l: u64, machine: &Machine) {
        self.mend(log);
        let Some(case) = self.case.filter(|case| (5..=12).contains(&case.number)) else {
            return;
        };
        let i = case.place(l, machine.head, machine.tail) as usize;
        if i < log.len() {
            let old = log[i];
            let new = case.word(old, machine.head);
            log[i] = new;
            self.patch = Some(Patch { i, old, new });
        }
    }

    // "F. Afterwards."
    pub(crate) fn after(&mut self, generator: &mut Generator, k: Kind, answer: Result<(), Stop>) {
        if self.forced {
            self.spoiled = matches!(answer, Err(Stop::Refused(Refusal::Head | Refusal::Damaged)));
        }
        let lent_fewer = self.case.is_some_and(|case| case.number <= 4);
        let strayed = k == Kind::Recover && (answer.is_err() || lent_fewer);
        if self.mend == 0 && (answer == Err(Stop::Cut) || strayed) {
            self.mend = generator.draw_from(1, 3);
        }
    }
}
