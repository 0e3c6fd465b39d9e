// The kind of a step and what it is given: parts C and D of "One step".
use crate::disturbing::Disturbance;
use crate::generator::{Generator, one_of, rest};
use crate::setup::Plan;
use crate::tables::Kind;
use parts::Step;

// A run of steps of one kind, of which `left` are left.
#[derive(Clone, Copy)]
pub struct Run {
    pub kind: Kind,
    at: u64,
    left: u64,
    opening: bool,
    thread: u64,
    start: u64,
    index: u64,
}

impl Run {
    // "These variables start so"
    pub(crate) fn none() -> Run {
        Run {
            kind: Kind::Recover,
            at: 0,
            left: 0,
            opening: false,
            thread: 0,
            start: 0,
            index: 0,
        }
    }

    // "A new run"
    fn renew(&mut self, generator: &mut Generator, plan: &Plan) {
        let steady = matches!(plan.profile, 3 | 5 | 6);
        self.at = (self.at % 16 + 1) % 16;
        if !steady && generator.draw(4) == 0 {
            self.at = generator.draw(16);
        }
        let chosen = if steady {
            self.at % 8
        } else {
            generator.draw(4)
        };
        if chosen == 0 {
            self.thread = generator.draw(plan.threads);
            self.start = generator.draw(plan.span);
        }
        self.kind = Kind::scripted(plan.profile, self.at);
        let longest = self.kind.longest(plan.profile);
        let half = longest.div_ceil(2);
        self.left = if steady {
            generator.draw_from(half, half)
        } else {
            generator.draw_from(1, longest)
        };
        self.opening = generator.draw(16) != 0;
        self.index = 0;
    }

    // "C. Kind of this step (k)."
    pub(crate) fn turn(
        &mut self,
        generator: &mut Generator,
        plan: &Plan,
        disturbance: &Disturbance,
    ) -> Kind {
        let low = disturbance.case.is_some_and(|case| case.number <= 12);
        if disturbance.forced || low && generator.draw(2) == 0 {
            self.left = 0;
            return Kind::Recover;
        }
        if self.left == 0 {
            self.renew(generator, plan);
        }
        self.left = self.left.saturating_sub(1);
        if self.kind == Kind::Store && self.opening {
            self.opening = false;
            return Kind::Begin;
        }
        self.kind
    }

    // "D. What the step is given.": the step, and its supply count
    pub(crate) fn give(&mut self, generator: &mut Generator, plan: &Plan, k: Kind) -> (Step, u64) {
        let t = thread(generator.raw(), self.thread);
        let p = self.place(generator.raw(), plan, k);
        let v = value(generator.raw(), plan.values);
        let c = count(generator.raw(), plan.small, k);
        self.index = self.index.wrapping_add(1);
        (step_of(k, t, p, v), c)
    }

    // "own(j)"
    fn own(&self, plan: &Plan, j: u64) -> u64 {
        let turn = j.wrapping_mul(plan.threads);
        rest(turn.wrapping_add(self.thread), plan.span / 8)
    }

    // "p"
    fn place(&self, r: u64, plan: &Plan, k: Kind) -> u64 {
        let by_line = matches!(k, Kind::SetDown | Kind::WriteHome);
        let u = if by_line { 8 } else { 1 };
        let base = plan.base / u;
        match r % 32 {
            0 => {
                let end = plan.w / u;
                one_of(r >> 16, [end, end.wrapping_add(1), 1 << 61, u64::MAX])
            }
            1 | 2 => base.wrapping_add(rest(r >> 16, plan.span / u)),
            _ if by_line => {
                let j = (self.start / 8).wrapping_add(self.index);
                base.wrapping_add(self.own(plan, j))
            }
            _ => {
                let next = self.start.wrapping_add(self.index);
                let line = self.own(plan, next / 8).wrapping_mul(8);
                base.wrapping_add(line).wrapping_add(next % 8)
            }
        }
    }
}

// "t"
fn thread(r: u64, thread: u64) -> u64 {
    if r % 32 == 0 {
        one_of(r >> 16, [8, 9, 256, u64::MAX])
    } else {
        thread
    }
}

// "v"
fn value(r: u64, values: u64) -> u64 {
    if r % 16 == 0 {
        r
    } else {
        rest(r >> 16, values)
    }
}

// "c"
fn count(r: u64, small: u64, k: Kind) -> u64 {
    let o = small.wrapping_shr(k.shift()).max(1);
    if r % o == 0 {
        rest(r >> 24, 1 << ((r >> 16) % 8))
    } else {
        u64::MAX
    }
}

// The step of kind k, with thread t, word or line p and value v, "as far as the kind takes them"
fn step_of(k: Kind, t: u64, p: u64, v: u64) -> Step {
    match k {
        Kind::Begin => Step::Begin { thread: t },
        Kind::Store => Step::Store {
            thread: t,
            word: p,
            value: v,
        },
        Kind::LogUndo => Step::LogUndo,
        Kind::LogRedo => Step::LogRedo,
        Kind::SetDown => Step::Evict { line: p },
        Kind::WriteHome => Step::WriteBack { line: p },
        Kind::Commit => Step::Commit { thread: t },
        Kind::Delete => Step::DeleteOldest,
        Kind::Recover => Step::Recover,
    }
}
