// "One step", and the steps of a list
ghost use Rattle.std.specs.Prelude.{◌≤◌};

use crate::changing::changed;
use crate::choosing::Run;
use crate::disturbing::{Case, Disturbance};
use crate::generator::{GOLD, Generator};
use crate::setup::{Buffers, Plan};
use crate::tables::Kind;
use machine::State;
use state::{Stop, answer_number};

// "G. Digest."
#[derive(Clone, Copy)]
pub struct Digest {
    pub value: u64,
}

impl Digest {
    // "fold(v)"
    pub(crate) fn fold(&mut self, v: u64) {
        let turned = (self.value << 5) ^ (self.value >> 59);
        self.value = (turned ^ v).wrapping_add(GOLD);
    }

    // Words, rising
    fn fold_words(&mut self, words: &[u64]) {
        for word in words {
            self.fold(*word);
        }
    }
}

// The steps of the lists so far, and how often each answer was given, 255 at 18
#[derive(Clone, Copy)]
pub struct Totals {
    pub steps: u64,
    pub counts: [u64; 19],
}

impl Totals {
    fn count(&mut self, answer: Result<(), Stop>) {
        let at = match answer {
            Err(Stop::Cut) => 18,
            _ => answer_number(answer),
        };
        let times = &mut self.counts[(at % 19) as usize];
        *times = times.wrapping_add(1);
        self.steps = self.steps.wrapping_add(1);
    }
}

// How many words of home, working and log are lent
#[derive(Clone, Copy)]
struct Lent {
    home: usize,
    working: usize,
    log: usize,
}

// "It is lent the first words of home, working and log, so many of each"
fn lent_in(case: Option<Case>, plan: &Plan) -> Lent
    ensures { (result.home ≤ 512) × ((result.working ≤ 512) × (result.log ≤ 3073)) }
{
    let w = plan.home_len();
    let fewer = w.saturating_sub(8);
    let all = plan.log_len();
    let (home, working, log) = match case.map(|case| case.number) {
        Some(0) => (w.saturating_sub(1), w, all),
        Some(1) => (w, fewer, all),
        Some(2) => (fewer, fewer, all),
        Some(3) => (w, w, all.saturating_sub(1)),
        Some(4) => (w, w, if plan.l == 8 { 22 } else { 25 }),
        _ => (w, w, all),
    };
    Lent { home, working, log }
}

// List n: "This is done `steps` times."
pub(crate) fn digest_of(n: u64, totals: &mut Totals) -> u64 {
    let mut generator = Generator::seeded(n);
    let plan = Plan::of_list(n, &mut generator);
    let mut buffers = Buffers::filled(&plan, &mut generator);
    let mut state = State::lost();
    let mut disturbance = Disturbance::none();
    let mut run = Run::none();
    let mut digest = Digest { value: 0 };
    for left in (0..plan.steps).rev() {
        disturbance.next(&mut generator, &plan, run.kind);
        let k = run.turn(&mut generator, &plan, &disturbance);
        let (step, count) = run.give(&mut generator, &plan, k);
        disturbance.change(&mut buffers.log[..plan.log_len()], plan.l, &state.machine);
        let machine = changed(state.machine, disturbance.case, &plan);
        let lent = lent_in(disturbance.case, &plan);
        let made = State { machine }.step(
            step,
            &mut buffers.home[..lent.home],
            &mut buffers.working[..lent.working],
            &mut buffers.log[..lent.log],
            count,
        );
        state = made.state;
        disturbance.after(&mut generator, k, made.answer);
        digest.fold(answer_number(made.answer));
        digest.fold(made.left);
        if plan.is_small() || made.answer == Err(Stop::Cut) || k == Kind::Recover || left == 0 {
            digest.fold_words(&buffers.home[..plan.home_len()]);
            digest.fold_words(&buffers.working[..plan.home_len()]);
            digest.fold_words(&buffers.log[..plan.log_len()]);
        }
        totals.count(made.answer);
    }
    digest.value
}
