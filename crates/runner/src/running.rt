// Runs a list of steps over the three buffers.
ghost use Rattle.std.specs.Prelude.{◌<◌, ◌≡◌, length, OnErr};
ghost use Rattle.machine.specs.Answers.{view};
ghost use Rattle.state.specs.View.{memory};
ghost use Rattle.runner.specs.Running.{script, numbered, step_at, known_kinds, runnable, reported, run_of};

use crate::Ran;
use machine::State;
use parts::Step;
use state::{Refusal, answer_number};

// A step by the number of its kind, from 0 for begin to 8 for recover.
fn step_of(kind: u64, thread: u64, place: u64, value: u64) -> Step
    ensures { result ≡ numbered kind thread place value }
{
    match kind {
        0 => Step::Begin { thread },
        1 => Step::Store {
            thread,
            word: place,
            value,
        },
        2 => Step::LogUndo,
        3 => Step::LogRedo,
        4 => Step::Evict { line: place },
        5 => Step::WriteBack { line: place },
        6 => Step::Commit { thread },
        7 => Step::DeleteOldest,
        _ => Step::Recover,
    }
}

// The i-th step.
fn step_at(kinds: &[u64], threads: &[u64], places: &[u64], values: &[u64], i: usize) -> Step
    requires { (i < length kinds.now) × ((i < length threads.now) × ((i < length places.now)
        × (i < length values.now))) }
    ensures { result ≡ step_at kinds.now threads.now places.now values.now i }
{
    step_of(kinds[i], threads[i], places[i], values[i])
}

// No kind is above 8.
fn known_kinds(kinds: &[u64]) -> bool
    ensures { result ≡ known_kinds kinds.now }
{
    kinds.iter().all(|kind| *kind < 9)
}

// The slices are equal in length, and every kind is known.
fn is_runnable(
    kinds: &[u64],
    threads: &[u64],
    places: &[u64],
    values: &[u64],
    supplies: &[u64],
    answers: &[u64],
    stores: &[u64],
) -> bool
    ensures { result ≡ runnable (script kinds.now threads.now places.now values.now
        supplies.now)
        answers.now stores.now }
{
    let n = kinds.len();
    (threads.len() == n)
        & ((places.len() == n)
            & ((values.len() == n)
                & ((supplies.len() == n)
                    & ((answers.len() == n) & ((stores.len() == n) & known_kinds(kinds))))))
}

// The first step takes `state`. The answer of each step and the number of its stores are written to the last two
// slices. Lengths that differ or a kind above 8 are refused, and nothing is run.
pub fn run(
    mut state: State,
    home: &mut [u64],
    working: &mut [u64],
    log: &mut [u64],
    kinds: &[u64],
    threads: &[u64],
    places: &[u64],
    values: &[u64],
    supplies: &[u64],
    answers: &mut [u64],
    stores: &mut [u64],
) -> Ran
    ensures stores_after { reported result home.new working.new log.new answers.new stores.new
        ≡ run_of (script kinds.now threads.now places.now values.now supplies.now)
        (view state) (memory home.old working.old log.old)
        answers.old stores.old }
    ensures kept { OnErr result.answer (result.state ≡ state) }
{
    if !is_runnable(kinds, threads, places, values, supplies, answers, stores) {
        let answer = Err(Refusal::Size);
        return Ran { answer, state };
    }
    for i in 0..kinds.len() {
        let step = step_at(kinds, threads, places, values, i);
        let made = state.make(step, home, working, log, supplies[i]);
        answers[i] = answer_number(made.answer);
        stores[i] = supplies[i] - made.left;
    }
    let answer = Ok(());
    Ran { answer, state }
}
