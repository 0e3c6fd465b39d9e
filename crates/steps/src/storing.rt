// "Store t, word, value": the line is claimed, and another value is stored by the word's state.
ghost use Rattle.std.specs.Prelude.{◌≡◌, ◌<◌, eqb, get_or, length};
ghost use Rattle.model.specs.Machine.{Memory};
ghost use Rattle.model.specs.Refusals.{number_of};
ghost use Rattle.model.specs.Step.{store};
ghost use Rattle.model.specs.Steps.{held_by_another, store_logs, store_rows, store_next};
ghost use Rattle.state.specs.Answers.{refusal_number};
ghost use Rattle.state.specs.View.{view, memory};
ghost use Rattle.state.specs.Ended.{Ends};
ghost use Rattle.steps.specs.Allowed.{Allowed, Bounded};

use crate::logged::drop_undos;
use buffers::append_undos;
use lines::{NOBODY, holder_of, mark, state_of};
use oldest::no_room;
use parts::{Entry, WordState};
use state::{Machine, Refusal, Stop};

// A thread other than this one holds the line of the word.
fn held_by_another(state: &Machine, thread: u64, word: u16) -> bool
    requires { (word < state.now.words) × Bounded state.now }
    ensures { result ≡ held_by_another (view state.now) thread word }
{
    let holder = holder_of(&state.lines, word);
    (holder != NOBODY) & (holder as u64 != thread)
}

// How many entries a store logs first: the oldest, if another value comes to a Clean word and 16 entries wait.
fn logs_first(state: &Machine, word: u16, same: bool) -> usize
    requires { (word < state.now.words) × Bounded state.now }
    ensures { result ≡ store_logs (view state.now) word same }
{
    let clean = state_of(&state.lines, word) == WordState::Clean;
    (!same & (clean & (16 <= state.undos.len))) as usize
}

// What a store that replaces `entry.undo` by `entry.redo` does to the state; the `count` oldest undo+redo entries were
// logged first.
fn take_in(state: &mut Machine, entry: Entry, count: usize)
    requires bounds { (entry.thread < 8) × ((entry.word < state.old.words) × Bounded state.old) }
    requires count_value { count ≡ store_logs (view state.old) entry.word (eqb entry.redo entry.undo) }
    ensures { (mem : Memory) → get_or mem.working entry.word 0 ≡ entry.undo
        → view state.new ≡ store_next (view state.old) mem entry.thread entry.word entry.redo (eqb entry.redo
        entry.undo) }
{
    let at = (entry.word / 8) as usize;
    let was = state_of(&state.lines, entry.word);
    state.lines[at].holder = entry.thread;
    if entry.redo == entry.undo {
        return;
    }
    state.lines[at].dirty = true;
    match was {
        WordState::Clean => {
            drop_undos(state, count);
            state.undos.push(entry);
            mark(&mut state.lines, entry.word, WordState::Dirty);
            state.redos.discard(entry.word);
        }
        WordState::Dirty => state.undos.amend(entry.word, entry.redo),
        WordState::UrLog => mark(&mut state.lines, entry.word, WordState::ULog),
        WordState::ULog => {}
    }
}

// What a store is to do: for which thread, to which word, and the value.
#[derive(Clone, Copy)]
pub(crate) struct Target {
    pub thread: u64,
    pub word: u64,
    pub value: u64,
}

// The rows of a store, on buffers of W words.
fn refusal(state: &Machine, working: &[u64], log: &[u64], target: Target) -> Result<(), Refusal>
    requires { (length working.now ≡ state.now.words) × Bounded state.now }
    ensures { (mem : Memory) → mem.working ≡ working.now → mem.log ≡ log.now → refusal_number result
        ≡ number_of (store_rows (view state.now) mem target.thread target.word target.value) }
{
    if 7 < target.thread {
        return Err(Refusal::Thread);
    }
    if state.words as u64 <= target.word {
        return Err(Refusal::Place);
    }
    if !state.opened[target.thread as usize] {
        return Err(Refusal::Idle);
    }
    let word = target.word as u16;
    if held_by_another(state, target.thread, word) {
        return Err(Refusal::Held);
    }
    let same = target.value == working[target.word as usize];
    no_room(state, log, logs_first(state, word, same) as u64)
}

// The step, of a state that the common rows do not refuse.
pub(crate) fn stored(
    state: &mut Machine,
    home: &[u64],
    working: &mut [u64],
    log: &mut [u64],
    supply: u64,
    target: Target,
) -> Result<u64, Stop>
    requires { Allowed state.old home.now working.old log.old }
    ensures { Ends (store target.thread target.word target.value) supply state.old
        (memory home.now working.old log.old) result state.new home.now working.new log.new }
{
    refusal(state, working, log, target)?;
    let at = target.word as usize;
    let entry = Entry {
        thread: target.thread as u8,
        word: target.word as u16,
        undo: working[at],
        redo: target.value,
    };
    let count = logs_first(state, entry.word, entry.redo == entry.undo);
    let left = append_undos(log, state.tail, state.undos.oldest(count), supply);
    if supply < 3 * count as u64 {
        return Err(Stop::Cut);
    }
    working[at] = target.value;
    take_in(state, entry, count);
    Ok(left)
}
