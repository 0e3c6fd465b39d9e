// The verdict on the oldest record of the log: whether a delete may take it, and why not.
ghost use Rattle.std.specs.Prelude.{◌≡◌, ◌+◌, ◌-◌};
ghost use Rattle.log_region.specs.Region.{read_from};
ghost use Rattle.model.specs.Machine.{Memory, dirty_in};
ghost use Rattle.model.specs.Verdict.{judged, verdict};
ghost use Rattle.state.specs.View.{view};

use crate::commits::has_later_commit;
use lines::FREE_LINE;
use log_region::Record;
use parts::Verdict;
use state::Machine;

// The dirty flag of a word's line; past the lines in use there is none.
pub fn is_dirty(state: &Machine, word: u16) -> bool
    ensures { result ≡ dirty_in (view state.now).lines word }
{
    let at = word / 8;
    let line = state.lines.get(at as usize).copied().unwrap_or(FREE_LINE);
    at < state.words / 8 && line.dirty
}

// On a record of the thread for the word.
#[tactic(auto, unfolding(model::specs::Verdict::judged))]
fn judged(state: &Machine, log: &[u64], thread: u8, word: u16) -> Verdict
    ensures { let next = state.now.head + 1 in
        result ≡ judged (view state.now) thread word
        (read_from (state.now.tail - next) state.now.words log.now next) }
{
    if !has_later_commit(state, log, thread) {
        Verdict::Open
    } else if is_dirty(state, word) {
        Verdict::Needed
    } else {
        Verdict::Spare
    }
}

// On the oldest record, if there is one. A commit may always go.
#[tactic(auto, unfolding(model::specs::Verdict::verdict))]
pub fn verdict(state: &Machine, log: &[u64]) -> Verdict
    ensures { (mem : Memory) → mem.log ≡ log.now → result ≡ verdict (view state.now) mem }
{
    if state.head == state.tail {
        return Verdict::Nothing;
    }
    match log_region::read(log, state.head, state.words) {
        Some(Record::UndoRedo { thread, word, .. } | Record::Redo { thread, word, .. }) => {
            judged(state, log, thread, word)
        }
        Some(Record::Commit { .. }) => Verdict::Spare,
        None => Verdict::Damaged,
    }
}
