// "Commit t": both buffers are logged, then the newest values of t's ULog words and the commit record; "lines held by t
// become unheld and all Clean, and the transaction closes".
ghost use Rattle.std.specs.Prelude.{◌≡◌, List, ℕ, ◌+◌, ◌≤◌, ◌<◌, length, ◌*◌, ◌/◌, min};
ghost use Rattle.log_region.specs.Region.{numbers};
ghost use Rattle.lines.specs.Lines.{first_lines};
ghost use Rattle.lines.specs.Newest.{newest_words};
ghost use Rattle.log_region.specs.Appended.{Appended};
ghost use Rattle.model.specs.Machine.{Memory};
ghost use Rattle.model.specs.Refusals.{number_of};
ghost use Rattle.model.specs.Steps.{commit_records, commit_rows, commit_next};
ghost use Rattle.state.specs.Answers.{refusal_number};
ghost use Rattle.model.specs.Step.{commit};
ghost use Rattle.state.specs.View.{view, memory};
ghost use Rattle.state.specs.Ended.{Ends};
ghost use Rattle.steps.specs.Allowed.{Allowed, Bounded};

use buffers::{append_redos, append_undos, mark_logged};
use lines::{append_newest, count_newest, release};
use log_region::Record;
use oldest::no_room;
use state::{Machine, Refusal, Stop};

// The rows of a commit, which logs `count` records.
fn refusal(state: &Machine, log: &[u64], thread: u64, count: u64) -> Result<(), Refusal>
    ensures { (mem : Memory) → mem.log ≡ log.now → count ≡ length (commit_records (view state.now) mem thread)
        → refusal_number result ≡ number_of (commit_rows (view state.now) mem thread) }
{
    if 7 < thread {
        return Err(Refusal::Thread);
    }
    if !state.opened[thread as usize] {
        return Err(Refusal::Idle);
    }
    no_room(state, log, count)
}

// Appends its records, of which `newest` are those of the thread's ULog words. Hands back what is left of the supply.
fn append_records(
    state: &Machine,
    working: &[u64],
    log: &mut [u64],
    supply: u64,
    thread: u8,
    newest: usize,
) -> u64
    requires newest_value { newest ≡ length (newest_words (first_lines (min (state.now.words / 8) 64)
        state.now.lines) thread (8 * min (state.now.words / 8) 64)) }
    requires sizes { (length working.now ≡ state.now.words) × Bounded state.now }
    ensures { (home : List ℕ) → Appended supply log.old state.now.tail
        (commit_records (view state.now) (memory home working.now log.old) thread) log.new result }
{
    let undos = state.undos.oldest(state.undos.len);
    let redos = state.redos.oldest(state.redos.len);
    let redos_from = state.tail + undos.len() as u64;
    let newest_from = redos_from + redos.len() as u64;
    let after_undos = append_undos(log, state.tail, undos, supply);
    let after_redos = append_redos(log, redos_from, redos, after_undos);
    let after_newest = append_newest(log, newest_from, working, &state.lines, thread, after_redos);
    let commit_at = newest_from + newest as u64;
    let record = Record::Commit { thread };
    log_region::append(log, commit_at, record, after_newest)
}

// The state after its commit: nothing waits, and the thread's lines are released.
fn close(state: &mut Machine, thread: usize, count: u64)
    requires { (thread < 8) × ((state.old.tail + count ≤ numbers) × Bounded state.old) }
    ensures { (mem : Memory) → count ≡ length (commit_records (view state.old) mem thread)
        → view state.new ≡ commit_next (view state.old) mem thread }
{
    let lines = (state.words / 8) as usize;
    mark_logged(&mut state.lines, state.undos.oldest(state.undos.len));
    release(&mut state.lines[..lines], thread as u8);
    state.undos.clear();
    state.redos.clear();
    state.opened[thread] = false;
    state.tail += count;
}

// The step, of a state that the common rows do not refuse.
pub(crate) fn committed(
    state: &mut Machine,
    home: &[u64],
    working: &[u64],
    log: &mut [u64],
    supply: u64,
    thread: u64,
) -> Result<u64, Stop>
    requires { Allowed state.old home.now working.now log.old }
    ensures { Ends (commit thread) supply state.old (memory home.now working.now log.old)
        result state.new home.now working.now log.new }
{
    let newest = count_newest(&state.lines, (state.words / 8) as usize, thread);
    let count = (state.undos.len + state.redos.len + newest + 1) as u64;
    refusal(state, log, thread, count)?;
    let left = append_records(state, working, log, supply, thread as u8, newest);
    if supply < 3 * count {
        return Err(Stop::Cut);
    }
    close(state, thread as usize, count);
    Ok(left)
}
