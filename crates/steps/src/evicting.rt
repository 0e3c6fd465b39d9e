// "Set down a line": eviction. Its ULog words add redo entries, for which the oldest are logged where places lack; all
// its words become Clean.
ghost use Rattle.std.specs.Prelude.{◌≡◌, ◌<◌, ◌≤◌, ◌/◌};
ghost use Rattle.model.specs.Machine.{Memory};
ghost use Rattle.model.specs.Refusals.{number_of};
ghost use Rattle.model.specs.Step.{evict};
ghost use Rattle.model.specs.Steps.{lacking, evict_rows};
ghost use Rattle.state.specs.Answers.{refusal_number};
ghost use Rattle.state.specs.View.{view, memory};
ghost use Rattle.state.specs.Ended.{Ends};
ghost use Rattle.steps.specs.Allowed.{Allowed, Bounded};

use crate::logged::drop_redos;
use crate::writing_back::line_refusal;
use buffers::append_redos;
use lines::{ALL_CLEAN, count_ulog};
use oldest::no_room;
use state::{Machine, Refusal, Stop};

// How many redo entries have to be logged for those of a line to find places.
fn lacking(state: &Machine, at: usize) -> usize
    requires { (at < state.now.words / 8) × Bounded state.now }
    ensures upper_bound { result ≤ state.now.redos.len }
    ensures value { (mem : Memory) → result ≡ lacking (view state.now) mem at }
{
    let all = state.redos.len + count_ulog(state.lines[at].states);
    all.saturating_sub(32)
}

// The rows of an eviction.
fn refusal(state: &Machine, log: &[u64], line: u64) -> Result<(), Refusal>
    requires { Bounded state.now }
    ensures { (mem : Memory) → mem.log ≡ log.now
        → refusal_number result ≡ number_of (evict_rows (view state.now) mem line) }
{
    line_refusal(state, line)?;
    no_room(state, log, lacking(state, line as usize) as u64)
}

// The step, of a state that the common rows do not refuse.
pub(crate) fn evicted(
    state: &mut Machine,
    home: &[u64],
    working: &[u64],
    log: &mut [u64],
    supply: u64,
    line: u64,
) -> Result<u64, Stop>
    requires { Allowed state.old home.now working.now log.old }
    ensures { Ends (evict line) supply state.old (memory home.now working.now log.old)
        result state.new home.now working.now log.new }
{
    refusal(state, log, line)?;
    let at = line as usize;
    let count = lacking(state, at);
    let left = append_redos(log, state.tail, state.redos.oldest(count), supply);
    if supply < 3 * count as u64 {
        return Err(Stop::Cut);
    }
    drop_redos(state, count);
    state.redos.add_ulog_words(&state.lines[at], at, working);
    state.lines[at].states = ALL_CLEAN;
    Ok(left)
}
