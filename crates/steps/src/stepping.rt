// A step given as a value: what comes before its own rows, once for all steps, and then the step itself.
ghost use Rattle.std.specs.Prelude.{◌≡◌};
ghost use Rattle.model.specs.Refusals.{number_of};
ghost use Rattle.model.specs.Step.{first_rows, stepped};
ghost use Rattle.state.specs.Answers.{refusal_number};
ghost use Rattle.state.specs.View.{view, memory, outcome_of, shown};
ghost use Rattle.state.specs.HandedBack.{HandedBack, taken_fields};
ghost use Rattle.state.specs.Ended.{Ends};

use crate::beginning::begun;
use crate::committing::committed;
use crate::deleting::deleted;
use crate::evicting::evicted;
use crate::log_oldest::{redo_logged, undo_logged};
use crate::refusals::common;
use crate::storing::{Target, stored};
use crate::writing_back::written_back;
use parts::Step;
use recovery::recovered;
use state::{Machine, Made, Refusal, Stop};

// The rows that come before a step's own: a recovery has none, and a begin is lent no buffers.
fn first_refusal(
    state: &Machine,
    step: Step,
    home: &[u64],
    working: &[u64],
    log: &[u64],
) -> Result<(), Refusal>
    ensures { refusal_number result
        ≡ number_of (first_rows step (view state.now) (memory home.now working.now log.now)) }
{
    match step {
        Step::Begin { .. } => {
            if state.lost {
                return Err(Refusal::Lost);
            }
            if !state.is_consistent() {
                return Err(Refusal::Inconsistent);
            }
            Ok(())
        }
        Step::Recover => Ok(()),
        _ => common(state, home, working, log),
    }
}

// Refused, or as the step's own function ends it.
fn taken(
    state: &mut Machine,
    step: Step,
    home: &mut [u64],
    working: &mut [u64],
    log: &mut [u64],
    supply: u64,
) -> Result<u64, Stop>
    ensures { Ends step supply state.old (memory home.old working.old log.old)
        result state.new home.new working.new log.new }
{
    first_refusal(state, step, home, working, log)?;
    match step {
        Step::Begin { thread } => begun(state, supply, thread),
        Step::Store {
            thread,
            word,
            value,
        } => {
            let target = Target {
                thread,
                word,
                value,
            };
            stored(state, home, working, log, supply, target)
        }
        Step::LogUndo => undo_logged(state, home, working, log, supply),
        Step::LogRedo => redo_logged(state, home, working, log, supply),
        Step::Evict { line } => evicted(state, home, working, log, supply, line),
        Step::WriteBack { line } => written_back(state, home, working, log, supply, line),
        Step::Commit { thread } => committed(state, home, working, log, supply, thread),
        Step::DeleteOldest => deleted(state, home, working, log, supply),
        Step::Recover => recovered(state, home, working, log, supply),
    }
}

// A step on the state in place.
pub fn perform(
    state: &mut Machine,
    step: Step,
    home: &mut [u64],
    working: &mut [u64],
    log: &mut [u64],
    supply: u64,
) -> Made
    ensures log_after { shown (outcome_of result state.new) home.new working.new log.new
        ≡ stepped step supply (view state.old) (memory home.old working.old log.old) }
    ensures handed_back { HandedBack (taken_fields step state.old) (outcome_of result state.new) }
{
    let end = taken(state, step, home, working, log, supply);
    state.end(end, working, supply)
}
