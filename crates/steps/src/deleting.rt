// "Delete: one store, the head plus one": the oldest record goes, if the verdict on it allows it.
ghost use Rattle.std.specs.Prelude.{◌≡◌};
ghost use Rattle.model.specs.Refusals.{number_of};
ghost use Rattle.model.specs.Step.{delete_oldest};
ghost use Rattle.model.specs.Steps.{verdict_rows};
ghost use Rattle.state.specs.Answers.{refusal_number};
ghost use Rattle.state.specs.View.{view, memory};
ghost use Rattle.state.specs.Ended.{Ends};
ghost use Rattle.steps.specs.Allowed.{Allowed};

use oldest::verdict;
use parts::Verdict;
use state::{Machine, Refusal, Stop};

// The row of a delete, by the verdict on the oldest record.
fn refusal(verdict: Verdict) -> Result<(), Refusal>
    ensures { refusal_number result ≡ number_of (verdict_rows verdict) }
{
    match verdict {
        Verdict::Nothing => Err(Refusal::Nothing),
        Verdict::Damaged => Err(Refusal::Damaged),
        Verdict::Open | Verdict::Needed => Err(Refusal::Needed),
        Verdict::Spare => Ok(()),
    }
}

// The step, of a state that the common rows do not refuse.
pub(crate) fn deleted(
    state: &mut Machine,
    home: &[u64],
    working: &[u64],
    log: &mut [u64],
    supply: u64,
) -> Result<u64, Stop>
    requires { Allowed state.old home.now working.now log.old }
    ensures { Ends delete_oldest supply state.old (memory home.now working.now log.old)
        result state.new home.now working.now log.new }
{
    refusal(verdict(state, log))?;
    let head = state.head + 1;
    let left = log_region::set_head(log, head, supply);
    if supply == 0 {
        return Err(Stop::Cut);
    }
    state.head = head;
    Ok(left)
}
