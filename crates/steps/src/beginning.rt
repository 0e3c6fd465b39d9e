// "Begin t: opens a transaction; no stores."
ghost use Rattle.std.specs.Prelude.{◌≡◌};
ghost use Rattle.model.specs.Machine.{Memory};
ghost use Rattle.model.specs.Refusals.{number_of, state_rows};
ghost use Rattle.model.specs.Step.{begin};
ghost use Rattle.model.specs.Steps.{begin_rows};
ghost use Rattle.state.specs.Answers.{refusal_number};
ghost use Rattle.state.specs.View.{view};
ghost use Rattle.state.specs.Ended.{Ends};

use state::{Machine, Refusal, Stop};

// The rows of a begin.
fn refusal(state: &Machine, thread: u64) -> Result<(), Refusal>
    ensures { refusal_number result ≡ number_of (begin_rows (view state.now) thread) }
{
    if 7 < thread {
        return Err(Refusal::Thread);
    }
    if state.opened[thread as usize] {
        return Err(Refusal::Busy);
    }
    Ok(())
}

// The step, of a state that is neither lost nor inconsistent.
pub(crate) fn begun(state: &mut Machine, supply: u64, thread: u64) -> Result<u64, Stop>
    requires { number_of (state_rows (view state.old)) ≡ 0 }
    ensures { (mem : Memory)
        → Ends (begin thread) supply state.old mem result state.new mem.home mem.working mem.log }
{
    refusal(state, thread)?;
    state.opened[thread as usize] = true;
    Ok(supply)
}
