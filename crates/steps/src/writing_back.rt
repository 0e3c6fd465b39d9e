// "Write home a line: its 8 working words are stored, rising; the dirty flag is cleared."
ghost use Rattle.std.specs.Prelude.{◌≡◌};
ghost use Rattle.model.specs.Refusals.{number_of};
ghost use Rattle.model.specs.Steps.{line_rows};
ghost use Rattle.model.specs.Step.{write_back};
ghost use Rattle.state.specs.Answers.{refusal_number};
ghost use Rattle.state.specs.View.{view, memory};
ghost use Rattle.state.specs.Ended.{Ends};
ghost use Rattle.steps.specs.Allowed.{Allowed, Bounded};

use lines::{has_dirty, store_line};
use state::{Machine, Refusal, Stop};

// The rows of a step on a line that must not be pending.
pub(crate) fn line_refusal(state: &Machine, line: u64) -> Result<(), Refusal>
    requires { Bounded state.now }
    ensures { refusal_number result ≡ number_of (line_rows (view state.now) line) }
{
    if state.words as u64 / 8 <= line {
        return Err(Refusal::Place);
    }
    if has_dirty(state.lines[line as usize].states) {
        return Err(Refusal::Pending);
    }
    Ok(())
}

// The step, of a state that the common rows do not refuse.
pub(crate) fn written_back(
    state: &mut Machine,
    home: &mut [u64],
    working: &[u64],
    log: &[u64],
    supply: u64,
    line: u64,
) -> Result<u64, Stop>
    requires { Allowed state.old home.old working.now log.now }
    ensures { Ends (write_back line) supply state.old (memory home.old working.now log.now)
        result state.new home.new working.now log.now }
{
    line_refusal(state, line)?;
    let at = line as usize;
    let left = store_line(home, working, at, supply);
    if supply < 8 {
        return Err(Stop::Cut);
    }
    state.lines[at].dirty = false;
    Ok(left)
}
