// "Log undo: the oldest undo+redo entry is logged", "Log redo: the oldest redo entry is logged".
ghost use Rattle.std.specs.Prelude.{◌≡◌, List, min, length};
ghost use Rattle.log_region.specs.declared.Record.{Record};
ghost use Rattle.model.specs.Machine.{Memory};
ghost use Rattle.model.specs.Refusals.{number_of};
ghost use Rattle.model.specs.Steps.{oldest_rows};
ghost use Rattle.model.specs.Step.{log_undo, log_redo};
ghost use Rattle.state.specs.Answers.{refusal_number};
ghost use Rattle.state.specs.View.{view, memory};
ghost use Rattle.state.specs.Ended.{Ends};
ghost use Rattle.steps.specs.Allowed.{Allowed};

use crate::logged::{drop_redos, drop_undos};
use buffers::{append_redos, append_undos};
use oldest::no_room;
use state::{Machine, Refusal, Stop};

// The rows of logging the oldest of `len` entries.
fn refusal(state: &Machine, len: usize, log: &[u64]) -> Result<(), Refusal>
    ensures { (mem : Memory) (records : List Record) → mem.log ≡ log.now → length records ≡ min 1 len
        → refusal_number result ≡ number_of (oldest_rows (view state.now) mem records) }
{
    if len == 0 {
        return Err(Refusal::Nothing);
    }
    no_room(state, log, 1)
}

// The step log undo, of a state that the common rows do not refuse.
pub(crate) fn undo_logged(
    state: &mut Machine,
    home: &[u64],
    working: &[u64],
    log: &mut [u64],
    supply: u64,
) -> Result<u64, Stop>
    requires { Allowed state.old home.now working.now log.old }
    ensures { Ends log_undo supply state.old (memory home.now working.now log.old)
        result state.new home.now working.now log.new }
{
    refusal(state, state.undos.len, log)?;
    let left = append_undos(log, state.tail, state.undos.oldest(1), supply);
    if supply < 3 {
        return Err(Stop::Cut);
    }
    drop_undos(state, 1);
    Ok(left)
}

// The step log redo, in the same way.
pub(crate) fn redo_logged(
    state: &mut Machine,
    home: &[u64],
    working: &[u64],
    log: &mut [u64],
    supply: u64,
) -> Result<u64, Stop>
    requires { Allowed state.old home.now working.now log.old }
    ensures { Ends log_redo supply state.old (memory home.now working.now log.old)
        result state.new home.now working.now log.new }
{
    refusal(state, state.redos.len, log)?;
    let left = append_redos(log, state.tail, state.redos.oldest(1), supply);
    if supply < 3 {
        return Err(Stop::Cut);
    }
    drop_redos(state, 1);
    Ok(left)
}
