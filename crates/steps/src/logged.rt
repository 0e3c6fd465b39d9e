// The state after its oldest waiting entries were logged.
ghost use Rattle.std.specs.Prelude.{◌≡◌, ◌≤◌};
ghost use Rattle.model.specs.Steps.{undos_logged, redos_logged};
ghost use Rattle.state.specs.View.{view};
ghost use Rattle.steps.specs.Allowed.{Bounded};

use buffers::mark_logged;
use state::Machine;

// The `count` oldest undo+redo entries go, and their words become URLog.
pub(crate) fn drop_undos(state: &mut Machine, count: usize)
    requires { (count ≤ state.old.undos.len) × Bounded state.old }
    ensures { view state.new ≡ undos_logged count (view state.old) }
{
    mark_logged(&mut state.lines, state.undos.oldest(count));
    state.undos.drop_oldest(count);
    state.tail += count as u64;
}

// The `count` oldest redo entries go.
pub(crate) fn drop_redos(state: &mut Machine, count: usize)
    requires { (count ≤ state.old.redos.len) × Bounded state.old }
    ensures { view state.new ≡ redos_logged count (view state.old) }
{
    state.redos.drop_oldest(count);
    state.tail += count as u64;
}
