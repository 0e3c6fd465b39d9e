// The rows of the table of refusals that several steps share.
ghost use Rattle.std.specs.Prelude.{◌≡◌};
ghost use Rattle.model.specs.Refusals.{number_of, wrong_size, common as common_rows};
ghost use Rattle.state.specs.Answers.{refusal_number};
ghost use Rattle.state.specs.View.{view, memory};

use state::{Machine, Refusal, wrong_lengths};

// A length is wrong, or, unless the state is lost, differs from its W or L.
fn wrong_size(state: &Machine, home: &[u64], working: &[u64], log: &[u64]) -> bool
    ensures { result ≡ wrong_size (view state.now) (memory home.now working.now log.now) }
{
    let width = state.words as usize;
    let slots = state.slots as u64;
    wrong_lengths(home, working, log)
        | (!state.lost & ((home.len() != width) | (log_region::slots(log) != slots)))
}

// The rows of every step that takes a state and is lent the buffers.
pub(crate) fn common(
    state: &Machine,
    home: &[u64],
    working: &[u64],
    log: &[u64],
) -> Result<(), Refusal>
    ensures { refusal_number result
        ≡ number_of (common_rows (view state.now) (memory home.now working.now log.now)) }
{
    if wrong_size(state, home, working, log) {
        return Err(Refusal::Size);
    }
    if state.lost {
        return Err(Refusal::Lost);
    }
    let consistent = state.is_consistent() & (log_region::head(log) == state.head);
    if !consistent {
        return Err(Refusal::Inconsistent);
    }
    Ok(())
}
