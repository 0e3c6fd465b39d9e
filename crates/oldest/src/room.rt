// Whether a step finds room for its records in the log, and if not, why.
ghost use Rattle.std.specs.Prelude.{◌≡◌};
ghost use Rattle.model.specs.Machine.{Memory};
ghost use Rattle.model.specs.Refusals.{number_of, why_full, no_room};
ghost use Rattle.state.specs.Answers.{number_of_refusal, refusal_number};
ghost use Rattle.state.specs.View.{view};

use crate::verdicts::verdict;
use log_region::NUMBERS;
use parts::Verdict;
use state::{Machine, Refusal, refuse};

// How a step is refused where the log is full, by the verdict on its oldest record.
fn why_full(verdict: Verdict) -> Refusal
    ensures { number_of_refusal result ≡ why_full verdict }
{
    match verdict {
        Verdict::Open => Refusal::FullOpen,
        Verdict::Needed => Refusal::FullNeeded,
        Verdict::Nothing | Verdict::Damaged | Verdict::Spare => Refusal::Full,
    }
}

// A step that logs `count` records is refused for lack of room. The oldest record is read only where the free slots are
// too few.
pub fn no_room(state: &Machine, log: &[u64], count: u64) -> Result<(), Refusal>
    ensures { (mem : Memory) → mem.log ≡ log.now
        → refusal_number result ≡ number_of (no_room (view state.now) mem count) }
{
    let kept = state.tail.saturating_sub(state.head);
    if (state.slots as u64).saturating_sub(kept) < count {
        return Err(why_full(verdict(state, log)));
    }
    refuse(
        NUMBERS.saturating_sub(state.tail) < count,
        Refusal::Exhausted,
    )
}
