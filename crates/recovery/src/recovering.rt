// "Recover: takes no state": home is brought to the committed values by the log, and all else follows home and the
// log's tail.
ghost use Rattle.std.specs.Prelude.{◌≡◌, length, OnOk};
ghost use Rattle.log_region.specs.Region.{slots_of};
ghost use Rattle.model.specs.Machine.{lost_machine};
ghost use Rattle.model.specs.Refusals.{number_of};
ghost use Rattle.model.specs.Step.{recover as recover_step, stepped};
ghost use Rattle.state.specs.Answers.{refusal_number};
ghost use Rattle.state.specs.View.{memory, shown};
ghost use Rattle.state.specs.HandedBack.{lost_fields, fresh_fields, HandedBack};
ghost use Rattle.state.specs.Ended.{Ends};
ghost use Rattle.state.specs.declared.refusals.Stop.TheVariants.{Cut};
ghost use Rattle.recovery.specs.Recovering.{unreadable_rows};

use crate::reading::scan;
use log_region::NUMBERS;
use state::{Machine, Made, Outcome, Refusal, Stop, wrong_lengths};

// The rows of a recovery before it reads the log.
#[tactic(auto, unfolding(model::specs::Refusals::number_of))]
fn unreadable(home: &[u64], working: &[u64], log: &[u64]) -> Result<(), Refusal>
    ensures { refusal_number result ≡ number_of (unreadable_rows (memory home.now working.now log.now)) }
{
    if wrong_lengths(home, working, log) {
        return Err(Refusal::Size);
    }
    if NUMBERS < log_region::head(log) {
        return Err(Refusal::Head);
    }
    Ok(())
}

// A recovery, in the place of any state: "a refused recover hands back a dark state".
pub fn recovered(
    state: &mut Machine,
    home: &mut [u64],
    working: &mut [u64],
    log: &mut [u64],
    supply: u64,
) -> Result<u64, Stop>
    ensures ends { Ends recover_step supply state.old (memory home.old working.old log.old)
        result state.new home.new working.new log.new }
    ensures fresh { OnOk result
        (state.new ≡ fresh_fields (length home.old) (slots_of log.old) state.new.tail) }
    ensures cut { result ≡ Err Cut → (state.new ≡ lost_fields) × (working.new ≡ working.old) }
{
    *state = Machine::lost();
    unreadable(home, working, log)?;
    let words = home.len() as u16;
    let slots = log_region::slots(log) as u16;
    let records = scan(log, words).ok_or(Refusal::Damaged)?;
    let tail = records.tail;
    let after_home = records.replay(home, supply);
    let left = log_region::set_head(log, tail, after_home);
    if after_home == 0 {
        return Err(Stop::Cut);
    }
    working.copy_from_slice(home);
    *state = Machine::fresh(words, slots, tail);
    Ok(left)
}

// A recovery: refused, cut or done. It takes no state.
pub fn recover(home: &mut [u64], working: &mut [u64], log: &mut [u64], supply: u64) -> Outcome
    ensures log_after { shown result home.new working.new log.new
        ≡ stepped recover_step supply lost_machine (memory home.old working.old log.old) }
    ensures handed_back { HandedBack lost_fields result }
    ensures state_value { OnOk result.answer
        (result.state ≡ fresh_fields (length home.old) (slots_of log.old) result.state.tail) }
{
    let mut state = Machine::lost();
    let end = recovered(&mut state, home, working, log, supply);
    let Made { answer, left } = state.end(end, working, supply);
    Outcome {
        answer,
        left,
        state,
    }
}
