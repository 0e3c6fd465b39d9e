// The ways out of a step: done, refused, or cut by a loss of supply, which leaves the lost state.
ghost use Rattle.std.specs.Prelude.{◌≡◌, ℕ, List, OnOk, IsOk, length, replicate};
ghost use Rattle.model.specs.Machine.{Memory};
ghost use Rattle.model.specs.Step.{Step};
ghost use Rattle.state.specs.View.{outcome_of, shown};
ghost use Rattle.state.specs.HandedBack.{lost_fields, taken_fields, HandedBack};
ghost use Rattle.state.specs.declared.refusals.Refusal.{Refusal};
ghost use Rattle.state.specs.declared.refusals.Stop.TheVariants.{Refused, Cut};
ghost use Rattle.state.specs.Ended.{ended, Ends};

use crate::{Machine, Made, Stop};

impl Machine {
    // Ends a step that changed the state in place. "The answer is 255 (cut), the count left is 0, all working words
    // become 0, and the returned state is dark."
    pub fn end(&mut self, end: Result<u64, Stop>, working: &mut [u64], supply: u64) -> Made
        ensures comes { (home log : List ℕ) → shown (outcome_of result self.new) home working.new log
            ≡ ended supply end self.old home working.old log }
        ensures done { OnOk result.answer (IsOk end × (self.new ≡ self.old)) }
        ensures refused { (n : Refusal) → end ≡ Err (Refused n)
            → (result ≡ record { answer = Err (Refused n); left = supply }) × (self.new ≡ self.old)
            × (working.new ≡ working.old) }
        ensures cut { end ≡ Err Cut → (result ≡ record { answer = Err Cut; left = 0 }) × (self.new ≡ lost_fields)
            × (working.new ≡ replicate (length working.old) 0) }
        ensures handed_back { (s : Step) (before : Machine) (mem : Memory) (home log : List ℕ)
            → Ends s supply before mem end self.old home working.old log
            → HandedBack (taken_fields s before) (outcome_of result self.new) }
    {
        match end {
            Ok(left) => Made {
                answer: Ok(()),
                left,
            },
            Err(Stop::Refused(refusal)) => Made {
                answer: Err(Stop::Refused(refusal)),
                left: supply,
            },
            Err(Stop::Cut) => {
                working.fill(0);
                *self = Machine::lost();
                Made {
                    answer: Err(Stop::Cut),
                    left: 0,
                }
            }
        }
    }
}
