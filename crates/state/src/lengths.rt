// The lengths of the lent buffers.
ghost use Rattle.std.specs.Prelude.{◌≡◌};
ghost use Rattle.model.specs.Consistent.{is_width};
ghost use Rattle.model.specs.Refusals.{wrong_lengths};
ghost use Rattle.state.specs.View.{memory};

// "W a multiple of 8 from 8 to 512"
pub(crate) fn is_width(n: usize) -> bool
    ensures { result ≡ is_width n }
{
    8 <= n && n <= 512 && n % 8 == 0
}

// A length is outside its limits, or home and working differ in length.
#[tactic(auto, unfolding(model::specs::Refusals::wrong_lengths))]
pub fn wrong_lengths(home: &[u64], working: &[u64], log: &[u64]) -> bool
    ensures { result ≡ wrong_lengths (memory home.now working.now log.now) }
{
    !is_width(home.len()) || working.len() != home.len() || log_region::slots(log) == 0
}
