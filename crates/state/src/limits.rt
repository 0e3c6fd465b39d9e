// The limits of a state's numbers.
ghost use Rattle.std.specs.Prelude.{◌≡◌};
ghost use Rattle.model.specs.Consistent.{in_order};
ghost use Rattle.state.specs.View.{view};
ghost use Rattle.state.specs.Linear.{in_limits};

use crate::Machine;
use crate::lengths::is_width;
use log_region::NUMBERS;

impl Machine {
    // "head ≤ tail ≤ head + L"
    fn in_order(&self) -> bool
        ensures { result ≡ in_order (view self.now) }
    {
        self.head <= self.tail && self.tail - self.head <= self.slots as u64
    }

    // The numbers are within their limits, head and tail in order.
    #[tactic(auto, unfolding(crate::specs::Linear::in_limits))]
    pub(crate) fn within_limits(&self) -> bool
        ensures { result ≡ in_limits (view self.now) }
    {
        let numbers = (self.head <= NUMBERS) & (self.tail <= NUMBERS);
        let sizes = is_width(self.words as usize) & (8 <= self.slots) & (self.slots <= 1024);
        let entries = (self.undos.len <= 16) & (self.redos.len <= 32);
        numbers & sizes & entries & self.in_order()
    }
}
