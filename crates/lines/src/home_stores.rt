// "Write home a line": its eight working words are stored. No word of it may be Dirty.
ghost use Rattle.std.specs.Prelude.{◌≡◌, ◌-◌, eqb, length};
ghost use Rattle.log_region.specs.Stores.{stored_under};
ghost use Rattle.parts.specs.States.{state_at, Dirty};
ghost use Rattle.model.specs.Lists.{any, up_to};
ghost use Rattle.lines.specs.Walks.{line_stores};

use crate::state_at;
use parts::WordState;

// A word of the line is Dirty, by the line's states.
pub fn has_dirty(states: u16) -> bool
    ensures { result ≡ any (λ j. eqb (state_at states j) Dirty) (up_to 8) }
{
    (0..8).any(
        |j| -> bool
            ensures { result ≡ eqb (state_at states j) Dirty }
        { state_at(states, j) == WordState::Dirty },
    )
}

// Stores a line's working words home under the supply. Hands back what is left of it.
pub fn store_line(home: &mut [u64], working: &[u64], line: usize, supply: u64) -> u64
    ensures value { result ≡ supply - length (line_stores working.now line) }
    ensures home_after { home.new ≡ stored_under supply home.old (line_stores working.now line) }
{
    if working.len() / 8 <= line {
        return supply;
    }
    let mut left = supply;
    for j in 0..8 {
        let at = 8 * line + j;
        left = log_region::store(home, at, working[at], left);
    }
    left
}
