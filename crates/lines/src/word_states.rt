// The two-bit states of a line's words, and the holder of a word's line.
ghost use Rattle.std.specs.Prelude.{◌≡◌, ◌/◌, ◌&&◌, cond, ltb};
ghost use Rattle.parts.specs.States.{state_at, with_state, bits_of};
ghost use Rattle.model.specs.Machine.{line_of, state_in, holder_in, marked};

use crate::FREE_LINE;
use parts::{Line, WordState};

// The state of word j of a line.
pub fn state_at(states: u16, j: u64) -> WordState
    ensures { bits_of result ≡ state_at states j }
{
    if j < 8 {
        WordState::from_bits((states as u64 >> (2 * j)) & 3)
    } else {
        WordState::Clean
    }
}

// A line's states with that of word j replaced. There are eight words.
pub fn with_state(states: u16, j: u64, state: WordState) -> u16
    ensures { result ≡ cond (ltb j 8) (with_state states j (bits_of state)) states }
{
    if j < 8 {
        let old = state_at(states, j).bits();
        let others = states as u64 - (old << (2 * j));
        (others + (state.bits() << (2 * j))) as u16
    } else {
        states
    }
}

// The same by the number of a state. There are four.
pub fn with_bits(states: u16, j: u64, bits: u64) -> u16
    ensures { result ≡ cond (ltb j 8 && ltb bits 4) (with_state states j bits) states }
{
    if bits < 4 {
        with_state(states, j, WordState::from_bits(bits))
    } else {
        states
    }
}

// The line of a word; past the last one a free line.
fn line_of(lines: &[Line], word: u16) -> Line
    ensures { result ≡ line_of lines.now (word / 8) }
{
    lines.get((word / 8) as usize).copied().unwrap_or(FREE_LINE)
}

// The state of a word; past the last line, as of a free one.
#[tactic(auto, unfolding(model::specs::Machine::state_in))]
pub fn state_of(lines: &[Line], word: u16) -> WordState
    ensures { bits_of result ≡ state_in lines.now word }
{
    state_at(line_of(lines, word).states, (word % 8) as u64)
}

// The holder of a word's line; past the last line, as of a free one.
#[tactic(auto, unfolding(model::specs::Machine::holder_in))]
pub fn holder_of(lines: &[Line], word: u16) -> u8
    ensures { result ≡ holder_in lines.now word }
{
    line_of(lines, word).holder
}

// The state of a word replaced; past the last line nothing is.
pub fn mark(lines: &mut [Line], word: u16, state: WordState)
    ensures { lines.new ≡ marked (bits_of state) word lines.old }
{
    let at = (word / 8) as usize;
    if at < lines.len() {
        lines[at].states = with_state(lines[at].states, (word % 8) as u64, state);
    }
}
