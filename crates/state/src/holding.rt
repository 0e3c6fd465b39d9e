// The lines: who holds them, and that no word is Dirty once those with an entry are marked.
ghost use Rattle.std.specs.Prelude.{◌≡◌};
ghost use Rattle.model.specs.Lists.{all};
ghost use Rattle.state.specs.Linear.{line_sound};

use lines::{ALL_CLEAN, NOBODY, has_dirty};
use parts::Line;

// Nobody holds the line, and its words are all Clean; or a thread with an open transaction does, and none is Dirty.
#[tactic(auto, unfolding(crate::specs::Linear::line_sound))]
fn line_sound(opened: &[bool; 8], line: Line) -> bool
    ensures { result ≡ line_sound opened.now line }
{
    let free = line.holder == NOBODY;
    if free {
        line.states == ALL_CLEAN
    } else {
        line.holder < 8 && opened[line.holder as usize] && !has_dirty(line.states)
    }
}

// Each line is sound.
pub(crate) fn lines_sound(opened: &[bool; 8], lines: &[Line]) -> bool
    ensures { result ≡ all (line_sound opened.now) lines.now }
{
    lines.iter().all(|line| line_sound(opened, *line))
}
