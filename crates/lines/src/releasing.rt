// "Lines held by t become unheld and all Clean": the lines after a commit.
ghost use Rattle.std.specs.Prelude.{◌≡◌, map};
ghost use Rattle.model.specs.Steps.{released};

use crate::{ALL_CLEAN, NOBODY};
use parts::Line;

// The lines after the thread's commit.
pub fn release(lines: &mut [Line], thread: u8)
    ensures { lines.new ≡ map (released thread) lines.old }
{
    for line in lines.iter_mut() {
        if line.holder == thread {
            line.holder = NOBODY;
            line.states = ALL_CLEAN;
        }
    }
}
