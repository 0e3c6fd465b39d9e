// "its word becomes URLog, as it does whenever such an entry is logged"
ghost use Rattle.std.specs.Prelude.{◌≡◌};
ghost use Rattle.model.specs.Machine.{all_logged};

use parts::{Entry, Line, WordState};

// The words of undo+redo entries become URLog.
pub fn mark_logged(lines: &mut [Line], entries: &[Entry])
    ensures { lines.new ≡ all_logged entries.now lines.old }
{
    for entry in entries {
        lines::mark(lines, entry.word, WordState::UrLog);
    }
}
