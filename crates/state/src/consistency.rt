// Refusal 3: whether a state is consistent, the contrary of document 01's "unsound", in time linear in lines and
// entries.
ghost use Rattle.std.specs.Prelude.{◌≡◌};
ghost use Rattle.model.specs.Consistent.{consistent};
ghost use Rattle.state.specs.View.{view};

use crate::Machine;
use crate::holding::lines_sound;
use crate::waiting_entries::each_waits;
use parts::WordState;

impl Machine {
    // The state is consistent. In a copy of the lines each entry's word is marked, those of the undo+redo entries
    // before the lines are looked at: a word that is still Dirty then has no entry.
    pub fn is_consistent(&self) -> bool
        ensures { result ≡ consistent (view self.now) }
    {
        if !self.within_limits() {
            return false;
        }
        let mut copied = self.lines;
        let lines = &mut copied[..(self.words / 8) as usize];
        let undos = each_waits(
            self.words,
            lines,
            self.undos.oldest(self.undos.len),
            WordState::Dirty,
            WordState::UrLog,
        );
        let sound = lines_sound(&self.opened, lines);
        let redos = each_waits(
            self.words,
            lines,
            self.redos.oldest(self.redos.len),
            WordState::Clean,
            WordState::ULog,
        );
        undos & sound & redos
    }
}
