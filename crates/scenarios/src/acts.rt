// What each command of the table does.
use crate::bench::{Bench, NotUnderstood, Outcome};
use crate::command::{Command, Verb};

impl Bench {
    // A command that is no step. What is expected of home or working is the word at `place`.
    fn changes(&mut self, command: &Command, place: u64) -> Result<(), NotUnderstood> {
        let [a, b, c, d] = command.numbers;
        match command.verb.ok_or(NotUnderstood)? {
            Verb::Large => self.recovers(a, b),
            Verb::Lend => self.lends(a, b, c),
            Verb::LogWord => self.sets(a, b),
            Verb::Limits => self.limits(a, b, c, d),
            Verb::Line => self.holds(a, b, c),
            Verb::AddUndo => self.adds_undo(a, b),
            Verb::AddRedo => self.adds_redo(a, b),
            Verb::Redos => self.redos(a),
            Verb::Close => self.closes(a),
            Verb::Home => self.home.name(place, a)?,
            Verb::Working => self.working.name(place, a)?,
            Verb::Head => self.head = Some(a),
            Verb::Slot => self.expects_slot(a, [b, c, d])?,
            _ => return Err(NotUnderstood),
        }
        Ok(())
    }

    // A command once, of the word that comes `later` words after the one that it names.
    fn acts(&mut self, command: &Command, later: u64) -> Result<(), NotUnderstood> {
        let place = command.word.wrapping_add(later);
        match command.step(place) {
            Some(step) => self.tries(command.supply, step),
            None => self.changes(command, place)?,
        }
        Ok(())
    }

    // A command as often as it says. If it names what is expected of it, that is to be an answer and stores.
    pub(crate) fn does(&mut self, command: &Command) {
        for later in 0..command.times {
            let acted = self.acts(command, later);
            self.known = self.known && acted.is_ok();
        }
        self.known = self.known && command.known;
        if let Some(stores) = command.stores {
            let answer = command.answer.unwrap_or(0);
            let noted = self.note(Outcome { answer, stores });
            self.known = self.known && command.answer.is_some() && noted.is_ok();
        }
    }
}
