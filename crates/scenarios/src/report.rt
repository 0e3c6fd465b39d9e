// A scenario's line.
use crate::bench::{Bench, Slot};
use crate::expected::Expected;
use std::io;

// A number of each item, a blank before each.
fn numbers<T, F: Fn(&T) -> u64>(rt: &impl Print, items: &[T], number: F) -> io::Result<()>
    requires { F.IsAlwaysCallable number }
{
    for item in items {
        let n = number(item);
        print!(rt; " {n}")?;
    }
    Ok(())
}

// The words up to the last one that is named: what came out, and what is expected.
fn words(rt: &impl Print, got: &[u64; 64], expected: &Expected) -> io::Result<()> {
    let shown = expected.shown;
    numbers(rt, &got[..shown], |word| *word)?;
    print!(rt; " =")?;
    numbers(rt, &expected.words[..shown], |word| *word)
}

impl Bench {
    // The words of a slot: slot s is words 1+3s, 2+3s and 3+3s.
    fn slot(&self, place: usize) -> [u64; 3] {
        if place >= 84 {
            return [0; 3];
        }
        let at = 3 * place;
        let log = &self.memory.log;
        [log[at + 1], log[at + 2], log[at + 3]]
    }

    // The text was understood, and names what is expected at the end.
    fn is_known(&self) -> bool {
        self.known && self.head.is_some() && self.home.shown != 0 && self.working.shown != 0
    }

    // Everything is as expected.
    pub(crate) fn is_right(&self) -> bool {
        self.is_known()
            && self.kept
            && self.kept_state
            && self.left_lost
            && self.notes.iter().all(|note| note.got == note.expected)
            && self.home.words == self.memory.home
            && self.working.words == self.memory.working
            && self.head == Some(self.memory.log[0])
            && self
                .slots
                .iter()
                .all(|slot| self.slot(slot.place) == slot.words)
    }

    // What is wrong and not shown by numbers.
    pub(crate) fn warns(&self, rt: &impl Print) -> io::Result<()> {
        let warnings = [
            (!self.is_known(), "THE TEXT IS NOT UNDERSTOOD"),
            (!self.kept, "A REFUSED STEP CHANGED A BUFFER"),
            (!self.kept_state, "A REFUSED STEP CHANGED THE STATE"),
            (
                !self.left_lost,
                "A CUT OR A REFUSED RECOVER LEFT MORE THAN THE LOST STATE",
            ),
            (
                self.home.hides(&self.memory.home),
                "ANOTHER WORD OF HOME IS NOT 0",
            ),
            (
                self.working.hides(&self.memory.working),
                "ANOTHER WORD OF WORKING IS NOT 0",
            ),
        ];
        for (wrong, text) in warnings {
            if wrong {
                print!(rt; " {text};")?;
            }
        }
        Ok(())
    }

    // What came out, and what is expected.
    pub(crate) fn shows_steps(&self, rt: &impl Print) -> io::Result<()> {
        let notes = self.notes.as_slice();
        print!(rt; " answers")?;
        numbers(rt, notes, |note| note.got.answer)?;
        print!(rt; " =")?;
        numbers(rt, notes, |note| note.expected.answer)?;
        print!(rt; "; stores")?;
        numbers(rt, notes, |note| note.got.stores)?;
        print!(rt; " =")?;
        numbers(rt, notes, |note| note.expected.stores)?;
        print!(rt; "; home")?;
        words(rt, &self.memory.home, &self.home)?;
        print!(rt; "; working")?;
        words(rt, &self.memory.working, &self.working)?;
        let head = self.head.unwrap_or(0);
        print!(rt; "; head {} = {head}", self.memory.log[0])
    }

    // A slot's line.
    fn show_slot(&self, rt: &impl Print, slot: &Slot) -> io::Result<()> {
        let place = slot.place;
        let [a, b, c] = self.slot(place);
        let [d, e, f] = slot.words;
        print!(rt;
            "\n            slot {place}: {a:016x} {b:016x} {c:016x} = {d:016x} {e:016x} {f:016x}"
        )
    }

    pub(crate) fn shows_slots(&self, rt: &impl Print) -> io::Result<()> {
        for slot in self.slots.iter() {
            self.show_slot(rt, slot)?;
        }
        Ok(())
    }
}
