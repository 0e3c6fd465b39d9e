// The stores of a recovery into home: a pass forward over the records read, and one backward.
ghost use Rattle.std.specs.Prelude.{◌≡◌, ◌-◌, length};
ghost use Rattle.std.specs.Iterator.{IsFinite};
ghost use Rattle.log_region.specs.Stores.{stored_under};
ghost use Rattle.log_region.specs.Region.{records_of};
ghost use Rattle.model.specs.Readings.{records};
ghost use Rattle.model.specs.Recovery.{recovery_writes};
ghost use Rattle.recovery.specs.Recovering.{closed_by, redo_at, undo_at, StoredEach, Scanned};

use crate::reading::Records;
use log_region::Record;

// A store into home: a word and its value.
#[derive(Clone, Copy)]
struct Put {
    at: usize,
    value: u64,
}

impl Records<'_> {
    // "counts as closed if a commit of its thread comes later": its number is below that of the thread's last commit.
    fn is_closed(&self, thread: u8, number: u64) -> bool
        ensures { result ≡ closed_by self.now.last number thread }
    {
        self.last
            .get(thread as usize)
            .is_some_and(|commit| number < *commit)
    }

    // "Closed ones store their redo".
    fn redo(&self, number: u64) -> Option<Put>
        ensures { result ≡ redo_at self.now.words self.now.log.now self.now.last number }
    {
        match log_region::read(self.log, number, self.words)? {
            Record::UndoRedo {
                thread,
                word,
                redo,
                ..
            }
            | Record::Redo { thread, word, redo }
                if self.is_closed(thread, number) => {
                Some(Put {
                    at: word as usize,
                    value: redo,
                })
            }
            _ => None,
        }
    }

    // "Open undo+redo ones store their undo".
    fn undo(&self, number: u64) -> Option<Put>
        ensures { result ≡ undo_at self.now.words self.now.log.now self.now.last number }
    {
        match log_region::read(self.log, number, self.words)? {
            Record::UndoRedo {
                thread,
                word,
                undo,
                ..
            } if !self.is_closed(thread, number) => Some(Put {
                at: word as usize,
                value: undo,
            }),
            _ => None,
        }
    }

    // "Closed ones store their redo in log order, then open undo+redo ones store their undo in reverse log order", under
    // one supply. Hands back what is left of it.
    pub(crate) fn replay(&self, home: &mut [u64], supply: u64) -> u64
        requires { Scanned self.now.words self.now.log.now self.now }
        ensures value { result
            ≡ supply - length (recovery_writes (records (records_of self.now.words self.now.log.now))) }
        ensures home_after { home.new
            ≡ stored_under supply home.old (recovery_writes (records (records_of self.now.words self.now.log.now))) }
    {
        let redos = (self.head..self.tail).filter_map(|number| self.redo(number));
        let undos = (self.head..self.tail)
            .rev()
            .filter_map(|number| self.undo(number));
        store_each(home, redos.chain(undos), supply)
    }
}

// The stores made one after the other, as many as the supply allows. Hands back what is left of it.
fn store_each<I: Iterator<Item = Put> + Drop>(home: &mut [u64], puts: I, supply: u64) -> u64
    requires can { I.can_next puts }
    requires ends { IsFinite (I.remaining puts) }
    ensures { StoredEach I.next_gives puts supply home.old home.new result }
{
    let mut left = supply;
    for Put { at, value } in puts {
        left = log_region::store(home, at, value, left);
    }
    left
}
