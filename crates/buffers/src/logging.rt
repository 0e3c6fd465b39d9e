// Entries are logged: their records are appended.
ghost use Rattle.std.specs.Prelude.{◌≡◌, map};
ghost use Rattle.std.specs.Fn.{FnReturnsAt};
ghost use Rattle.log_region.specs.declared.Record.{Record};
ghost use Rattle.log_region.specs.Appended.{Appended};
ghost use Rattle.parts.specs.declared.Entry.{Entry};
ghost use Rattle.model.specs.Steps.{undo_redo_record, redo_record};

use log_region::{NUMBERS, Record};
use parts::Entry;

fn undo_redo_record(entry: &Entry) -> Record
    ensures { result ≡ undo_redo_record entry.now }
{
    Record::UndoRedo {
        thread: entry.thread,
        word: entry.word,
        undo: entry.undo,
        redo: entry.redo,
    }
}

fn redo_record(entry: &Entry) -> Record
    ensures { result ≡ redo_record entry.now }
{
    Record::Redo {
        thread: entry.thread,
        word: entry.word,
        redo: entry.redo,
    }
}

// Appends the record of each entry, the first as record `number`. Hands back what is left of the supply.
fn append_entries<F: Fn(&Entry) -> Record>(
    log: &mut [u64],
    number: u64,
    entries: &[Entry],
    record_of: F,
    supply: u64,
) -> u64
    requires { F.IsAlwaysCallable record_of }
    ensures { (f : Entry → Record) → ((x : Entry) (r : Record) → FnReturnsAt F.Fn record_of x r → r ≡ f x)
        → Appended supply log.old number (map f entries.now) log.new result }
{
    if NUMBERS <= number {
        return supply;
    }
    let mut left = supply;
    let mut next = number;
    for entry in entries {
        left = log_region::append(log, next, record_of(entry), left);
        next += 1;
    }
    left
}

// Appends the records of undo+redo entries.
pub fn append_undos(log: &mut [u64], number: u64, entries: &[Entry], supply: u64) -> u64
    ensures { Appended supply log.old number (map undo_redo_record entries.now) log.new result }
{
    append_entries(log, number, entries, undo_redo_record, supply)
}

// Appends the records of redo entries.
pub fn append_redos(log: &mut [u64], number: u64, entries: &[Entry], supply: u64) -> u64
    ensures { Appended supply log.old number (map redo_record entries.now) log.new result }
{
    append_entries(log, number, entries, redo_record, supply)
}
