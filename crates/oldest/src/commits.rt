// Whether a thread has a commit after the oldest record of the log.
ghost use Rattle.std.specs.Prelude.{◌≡◌, ◌+◌, ◌-◌};
ghost use Rattle.log_region.specs.Region.{read_from};
ghost use Rattle.model.specs.Readings.{records, closed};
ghost use Rattle.model.specs.Readings.{closes as closes_thread};

use log_region::{Record, read};
use state::Machine;

// The record is a commit of the thread; a bad one is none.
fn closes(reading: Option<Record>, thread: u8) -> bool
    ensures { result ≡ closes_thread thread reading }
{
    match reading {
        Some(Record::Commit { thread: of }) => of == thread,
        _ => false,
    }
}

// Whether the thread has a commit among the records after the oldest.
pub(crate) fn has_later_commit(state: &Machine, log: &[u64], thread: u8) -> bool
    ensures { let next = state.now.head + 1 in
        result ≡ closed thread (records (read_from (state.now.tail - next) state.now.words log.now next)) }
{
    (state.head..state.tail)
        .skip(1)
        .any(|number| closes(read(log, number, state.words), thread))
}
