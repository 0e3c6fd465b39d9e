// The store, and readings, for programs in other languages: include/rukwetid.h declares them for C.
#![tactic(auto)]

mod readings;

ghost use Rattle.std.specs.Prelude.{◌≡◌};
ghost use Rattle.model.specs.Machine.{lost_machine};
ghost use Rattle.state.specs.View.{memory};
ghost use Rattle.runner.specs.Running.{script, run_of};
ghost use Rattle.exports.specs.Exported.{exported, export_of};

use machine::State;
pub use readings::{rukwetid_reading, rukwetid_reading_word};

// Runs a list of steps as `runner::run` does, from the lost state. Each slice is passed as a pointer and a length; no
// two may overlap.
#[unsafe(no_mangle)]
pub extern "C" fn rukwetid_run(
    home: &mut [u64],
    working: &mut [u64],
    log: &mut [u64],
    kinds: &[u64],
    threads: &[u64],
    places: &[u64],
    values: &[u64],
    supplies: &[u64],
    answers: &mut [u64],
    stores: &mut [u64],
) -> u64
    ensures { exported result home.new working.new log.new answers.new stores.new
        ≡ export_of (run_of (script kinds.now threads.now places.now values.now supplies.now)
        lost_machine (memory home.old working.old log.old)
        answers.old stores.old) }
{
    let ran = runner::run(
        State::lost(),
        home,
        working,
        log,
        kinds,
        threads,
        places,
        values,
        supplies,
        answers,
        stores,
    );
    match ran.answer {
        Ok(()) => 0,
        Err(refusal) => refusal.number(),
    }
}
