// The methods of the state.
ghost use Rattle.std.specs.Prelude.{◌≡◌, ℕ, length, OnOk, OnErr};
ghost use Rattle.log_region.specs.Region.{slots_of};
ghost use Rattle.model.specs.Machine.{Memory, lost_machine};
ghost use Rattle.model.specs.Step.{begin, store, log_undo, log_redo, evict, write_back};
ghost use Rattle.model.specs.Step.{commit, delete_oldest, recover, stepped};
ghost use Rattle.state.specs.View.{memory};
ghost use Rattle.machine.specs.Answers.{view, shown, shown_begun, opening};
ghost use Rattle.machine.specs.Answers.{answer_of, lost_state, fresh_state, taken_state, HandedBack};

use crate::{Answer, Begun, State};
use parts::Step;
use state::{Machine, Made};

impl State {
    // "dark": the state that was lost
    pub fn lost() -> State
        ensures { result ≡ lost_state }
    {
        State {
            machine: Machine::lost(),
        }
    }

    // Makes a step given as a value, in place.
    pub fn make(
        &mut self,
        step: Step,
        home: &mut [u64],
        working: &mut [u64],
        log: &mut [u64],
        supply: u64,
    ) -> Made
        ensures log_after { shown (answer_of result self.new) home.new working.new log.new
            ≡ stepped step supply (view self.old) (memory home.old working.old log.old) }
        ensures handed_back { HandedBack (taken_state step self.old) (answer_of result self.new) }
    {
        steps::perform(&mut self.machine, step, home, working, log, supply)
    }

    // Makes a step given as a value.
    pub fn step(
        mut self,
        step: Step,
        home: &mut [u64],
        working: &mut [u64],
        log: &mut [u64],
        supply: u64,
    ) -> Answer
        ensures log_after { shown result home.new working.new log.new
            ≡ stepped step supply (view self) (memory home.old working.old log.old) }
        ensures handed_back { HandedBack (taken_state step self) result }
    {
        let Made { answer, left } = self.make(step, home, working, log, supply);
        Answer {
            answer,
            left,
            state: self,
        }
    }

    // Lent no buffers and no count: what it hands back is the same whatever these are.
    pub fn begin(self, thread: u64) -> Begun
        ensures by_index { (c : ℕ) (mem : Memory)
            → shown_begun result ≡ opening (stepped (begin thread) c (view self) mem) }
        ensures kept { OnErr result.answer (result.state ≡ self) }
    {
        let mut home = [0; 0];
        let mut working = [0; 0];
        let mut log = [0; 0];
        let Answer { answer, state, .. } = self.step(
            Step::Begin { thread },
            &mut home,
            &mut working,
            &mut log,
            0,
        );
        Begun { answer, state }
    }

    // The value becomes the working one, under a claim of the line.
    pub fn store(
        self,
        home: &mut [u64],
        working: &mut [u64],
        log: &mut [u64],
        supply: u64,
        thread: u64,
        word: u64,
        value: u64,
    ) -> Answer
        ensures log_after { shown result home.new working.new log.new
            ≡ stepped (store thread word value) supply (view self) (memory home.old working.old
            log.old) }
        ensures handed_back { HandedBack self result }
    {
        self.step(
            Step::Store {
                thread,
                word,
                value,
            },
            home,
            working,
            log,
            supply,
        )
    }

    pub fn log_undo(
        self,
        home: &mut [u64],
        working: &mut [u64],
        log: &mut [u64],
        supply: u64,
    ) -> Answer
        ensures log_after { shown result home.new working.new log.new
            ≡ stepped log_undo supply (view self) (memory home.old working.old log.old) }
        ensures handed_back { HandedBack self result }
    {
        self.step(Step::LogUndo, home, working, log, supply)
    }

    pub fn log_redo(
        self,
        home: &mut [u64],
        working: &mut [u64],
        log: &mut [u64],
        supply: u64,
    ) -> Answer
        ensures log_after { shown result home.new working.new log.new
            ≡ stepped log_redo supply (view self) (memory home.old working.old log.old) }
        ensures handed_back { HandedBack self result }
    {
        self.step(Step::LogRedo, home, working, log, supply)
    }

    // "Set down a line"
    pub fn evict(
        self,
        home: &mut [u64],
        working: &mut [u64],
        log: &mut [u64],
        supply: u64,
        line: u64,
    ) -> Answer
        ensures log_after { shown result home.new working.new log.new
            ≡ stepped (evict line) supply (view self) (memory home.old working.old log.old) }
        ensures handed_back { HandedBack self result }
    {
        self.step(Step::Evict { line }, home, working, log, supply)
    }

    // "Write home a line"
    pub fn write_back(
        self,
        home: &mut [u64],
        working: &mut [u64],
        log: &mut [u64],
        supply: u64,
        line: u64,
    ) -> Answer
        ensures log_after { shown result home.new working.new log.new
            ≡ stepped (write_back line) supply (view self) (memory home.old working.old log.old) }
        ensures handed_back { HandedBack self result }
    {
        self.step(Step::WriteBack { line }, home, working, log, supply)
    }

    pub fn commit(
        self,
        home: &mut [u64],
        working: &mut [u64],
        log: &mut [u64],
        supply: u64,
        thread: u64,
    ) -> Answer
        ensures log_after { shown result home.new working.new log.new
            ≡ stepped (commit thread) supply (view self) (memory home.old working.old log.old) }
        ensures handed_back { HandedBack self result }
    {
        self.step(Step::Commit { thread }, home, working, log, supply)
    }

    // "Delete"
    pub fn delete_oldest(
        self,
        home: &mut [u64],
        working: &mut [u64],
        log: &mut [u64],
        supply: u64,
    ) -> Answer
        ensures log_after { shown result home.new working.new log.new
            ≡ stepped delete_oldest supply (view self) (memory home.old working.old log.old) }
        ensures handed_back { HandedBack self result }
    {
        self.step(Step::DeleteOldest, home, working, log, supply)
    }

    // Takes no state. A recovery that is refused hands back the state that was lost.
    pub fn recover(home: &mut [u64], working: &mut [u64], log: &mut [u64], supply: u64) -> Answer
        ensures log_after { shown result home.new working.new log.new
            ≡ stepped recover supply lost_machine (memory home.old working.old log.old) }
        ensures handed_back { HandedBack lost_state result }
        ensures state_value { OnOk result.answer
            (result.state ≡ fresh_state (length home.old) (slots_of log.old) result.state.machine.tail) }
    {
        let made = recovery::recover(home, working, log, supply);
        Answer {
            answer: made.answer,
            left: made.left,
            state: State {
                machine: made.state,
            },
        }
    }
}
