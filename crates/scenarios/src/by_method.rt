// Makes a step by the state's own method for it.
use machine::{Answer, State};
use parts::Step;

// Begin is lent nothing: the count left is the supply as it was.
pub(crate) fn step_by_method(
    state: State,
    step: Step,
    home: &mut [u64],
    working: &mut [u64],
    log: &mut [u64],
    supply: u64,
) -> Answer {
    match step {
        Step::Begin { thread } => {
            let begun = state.begin(thread);
            Answer {
                answer: begun.answer,
                left: supply,
                state: begun.state,
            }
        }
        Step::Store {
            thread,
            word,
            value,
        } => state.store(home, working, log, supply, thread, word, value),
        Step::LogUndo => state.log_undo(home, working, log, supply),
        Step::LogRedo => state.log_redo(home, working, log, supply),
        Step::Evict { line } => state.evict(home, working, log, supply, line),
        Step::WriteBack { line } => state.write_back(home, working, log, supply, line),
        Step::Commit { thread } => state.commit(home, working, log, supply, thread),
        Step::DeleteOldest => state.delete_oldest(home, working, log, supply),
        Step::Recover => State::recover(home, working, log, supply),
    }
}
