// The nine steps of document 01, as functions of a state that they change in place. Each ends as the model's definition
// of the step does.
#![tactic(auto)]

mod beginning;
mod committing;
mod deleting;
mod evicting;
mod log_oldest;
mod logged;
mod refusals;
mod stepping;
mod storing;
mod writing_back;

pub use stepping::perform;
