//! The phases of a script on threads. In each phase every processor is a worker, which does its own statements in their
//! order; a phase begins when all workers of the one before have ended.
#![tactic(auto)]

mod alone;
mod caller;
mod cpu;
mod ended;
mod jobs;
mod placing;
mod run;
mod worker;

pub use caller::Caller;
pub use ended::EndedRun;
pub use run::run_phases;
pub use worker::Work;
