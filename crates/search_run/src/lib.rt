// The search engine's run.
#![tactic(auto)]

pub use run::run_program;
pub use state::start_state;

pub mod run;
pub mod state;
