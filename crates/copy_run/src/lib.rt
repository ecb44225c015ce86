// The copying engine.
#![tactic(auto)]

pub mod run;

pub use run::run_program;
