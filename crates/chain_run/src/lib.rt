// The static-chain engine: a name is found by following the links of the activation records, which lie in a lent slice.
#![tactic(auto)]

pub use run::run_program;
pub use sheet::write_sheet;

pub mod run;
pub mod sheet;
