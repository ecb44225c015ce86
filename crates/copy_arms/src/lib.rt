// The statements that leave the membership table alone, a function for each, read from the copy of the innermost activation.
#![tactic(auto)]

mod arms;
mod calling;
mod fields;

pub use arms::{do_arithmetic, do_branch, do_constant, do_goto};
pub use calling::do_call;
pub use fields::{field, named};
