// The statements of the resolved script, each with the first cells of the activations that declare its names already found: whoever found them has its own
// way.
#![tactic(auto)]

pub use arms::{
    do_add, do_arithmetic_formal, do_branch, do_branch_formal, do_call, do_call_formal, do_change,
    do_compare, do_constant, do_constant_formal, do_goto, do_goto_formal, do_query, do_subtract,
};

mod arms;
mod names;
