// One record judged by itself, once it has been read: what the block around it says of it is handed in.
#![tactic(auto)]

pub mod block;
pub mod declaration;
pub mod statement;

// What a block may name, its formals among them; a call has no more arguments.
pub const MOST_NAMES: usize = 32;
