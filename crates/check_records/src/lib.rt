// Reading the records of a script: a mark that is fit for its place, and as many fields as its row of the table of marks says.
#![tactic(auto)]

ghost use Rattle.std.specs.Prelude.{◌≡◌};
ghost use Rattle.check_records.specs.Taking.{progress_of};

use check_marks::Mark;
use language::{Fault, Refusal};

mod fields;
mod record;

pub use fields::fields_from;
pub use record::{block_at, declaration_at, formal_at, statement_at};

// A record with its fields, 0 past its count, and where the next one begins; or the refusal with its offset. An enum of its own: document 01
// asks by name that each reading of a record be taken apart by `let .. else`.
#[derive(Clone, Copy)]
pub enum Reading {
    Taken {
        mark: Mark,
        next: usize,
        f0: u32,
        f1: u32,
        f2: u32,
        f3: u32,
    },
    Refused(Refusal, usize),
}

// Where a reading goes on: where the next record begins, or the refusal.
pub fn onward(r: Reading) -> Result<usize, Fault>
    ensures { result ≡ progress_of r }
{
    match r {
        Reading::Taken { next, .. } => Ok(next),
        Reading::Refused(cause, offset) => Err(Fault { cause, offset }),
    }
}
