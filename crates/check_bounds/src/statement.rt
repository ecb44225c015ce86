// A statement's own record, where it is no BK: 4 for AR's operation and for CL's a, which goes before 2 for its argument names.
ghost use Rattle.std.specs.Prelude.{◌≡◌, ◌≤◌, length};
ghost use Rattle.check_records.specs.Taking.{unread};
ghost use Rattle.check_bounds.specs.Marks.{stmt_mark_of};
ghost use Rattle.check_bounds.specs.Judging.{action_of};

use super::MOST_NAMES;
use check_marks::Mark;
use language::{Fault, Refusal};

// Operations are numbered from 0.
const LAST_OPERATION: usize = 2;

pub fn action(script: &[u8], mark: Mark, at: usize, next: usize, f1: usize) -> Result<usize, Fault>
    requires { next ≤ length script.now }
    ensures { result ≡ action_of (stmt_mark_of mark) at f1 next (unread script.now next) }
{
    match mark {
        Mark::CL => {
            if MOST_NAMES < f1 {
                return Err(Fault {
                    cause: Refusal::FieldRange,
                    offset: at,
                });
            }
            check_readers::pass_fields(script, at, next, f1)
        }
        Mark::AR => {
            if LAST_OPERATION < f1 {
                return Err(Fault {
                    cause: Refusal::FieldRange,
                    offset: at,
                });
            }
            Ok(next)
        }
        _ => Ok(next),
    }
}
