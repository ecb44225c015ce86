// A declaration's own record: its second field, then 8 where its name is among those before it.
ghost use Rattle.std.specs.Prelude.{◌≡◌, ◌+◌, ◌≤◌, length};
ghost use Rattle.check_records.specs.Taking.{progress_of};
ghost use Rattle.check_names.specs.Naming.{names_at};
ghost use Rattle.check_bounds.specs.Marks.{decl_mark_of};
ghost use Rattle.check_bounds.specs.Judging.{ranged_of, headed};

use super::MOST_NAMES;
use check_marks::Mark;
use check_records::Reading;
use language::{Fault, Refusal};

// The second field: 4 for a label's index, 7 for a procedure's p.
fn ranged(mark: Mark, at: usize, next: usize, f1: usize, s: usize) -> Result<usize, Fault>
    ensures { result ≡ ranged_of (decl_mark_of mark) at next f1 s }
{
    match mark {
        Mark::LB => {
            if f1 == 0 {
                return Err(Fault {
                    cause: Refusal::FieldRange,
                    offset: at,
                });
            }
            if s < f1 {
                return Err(Fault {
                    cause: Refusal::FieldRange,
                    offset: at,
                });
            }
            Ok(next)
        }
        Mark::PR => {
            if MOST_NAMES < f1 {
                return Err(Fault {
                    cause: Refusal::TooManyNames,
                    offset: at,
                });
            }
            Ok(next)
        }
        _ => Ok(next),
    }
}

// The record read at an offset, in a block of s statements that has count names from a base on.
pub fn fit(
    names: &[u32],
    at: usize,
    reading: Reading,
    s: usize,
    base: usize,
    count: usize,
) -> Result<usize, Fault>
    requires { base + count ≤ length names.now }
    ensures { result ≡ progress_of (headed reading at s (names_at names.now base count)) }
{
    let Reading::Taken {
        mark,
        next,
        f0,
        f1,
        ..
    } = reading
    else {
        return check_records::onward(reading);
    };
    let ranged = ranged(mark, at, next, f1 as usize, s)?;
    if check_names::seen(names, base, count, f0) {
        return Err(Fault {
            cause: Refusal::NameTwice,
            offset: at,
        });
    }
    Ok(ranged)
}
