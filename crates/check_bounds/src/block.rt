// A block's own record, BK: 6 where no level is left for it, then 7 for too many names.
ghost use Rattle.std.specs.Prelude.{◌≡◌};
ghost use Rattle.check_bounds.specs.Judging.{opened_of};

use super::MOST_NAMES;
use language::{Fault, Refusal};

// d declarations are to come beside the names held for formals.
pub fn opened(at: usize, next: usize, d: usize, held: usize, left: usize) -> Result<usize, Fault>
    ensures { result ≡ opened_of left at next d held }
{
    if left == 0 {
        return Err(Fault {
            cause: Refusal::NestingDepth,
            offset: at,
        });
    }
    if MOST_NAMES < d {
        return Err(Fault {
            cause: Refusal::TooManyNames,
            offset: at,
        });
    }
    if MOST_NAMES - d < held {
        return Err(Fault {
            cause: Refusal::TooManyNames,
            offset: at,
        });
    }
    Ok(next)
}
