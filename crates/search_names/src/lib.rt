// Where a name lies, by the search: from an activation whose block does not introduce the name's number it goes on where that activation's record says.
#![tactic(auto)]

ghost use Rattle.std.specs.Prelude.{◌≡◌, ◌*◌, ◌<◌, ◌≤◌};
ghost use Rattle.search_names.specs.Seeking.{sought, first_at, Falls};

use layout::SHARE;
use numbers::from_u32;

// The activation that introduces a number, sought from an activation on. Each record says where the search goes on, so no range has them.
fn seek(blocks: &[u16; 256], froms: &[u16; 256], from: usize, number: usize) -> usize
    requires { Falls froms.now from }
    ensures { (result ≡ sought blocks.now froms.now from number) × (result ≤ from) }
{
    let mut k = from;
    while 0 < k {
        if usize::from(blocks[k]) == number / SHARE {
            return k;
        }
        k = usize::from(froms[k]);
    }
    0
}

// The first cell of the activation that declares the name whose word stands at a place.
pub fn first_cell(
    numbers: &[u32; 4096],
    blocks: &[u16; 256],
    froms: &[u16; 256],
    live: usize,
    place: usize,
) -> usize
    requires { Falls froms.now live × (place < 4096) }
    ensures { (result ≡ first_at numbers.now blocks.now froms.now live place) × (result ≤ 32 * live) }
{
    SHARE * seek(blocks, froms, live, from_u32(numbers[place]))
}

// The same, where the name is most often the innermost activation's own: it is asked before the loop.
pub fn near_cell(
    numbers: &[u32; 4096],
    blocks: &[u16; 256],
    froms: &[u16; 256],
    live: usize,
    place: usize,
) -> usize
    requires { Falls froms.now live × (place < 4096) }
    ensures { (result ≡ first_at numbers.now blocks.now froms.now live place) × (result ≤ 32 * live) }
{
    let number = from_u32(numbers[place]);
    if usize::from(blocks[live]) == number / SHARE {
        return SHARE * live;
    }
    SHARE * seek(blocks, froms, usize::from(froms[live]), number)
}
