// The fields of a copied text, and the cells of the names in them.
ghost use Rattle.std.specs.Prelude.{◌≡◌, ◌<◌, ◌^◌, length, get_or};
ghost use Rattle.copy_names.specs.Owner.{Innermost};
ghost use Rattle.copy_arms.specs.Parts.{cell_at, NameAt};

use copy_names::{cell_by, cell_of};
use numbers::{from_u16, from_u32};

// The word at a place of the area.
pub fn field(area: &[u32], place: usize) -> usize
    requires { place < length area.now }
    ensures { (result ≡ get_or area.now place 0) × (result < 2 ^ 32) }
{
    from_u32(area[place])
}

// The cell of the name there, with the innermost activation's first new name and that name's cell.
pub fn named_by(
    area: &[u32],
    firsts: &[u32; 256],
    starts: &[u16; 256],
    live: usize,
    first: usize,
    start: usize,
    place: usize,
) -> usize
    requires innermost { Innermost firsts.now starts.now live first start }
    requires name_at { NameAt area.now firsts.now starts.now live place }
    ensures { result ≡ cell_at area.now firsts.now starts.now live place }
{
    cell_by(firsts, starts, live, first, start, field(area, place))
}

pub fn named(
    area: &[u32],
    firsts: &[u32; 256],
    starts: &[u16; 256],
    live: usize,
    place: usize,
) -> usize
    requires { NameAt area.now firsts.now starts.now live place }
    ensures { result ≡ cell_at area.now firsts.now starts.now live place }
{
    cell_of(firsts, starts, live, field(area, place))
}

// What the label or procedure in a cell leads to.
pub fn target(targets: &[u16; 8224], cell: usize) -> usize
    requires { cell < 8192 }
    ensures { (result ≡ get_or targets.now cell 0) × (result < 65536) }
{
    from_u16(targets[cell])
}
