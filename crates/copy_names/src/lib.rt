// The activation and the cell of a new name, from the name alone: each activation's first new name is noted, and these do not fall. The innermost
// activation is tried first and the program's next, since a name is most often one of theirs; the others are searched by halves.
#![tactic(auto)]

ghost use Rattle.std.specs.Prelude.{◌≡◌, ◌+◌, ◌-◌, ◌≤◌, ◌<◌, ◌^◌, get_or};
ghost use Rattle.copy_names.specs.Owner.{owner_in, cell_in, Sorted, Findable, Innermost};

use numbers::from_u32;

// The first new name of an activation.
pub fn first_of(firsts: &[u32; 256], activation: usize) -> usize
    requires { activation < 256 }
    ensures { (result ≡ get_or firsts.now activation 0) × (result < 2 ^ 32) }
{
    from_u32(firsts[activation])
}

// The activation below the innermost one that declares a name. It is found by hand: of 2 to 9 activations the library's `partition_point`,
// which asks once more at the end, takes a fifth more instructions.
fn outer_owner(firsts: &[u32; 256], live: usize, name: usize) -> usize
    requires { (live ≤ 255) × Sorted firsts.now live × (name < get_or firsts.now live 0) }
    ensures { (result ≡ owner_in firsts.now live name) × (result ≤ live) }
{
    let mut low = 0;
    let mut high = live;
    while 1 < high - low {
        let middle = (low + high) / 2;
        if first_of(firsts, middle) <= name {
            low = middle;
        } else {
            high = middle;
        }
    }
    low
}

// The cell of a name that an activation declares: its names have one cell after the other.
fn cell_in(firsts: &[u32; 256], starts: &[u16; 256], home: usize, name: usize) -> usize
    requires { (home ≤ 255) × (get_or firsts.now home 0 ≤ name) × (get_or starts.now home 0 + (name - get_or firsts.now home 0) < 8192) }
    ensures { result ≡ get_or starts.now home 0 + (name - get_or firsts.now home 0) }
{
    usize::from(starts[home]) + (name - first_of(firsts, home))
}

// The cell of an activation's first new name.
pub fn start_of(starts: &[u16; 256], activation: usize) -> usize
    requires { activation < 256 }
    ensures { result ≡ get_or starts.now activation 0 }
{
    usize::from(starts[activation])
}

// The cell of a name. The innermost activation's first new name and that name's cell are read once for all names of a statement.
pub fn cell_by(
    firsts: &[u32; 256],
    starts: &[u16; 256],
    live: usize,
    first: usize,
    start: usize,
    name: usize,
) -> usize
    requires innermost { Innermost firsts.now starts.now live first start }
    requires findable { Findable firsts.now starts.now live name }
    ensures { result ≡ cell_in firsts.now starts.now live name }
{
    if first <= name {
        return start + (name - first);
    }
    if name < first_of(firsts, 1) {
        return cell_in(firsts, starts, 0, name);
    }
    cell_in(firsts, starts, outer_owner(firsts, live, name), name)
}

pub fn cell_of(firsts: &[u32; 256], starts: &[u16; 256], live: usize, name: usize) -> usize
    requires { Findable firsts.now starts.now live name }
    ensures { result ≡ cell_in firsts.now starts.now live name }
{
    cell_by(
        firsts,
        starts,
        live,
        first_of(firsts, live),
        start_of(starts, live),
        name,
    )
}
