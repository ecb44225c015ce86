// AD, RM and QY, each with its mark at `place` of the area and its operation at `at` of the resolved script. AD and RM are instances of one function, each
// called once: a function that is called twice is not compiled in, and the counting loop took a fifth more instructions.
ghost use Rattle.std.specs.Prelude.{◌≡◌, ◌+◌, ◌≤◌, if◌then◌else◌};
ghost use Rattle.copy_arms.specs.Parts.{cell_at, NameAt};

use copy_arms::named;
use run_moves::{Ask, Move};

pub fn do_change<const ADDS: bool>(
    area: &[u32],
    firsts: &[u32; 256],
    starts: &[u16; 256],
    live: usize,
    place: usize,
    at: usize,
) -> Move
    requires at_bound { at + 3 ≤ 4096 }
    requires name_at { NameAt area.now firsts.now starts.now live (place + 1) }
    requires name_at_2 { NameAt area.now firsts.now starts.now live (place + 2) }
    ensures { result ≡ Move.Table (at + 3) (cell_at area.now firsts.now starts.now live (place + 1)) (cell_at area.now firsts.now starts.now live (place + 2)) 0 (if ADDS then Ask.Add else Ask.Remove) }
{
    let group = named(area, firsts, starts, live, place + 1);
    let member = named(area, firsts, starts, live, place + 2);
    let ask = if ADDS { Ask::Add } else { Ask::Remove };
    Move::Table(at + 3, group, member, 0, ask)
}

pub fn do_query(
    area: &[u32],
    firsts: &[u32; 256],
    starts: &[u16; 256],
    live: usize,
    place: usize,
    at: usize,
) -> Move
    requires at_bound { at + 4 ≤ 4096 }
    requires name_at { NameAt area.now firsts.now starts.now live (place + 1) }
    requires name_at_2 { NameAt area.now firsts.now starts.now live (place + 2) }
    requires name_at_3 { NameAt area.now firsts.now starts.now live (place + 3) }
    ensures { result ≡ Move.Table (at + 4) (cell_at area.now firsts.now starts.now live (place + 2)) (cell_at area.now firsts.now starts.now live (place + 3)) (cell_at area.now firsts.now starts.now live (place + 1)) Ask.Query }
{
    let to = named(area, firsts, starts, live, place + 1);
    let group = named(area, firsts, starts, live, place + 2);
    let member = named(area, firsts, starts, live, place + 3);
    Move::Table(at + 4, group, member, to, Ask::Query)
}
