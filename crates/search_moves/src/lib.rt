// Entering, of the search engine. Leaving and jumping are those of `run_records`.
#![tactic(auto)]

ghost use Rattle.search_moves.specs.Entry.{Enterable, EnteredIn};

use layout::{cell_at, end_of, first_of, formals_of, names_of};
use run_state::Registers;
use run_words::{clear, code_at};

// A new activation of the block at a place, from which the search goes on at `from`. The arguments stand in its first cells, and their passers beside them.
pub fn enter(
    code: &[u32; 4096],
    cells: &mut [i32; 8224],
    blocks: &mut [u16; 256],
    nexts: &mut [u16; 256],
    froms: &mut [u16; 256],
    here: Registers,
    body: usize,
    from: usize,
    back: usize,
) -> Registers
    requires { Enterable code.now here body from back }
    ensures { EnteredIn code.now here body from back cells.old blocks.old nexts.old froms.old
        cells.new blocks.new nexts.new froms.new result }
{
    let live = here.live;
    let head = code_at(code, body);
    let bounds = code_at(code, body + 1);
    nexts[live] = back as u16;
    let fresh = live + 1;
    blocks[fresh] = body as u16;
    froms[fresh] = from as u16;
    clear(
        cells,
        cell_at(fresh, formals_of(head)),
        cell_at(fresh, names_of(head)),
    );
    Registers {
        live: fresh,
        at: first_of(bounds),
        end: end_of(bounds),
        ..here
    }
}
