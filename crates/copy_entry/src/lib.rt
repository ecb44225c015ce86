// Entering a block, of the copying engine: its text is copied anew into the area, and no copy is used twice.
#![tactic(auto)]

ghost use Rattle.std.specs.Prelude.{◌+◌, ◌<◌, ◌≤◌};
ghost use Rattle.copy_entry.specs.Anew.{Enterable, Noted, NamesNoted, AnewIn};

use copy_texts::{copy_text, renew};
use layout::{SHARE, cell_at, end_of, first_of, formals_of, level_of, names_of};
use run_state::Registers;
use run_words::{clear, code_at};

// What is noted of a new activation: its block, the activation that encloses it, and where the activation below goes on. The links are for the
// sheet alone, and no name is found by them.
fn note(
    blocks: &mut [u16; 256],
    nexts: &mut [u16; 256],
    links: &mut [u16; 256],
    here: Registers,
    body: usize,
    link: usize,
    back: usize,
)
    requires { (here.live + 1 < 256) × (body < 65536) × (link < 65536) × (back < 65536) }
    ensures { Noted blocks.old nexts.old links.old here body link back
        blocks.new nexts.new links.new }
{
    let below = here.live;
    let live = below + 1;
    nexts[below] = back as u16;
    blocks[live] = body as u16;
    links[live] = link as u16;
}

// Of its new names the first, and that name's cell.
fn note_names(firsts: &mut [u32; 256], starts: &mut [u16; 256], here: Registers, formals: usize)
    requires { (here.live + 1 < 256) × (formals ≤ 32) × (here.fresh < 4294967296) }
    ensures { NamesNoted firsts.old starts.old here formals firsts.new starts.new }
{
    let live = here.live + 1;
    firsts[live] = here.fresh as u32;
    starts[live] = cell_at(live, formals) as u16;
}

// A new activation of the block at a place, whose text is copied from the activation `link`. The arguments' words stand in its first cells, and
// their names after the CL.
pub fn enter(
    code: &[u32; 4096],
    names: &[u32; 4096],
    cells: &mut [i32; 8224],
    area: &mut [u32],
    width: usize,
    blocks: &mut [u16; 256],
    nexts: &mut [u16; 256],
    links: &mut [u16; 256],
    firsts: &mut [u32; 256],
    starts: &mut [u16; 256],
    targets: &mut [u16; 8224],
    looked: &mut [u32; 256],
    here: Registers,
    body: usize,
    link: usize,
    back: usize,
) -> Registers
    requires { Enterable code.now names.now area.old width here body link back }
    ensures { AnewIn code.now names.now width here body link back cells.old area.old
        blocks.old nexts.old links.old firsts.old starts.old targets.old looked.old
        cells.new area.new blocks.new nexts.new links.new firsts.new starts.new
        targets.new looked.new result }
{
    let head = code_at(code, body);
    let bounds = code_at(code, body + 1);
    let word = code_at(code, body + 2);
    let count = names_of(head);
    let formals = formals_of(head);
    let level = level_of(head);
    let below = here.live;
    let live = below + 1;
    let given = below * width + (here.at + 3);
    let first = here.fresh - formals;
    let fresh = first + count;
    note(blocks, nexts, links, here, body, link, back);
    note_names(firsts, starts, here, formals);
    looked[live] = renew(area, given, level, first, word, looked[link]);
    let lowest = SHARE * live;
    let end = end_of(bounds);
    copy_text(
        area,
        names,
        targets,
        link * width,
        live * width,
        given,
        level,
        first,
        lowest,
        body,
        end,
    );
    clear(cells, lowest + formals, lowest + count);
    Registers {
        live,
        at: first_of(bounds),
        end,
        fresh,
        ..here
    }
}
