// Entering, leaving and jumping: the activations' records and the display are put right. Nothing is copied aside: the display is written
// along the links of the activation that becomes the innermost one, until an entry fits.
#![tactic(auto)]

ghost use Rattle.std.specs.Prelude.{◌≡◌, suc, ◌+◌, ◌<◌, length, get_or, set};
ghost use Rattle.resolved.specs.Resolved.{level_in};
ghost use Rattle.arrays.specs.Displays.{ShowsFrom};
ghost use Rattle.display_moves.specs.Running.{Restorable, Linkable, LeaveReady, JumpReady, EnterReady, Succeeds, HeadThere, BoundsThere, Placed};
ghost use Rattle.display_moves.specs.Moving.{level_at, end_at};

use layout::{SHARE, cell_at, end_of, first_of, formals_of, level_of, names_of};
use numbers::from_u16;
use run_state::Registers;
use run_words::{clear, code_at};

// The level of the block at a place.
fn level_at(code: &[u32; 4096], block: usize) -> usize
    requires { block < 4096 }
    ensures { (result ≡ level_in (get_or code.now block 0)) × (result < 256) }
{
    level_of(code_at(code, block))
}

fn activation_level(code: &[u32; 4096], blocks: &[u16; 256], activation: usize) -> usize
    requires { HeadThere blocks.now activation }
    ensures { (result ≡ level_at code.now blocks.now activation) × (result < 256) }
{
    level_at(code, from_u16(blocks[activation]))
}

// Where the text of an activation's block ends.
fn activation_end(code: &[u32; 4096], blocks: &[u16; 256], activation: usize) -> usize
    requires { BoundsThere blocks.now activation }
    ensures { result ≡ end_at code.now blocks.now activation }
{
    end_of(code_at(code, from_u16(blocks[activation]) + 1))
}

// The display becomes that of an activation of a level; the entries up to `sure` are those of the innermost activation before. By `while`: each link leads to
// the activation a level below, so that the two go down together, and a range taken backwards would say no more.
fn restore(
    links: &[u16; 256],
    display: &mut [u16; 256],
    activation: usize,
    level: usize,
    sure: usize,
)
    requires { Restorable links.now display.old activation level sure }
    ensures shows_from { (w : Restorable links.now display.old activation level sure) → ShowsFrom w.frames (suc activation) display.new }
    ensures display_len_unchanged { length display.new ≡ length display.old }
{
    let mut a = activation;
    let mut l = level;
    while 0 < l {
        if l <= sure {
            if from_u16(display[l]) == SHARE * a {
                return;
            }
        }
        display[l] = (SHARE * a) as u16;
        a = from_u16(links[a]);
        l -= 1;
    }
}

// The activation below goes on.
pub fn leave(
    code: &[u32; 4096],
    blocks: &[u16; 256],
    nexts: &[u16; 256],
    links: &[u16; 256],
    display: &mut [u16; 256],
    here: Registers,
) -> Registers
    requires { LeaveReady code.now blocks.now nexts.now links.now display.old here }
    ensures { (w : LeaveReady code.now blocks.now nexts.now links.now display.old here) → Succeeds w.running w.cells blocks.now nexts.now links.now display.new w.table result }
{
    let above = here.live;
    let live = above - 1;
    let sure = activation_level(code, blocks, above);
    let level = activation_level(code, blocks, live);
    restore(links, display, live, level, sure);
    Registers {
        live,
        at: from_u16(nexts[live]),
        end: activation_end(code, blocks, live),
        ..here
    }
}

// An activation that is live becomes the innermost one.
pub fn jump(
    code: &[u32; 4096],
    blocks: &[u16; 256],
    links: &[u16; 256],
    display: &mut [u16; 256],
    here: Registers,
    home: usize,
    at: usize,
) -> Registers
    requires { JumpReady code.now blocks.now links.now display.old here home at }
    ensures { (w : JumpReady code.now blocks.now links.now display.old here home at) → Succeeds w.running w.cells blocks.now w.nexts links.now display.new w.table result }
{
    let live = here.live;
    if home == live {
        return Registers { at, ..here };
    }
    let sure = activation_level(code, blocks, live);
    let level = activation_level(code, blocks, home);
    restore(links, display, home, level, sure);
    Registers {
        live: home,
        at,
        end: activation_end(code, blocks, home),
        ..here
    }
}

// The display becomes that of the activation to which a new one is linked.
fn link_to(
    code: &[u32; 4096],
    blocks: &[u16; 256],
    links: &[u16; 256],
    display: &mut [u16; 256],
    live: usize,
    link: usize,
)
    requires { Linkable code.now blocks.now links.now display.old live link }
    ensures shows_from { (w : Linkable code.now blocks.now links.now display.old live link) → ShowsFrom w.running.standing.stack.frames (suc link) display.new }
    ensures display_len_unchanged { length display.new ≡ length display.old }
{
    if link != live {
        let sure = activation_level(code, blocks, live);
        let level = activation_level(code, blocks, link);
        restore(links, display, link, level, sure);
    }
}

// A new activation of the block at a place. The arguments stand in its first cells.
pub fn enter(
    code: &[u32; 4096],
    cells: &mut [i32; 8224],
    blocks: &mut [u16; 256],
    nexts: &mut [u16; 256],
    links: &mut [u16; 256],
    display: &mut [u16; 256],
    here: Registers,
    body: usize,
    link: usize,
    back: usize,
) -> Registers
    requires { EnterReady code.now cells.old blocks.old nexts.old links.old display.old here body link back }
    ensures { (w : EnterReady code.now cells.old blocks.old nexts.old links.old display.old here body link back) → Succeeds w.running cells.new blocks.new nexts.new links.new display.new w.table result }
{
    let live = here.live;
    let head = code_at(code, body);
    let bounds = code_at(code, body + 1);
    nexts[live] = back as u16;
    link_to(code, blocks, links, display, live, link);
    let fresh = live + 1;
    blocks[fresh] = body as u16;
    links[fresh] = link as u16;
    display[level_of(head)] = (SHARE * fresh) as u16;
    clear(
        cells,
        cell_at(fresh, formals_of(head)),
        cell_at(fresh, names_of(head)),
    );
    Registers {
        live: fresh,
        at: first_of(bounds),
        end: end_of(bounds),
        ..here
    }
}

// At a run's end the place of the innermost activation's next statement is put with the others'. A statement that has a cause to stop is not
// done: it is the next one.
pub fn note_place(nexts: &mut [u16; 256], here: Registers)
    requires { Placed here }
    ensures { nexts.new ≡ set nexts.old here.live here.at }
{
    let live = here.live;
    nexts[live] = here.at as u16;
}
