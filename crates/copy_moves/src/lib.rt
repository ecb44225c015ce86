// The start of the copying engine, and the looked-up name.
#![tactic(auto)]

ghost use Rattle.std.specs.Prelude.{◌≡◌};
ghost use Rattle.copy_moves.specs.Begun.{Beginnable, BegunIn};
ghost use Rattle.copy_moves.specs.Looked.{Lookable, looked_up};

use copy_names::cell_of;
use copy_texts::{copy_text, fill, renew};
use layout::{end_of, first_of, names_of};
use numbers::from_u32;
use run_sheet::designator_of;
use run_state::Registers;
use run_words::code_at;

// The designator of the looked-up name, from what it reads as in the innermost activation; 0 where it is not visible.
pub fn looked_up(firsts: &[u32; 256], starts: &[u16; 256], looked: &[u32; 256], live: usize) -> u32
    requires { Lookable firsts.now starts.now looked.now live }
    ensures { result ≡ looked_up firsts.now starts.now looked.now live }
{
    let name = from_u32(looked[live]);
    if name == 0 {
        return 0;
    }
    designator_of(cell_of(firsts, starts, live, name))
}

// The program's activation: its text is the script itself, with new names for its own. Whatever the area held makes no difference.
pub fn begin(
    script: &[u8],
    code: &[u32; 4096],
    names: &[u32; 4096],
    area: &mut [u32],
    firsts: &mut [u32; 256],
    targets: &mut [u16; 8224],
    looked: &mut [u32; 256],
    pairs: usize,
) -> Registers
    requires { Beginnable script.now code.now names.now area.old }
    ensures { BegunIn script.now code.now names.now area.old firsts.old targets.old
        looked.old pairs area.new firsts.new targets.new looked.new result }
{
    let head = code_at(code, 0);
    let bounds = code_at(code, 1);
    let end = end_of(bounds);
    fill(script, area);
    firsts[0] = 65536;
    looked[0] = renew(area, 0, 1, 65536, code_at(code, 2), 0);
    copy_text(area, names, targets, 0, 0, 0, 1, 65536, 0, 0, end);
    Registers {
        live: 0,
        at: first_of(bounds),
        end,
        pairs,
        level: 0,
        fresh: 65536 + names_of(head),
    }
}
