// Leaving and jumping, for engines that keep for each activation the place of its block and of its next statement, and no display.
#![tactic(auto)]

ghost use Rattle.std.specs.Prelude.{◌≡◌, ◌+◌, ◌-◌, ◌<◌, ◌≤◌, get_or, set};
ghost use Rattle.resolved.specs.Layout.{end_in};
ghost use Rattle.run_records.specs.Resumed.{now_at};

use layout::end_of;
use numbers::from_u16;
use run_state::Registers;
use run_words::code_at;

// An activation of the stack becomes the innermost one and goes on at a place.
fn resume(
    code: &[u32; 4096],
    blocks: &[u16; 256],
    here: Registers,
    home: usize,
    at: usize,
) -> Registers
    requires { (home < 256) × (get_or blocks.now home 0 + 1 < 4096) }
    ensures { result ≡ now_at code.now blocks.now here home at }
{
    Registers {
        live: home,
        at,
        end: end_of(code_at(code, from_u16(blocks[home]) + 1)),
        ..here
    }
}

// The activation below goes on.
pub fn leave(
    code: &[u32; 4096],
    blocks: &[u16; 256],
    nexts: &[u16; 256],
    here: Registers,
) -> Registers
    requires { (1 ≤ here.live) × (here.live ≤ 256) × (get_or blocks.now (here.live - 1) 0 + 1 < 4096) }
    ensures { result ≡ now_at code.now blocks.now here (here.live - 1) (get_or nexts.now (here.live - 1) 0) }
{
    let live = here.live - 1;
    resume(code, blocks, here, live, from_u16(nexts[live]))
}

// An activation that is live becomes the innermost one.
pub fn jump(
    code: &[u32; 4096],
    blocks: &[u16; 256],
    here: Registers,
    home: usize,
    at: usize,
) -> Registers
    requires { (home < 256) × (get_or blocks.now home 0 + 1 < 4096) × (home ≡ here.live → here.end ≡ end_in (get_or code.now (get_or blocks.now home 0 + 1) 0)) }
    ensures { result ≡ now_at code.now blocks.now here home at }
{
    if home == here.live {
        return Registers {
            live: home,
            at,
            ..here
        };
    }
    resume(code, blocks, here, home, at)
}

// At a run's end the place of the innermost activation's next statement is put with the others'.
pub fn set_next(nexts: &mut [u16; 256], live: usize, at: usize)
    requires { (live < 256) × (at < 65536) }
    ensures { nexts.new ≡ set nexts.old live at }
{
    nexts[live] = at as u16;
}
