// Where a run stands between two steps, what a step comes to and how a run has ended: the same for every engine.
#![tactic(auto)]

ghost use Rattle.std.specs.Prelude.{◌≡◌, ◌<◌, ◌≤◌};
ghost use Rattle.run_state.specs.Halts.{finished_after, spent_after, stopped_after, named_by};

use language::{End, Stop};

// The innermost activation, the place of its next statement, where its text ends, the pairs in use. The level of the innermost block is kept by
// the static-chain engine, and the new name to be given out next by the copying one; the others leave them at 0.
#[derive(Clone, Copy)]
pub struct Registers {
    pub live: usize,
    pub at: usize,
    pub end: usize,
    pub pairs: usize,
    pub level: usize,
    pub fresh: usize,
}

// What a step comes to.
#[derive(Clone, Copy)]
pub enum Turn {
    Went(Registers),
    Finished,
    Stopped(Stop),
}

// How a run has ended: how many activations are live, the looked-up name's designator, and the links that lead to it where an engine counts them.
#[derive(Clone, Copy)]
pub struct Halt {
    pub end: End,
    pub steps: u32,
    pub offset: usize,
    pub live: usize,
    pub pairs: usize,
    pub designator: u32,
    pub links: u32,
}

// The program was left.
pub fn finished(here: Registers, steps: u32) -> Halt
    ensures { result ≡ finished_after here steps }
{
    Halt {
        end: End::Finished,
        steps,
        offset: 0,
        live: 0,
        pairs: here.pairs,
        designator: 0,
        links: 0,
    }
}

// No step is left.
pub fn spent(here: Registers, steps: u32) -> Halt
    requires { here.live < 256 }
    ensures { result ≡ spent_after here steps }
{
    Halt {
        end: End::Spent,
        steps,
        offset: 0,
        live: here.live + 1,
        pairs: here.pairs,
        designator: 0,
        links: 0,
    }
}

// The next statement has a cause to stop.
pub fn stopped(here: Registers, cause: Stop, steps: u32) -> Halt
    requires { (here.live < 256) × (here.at ≤ 4096) }
    ensures { result ≡ stopped_after here cause steps }
{
    Halt {
        end: End::Stopped(cause),
        steps,
        offset: 2 * here.at,
        live: here.live + 1,
        pairs: here.pairs,
        designator: 0,
        links: 0,
    }
}

// Activations are left live: the name that was looked up in the innermost one.
pub fn named(halt: Halt, designator: u32, links: u32) -> Halt
    ensures { result ≡ named_by halt designator links }
{
    Halt {
        designator,
        links,
        ..halt
    }
}
