// The links of the live activations, sought where a sheet is to be written: the engine keeps none. An activation is enclosed by the first one of a lower level
// that the search meets on its way out.
#![tactic(auto)]

ghost use Rattle.std.specs.Prelude.{◌≡◌, ◌<◌, ◌≤◌, length, get_or};
ghost use Rattle.search_links.specs.Enclosing.{level_at, shallower_from, link_at, Askable, AllAskable, LinksFound};

use layout::level_of;
use numbers::from_u32;

// The level of an activation's block.
fn level_at(code: &[u32; 4096], blocks: &[u16; 256], k: usize) -> usize
    requires { (k < 256) × (get_or blocks.now k 0 < 4096) }
    ensures { result ≡ level_at code.now blocks.now k }
{
    level_of(from_u32(code[usize::from(blocks[k])]))
}

// Where the search goes on after an activation that is not the program's.
fn onward(froms: &[u16; 256], k: usize) -> usize
    requires { (1 ≤ k) × (k < 256) }
    ensures { result ≡ get_or froms.now k 0 }
{
    usize::from(froms[k])
}

// The first activation of a lower level, sought from an activation on. Each record says where the search goes on, so no range has them.
fn shallower(
    code: &[u32; 4096],
    blocks: &[u16; 256],
    froms: &[u16; 256],
    from: usize,
    level: usize,
) -> usize
    requires { Askable blocks.now froms.now from }
    ensures { (result ≡ shallower_from code.now blocks.now froms.now level from) × (result ≤ from) }
{
    let mut k = from;
    while 0 < k {
        if level_at(code, blocks, k) < level {
            return k;
        }
        k = onward(froms, k);
    }
    0
}

// The link of an activation: the one that encloses it.
fn link_of(code: &[u32; 4096], blocks: &[u16; 256], froms: &[u16; 256], k: usize) -> usize
    requires { Askable blocks.now froms.now k × (1 ≤ k) }
    ensures { (result ≡ link_at code.now blocks.now froms.now k) × (result < 256) }
{
    shallower(
        code,
        blocks,
        froms,
        onward(froms, k),
        level_at(code, blocks, k),
    )
}

// Each live activation but the program's is linked to its encloser.
pub fn find_links(
    code: &[u32; 4096],
    blocks: &[u16; 256],
    froms: &[u16; 256],
    live: usize,
    links: &mut [u16; 256],
)
    requires { AllAskable blocks.now froms.now live × (length links.old ≡ 256) }
    ensures { LinksFound code.now blocks.now froms.now live links.old links.new }
{
    for k in 1..live {
        links[k] = link_of(code, blocks, froms, k) as u16;
    }
}
