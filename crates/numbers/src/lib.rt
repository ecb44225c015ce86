// Numbers as those of a wider type. A call asks nothing of its caller, where a cast would ask for a bound on what is read. `usize::from`
// serves a u8 and a u16 but no u32; a trait over the three types would be longer than their three casts.
#![tactic(auto)]

ghost use Rattle.std.specs.Prelude.{◌≡◌, ◌<◌, ◌^◌};

pub fn from_u8(x: u8) -> usize
    ensures { (result ≡ x) × (result < 256) }
{
    x as usize
}

pub fn from_u16(x: u16) -> usize
    ensures { (result ≡ x) × (result < 65536) }
{
    x as usize
}

pub fn from_u32(x: u32) -> usize
    ensures { (result ≡ x) × (result < 2 ^ 32) }
{
    x as usize
}
