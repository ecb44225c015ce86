// What a name is looked up in.
ghost use Rattle.check_symbols.specs.Chains.{Chained};

// A script, and the names visible at a place in it: the entries from `top` on.
#[derive(Clone, Copy)]
pub struct Scope<'a> {
    pub script: &'a [u8],
    pub entries: &'a [usize],
    pub top: usize,
    ghost chained: { Chained entries.now top },
}
