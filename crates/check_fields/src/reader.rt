// The reader over the bytes of a script that is lent (document 01, "Code places and their forms"): it hands out what stands at its
// position. The functions that have one, here and in check_readers, leave the work to a function of the slice and the number; the loops over formals,
// declarations and statements (check_names, check_blocks) move one on.
ghost use Rattle.std.specs.Prelude.{◌≡◌, ◌^◌, ◌<◌};
ghost use Rattle.laws.specs.Fields.{field_at};

use super::bytes::word_at;

#[derive(Clone, Copy)]
pub struct Reader<'a> {
    pub script: &'a [u8],
    pub at: usize,
}

pub fn reader_at<'a>(script: &'a [u8], at: usize) -> Reader<'a>
    ensures { (result.script ≡ script.entry) × (result.at ≡ at) }
{
    Reader { script, at }
}

// The 16-bit field at the position.
pub fn field<'a>(r: Reader<'a>) -> usize
    requires { r.at < 2 ^ 60 }
    ensures { (result ≡ field_at r.entry.script.now r.entry.at) × (result < 65536) }
{
    word_at(r.script, r.at)
}
