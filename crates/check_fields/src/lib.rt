// The 16-bit fields of a script by their offsets, and the reader that hands them out.
#![tactic(auto)]

ghost use Rattle.std.specs.Prelude.{◌≡◌, ◌^◌, ◌<◌};
ghost use Rattle.laws.specs.Fields.{field_at};

use reader::field;

mod bytes;
mod reader;

pub use reader::{Reader, reader_at};

// The 16-bit field at an offset, low byte first; a byte past the end counts as 0.
pub fn word(script: &[u8], at: usize) -> usize
    requires { at < 2 ^ 60 }
    ensures { (result ≡ field_at script.now at) × (result < 65536) }
{
    field(reader_at(script, at))
}
