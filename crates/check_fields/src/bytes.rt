// The bytes and 16-bit fields of a script by their offsets.
ghost use Rattle.std.specs.Prelude.{◌≡◌, ◌^◌, ◌<◌, get_or};
ghost use Rattle.laws.specs.Fields.{field_at};

// A byte of the script; 0 past its end.
fn byte(script: &[u8], at: usize) -> usize
    ensures { (result ≡ get_or script.now at 0) × (result < 256) }
{
    if at < script.len() {
        return usize::from(script[at]);
    }
    0
}

// The 16-bit field at an offset, low byte first. Where both its bytes are there, they are one load.
pub fn word_at(script: &[u8], at: usize) -> usize
    requires { at < 2 ^ 60 }
    ensures { (result ≡ field_at script.now at) × (result < 65536) }
{
    if at + 1 < script.len() {
        return usize::from(script[at]) + 256 * usize::from(script[at + 1]);
    }
    byte(script, at)
}
