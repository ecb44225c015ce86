// The fields of a script that are there, and how many there are.
ghost use Rattle.std.specs.Prelude.{◌≡◌, ◌+◌, ◌*◌, ◌^◌, ◌<◌, ◌≤◌, leb, length, get_or, take};
ghost use Rattle.language.specs.Encoding.{two};
ghost use Rattle.check_records.specs.Taking.{unread};

// The 16-bit field at an offset, low byte first.
pub fn field_at(script: &[u8], at: usize) -> u32
    requires { at + 1 < length script.now }
    ensures { (result ≡ two (get_or script.now at 0) (get_or script.now (at + 1) 0)) × (result < 65536) }
{
    u32::from(script[at]) + 256 * u32::from(script[at + 1])
}

// Field k of the count fields from an offset on; 0 where there are fewer.
pub fn field_of(script: &[u8], at: usize, count: usize, k: usize) -> u32
    requires { at + 2 * count ≤ length script.now }
    ensures { (result ≡ get_or (take count (unread script.now at)) k 0) × (result < 65536) }
{
    if k < count {
        return field_at(script, at + 2 * k);
    }
    0
}

// Whether a mark is there.
pub fn marked(script: &[u8], at: usize) -> bool
    ensures { result ≡ leb (at + 2) (length script.now) }
{
    let n = script.len();
    if n < 2 {
        return false;
    }
    if n - 2 < at {
        return false;
    }
    true
}

// How many fields there are from an offset on.
pub fn fields_from(script: &[u8], at: usize) -> usize
    ensures { (result ≡ length (unread script.now at)) × (at + 2 * result < 2 ^ 64) }
{
    if script.len() < at {
        return 0;
    }
    (script.len() - at) / 2
}
