// What programs read. No contract can say which bytes come.
ghost use Rattle.std.specs.Io.{ReadsAtMost};
ghost use Rattle.std.specs.Prelude.{◌≡◌, length};

use std::io;
use std::io::Read;

// Reads until the room is full or the input ends, and gives how many bytes it has put at the start of the room. An error is a read's, and leaves in the room
// what had come. A read may give less than there is room for, so what has come is counted here.
pub fn read_full<R: Read>(reader: &mut R, room: &mut [u8]) -> io::Result<usize>
    ensures { (ReadsAtMost result room.new) × (length room.new ≡ length room.old) }
{
    let mut done = 0;
    while done < room.len() {
        let n = reader.read(&mut room[done..])?;
        if n == 0 {
            return Ok(done);
        }
        done += n;
    }
    Ok(done)
}
