// The bytes of an open file.
ghost use Rattle.std.specs.Io.{ReadsAtMost};

use std::io;
use std::io::Read;

// Reads until `bytes` is full or the file ends, and gives how many bytes it put at the start. The library has no such
// method: `read_to_end` takes a Vec, and `read_exact` fails where the file ends.
pub fn read_full(file: &mut impl Read, bytes: &mut [u8]) -> io::Result<usize>
    ensures { ReadsAtMost result bytes.new }
{
    let mut done = 0;
    while done < bytes.len() {
        let size = file.read(&mut bytes[done..])?;
        if size == 0 {
            break;
        }
        done += size;
    }
    Ok(done)
}
