// The bytes of a file.
ghost use Rattle.program.specs.Counts.{IsPrefixLen};

use std::fs::File;
use std::io::Read;
use std::rt::Files;

// One byte more than the longest accepted book has. The check of a longer book ends within these bytes, so that its
// refusal is that of the whole file (`first_bytes` of BoundLaws in the crate book).
pub const BOOK_ROOM: usize = 3778;

// One byte more than the longest accepted text has; a longer one is refused for its length alone.
pub const TEXT_ROOM: usize = 4097;

// Reads until `bytes` is full, the file ends or a read fails, and gives how many bytes it put at the start. The library
// has no such method: `read_to_end` takes a Vec, and `read_exact` fails where the file ends.
fn read_full(file: &mut impl Read, bytes: &mut [u8]) -> usize
    ensures { IsPrefixLen result bytes.new }
{
    let mut done = 0;
    while let Ok(size @ 1..) = file.read(&mut bytes[done..]) {
        done += size;
    }
    done
}

// The bytes of a file, as many as `bytes` has room for, and how many they are: none where the file is missing or can't
// be read, or where its path is no text. No Option: a missing file counts as an empty one.
pub fn load(rt: &impl Files, path: &[u8], bytes: &mut [u8]) -> usize
    ensures { IsPrefixLen result bytes.new }
{
    let Ok(name) = str::from_utf8(path) else {
        return 0;
    };
    let Ok(mut file) = File::open(rt, name) else {
        return 0;
    };
    read_full(&mut file, bytes)
}
