// The records of a list, one after the other, each read into the same room.
use crate::difference::Difference;
use crate::reader::Reader;
use crate::reading::read_full;
use crate::record::{Body, RECORD_ROOM, Record, size_of};
use crate::tally::{MOST_CASES, Tally};
use std::io;
use std::io::{Read, Stdout};

// Why no record comes.
#[derive(Drop)]
enum Stop {
    End,
    // The file ends within the record, or the record is longer than the room.
    Unreadable,
    Failed(io::Error),
}

impl From<io::Error> for Stop {
    fn from(error: io::Error) -> Stop {
        Stop::Failed(error)
    }
}

// The first difference of the next record. Its head is read first, and tells its size.
fn next<R: Record>(file: &mut impl Read, space: &mut [u8]) -> Result<Option<Difference>, Stop> {
    let head = space.get_mut(..R::HEAD_SIZE).ok_or(Stop::Unreadable)?;
    let size = read_full(file, head)?;
    if size == 0 {
        return Err(Stop::End);
    }
    let record = R::read(&mut Reader::new(&head[..size])).ok_or(Stop::Unreadable)?;
    let rest = space
        .get_mut(R::HEAD_SIZE..size_of(&record))
        .ok_or(Stop::Unreadable)?;
    let size = read_full(file, rest)?;
    let body = Body::read(&mut Reader::new(&rest[..size]), &record).ok_or(Stop::Unreadable)?;
    Ok(record.difference(&body))
}

// A record that can't be read differs, and is the last. Behind as many as a list can have one more counts as such,
// whatever the file has there.
pub fn replay<R: Record>(out: Stdout, file: &mut impl Read) -> io::Result<()> {
    let mut tally = Tally::new(out, R::NAME);
    let mut space = [0u8; RECORD_ROOM];
    for _ in 0..MOST_CASES {
        match next::<R>(file, &mut space) {
            Ok(difference) => tally.case(difference)?,
            Err(Stop::End) => return tally.write(R::NAMES),
            Err(Stop::Unreadable) => break,
            Err(Stop::Failed(error)) => return Err(error),
        }
    }
    tally.case(Some(Difference::Unreadable))?;
    tally.write(R::NAMES)
}
