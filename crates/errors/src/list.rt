// The furthest of a lent list of errors. Document 02 g: "The desk joins errors from several rules in whatever order
// they are finished."
ghost use Rattle.std.specs.Prelude.{◌≡◌, ◌+◌, ◌≤◌, length};
ghost use Rattle.errors.specs.Maps.{error_of};
ghost use Rattle.errors.specs.Lists.{error_size, error_at, Joins};

use crate::{Error, join};

// An error's numbers in a list: place, kind and argument.
pub const ERROR_SIZE: usize = 3;

// Why a list has no furthest error.
#[derive(Clone, Copy, PartialEq, Eq, Debug)]
pub enum ListError {
    // there is no error in it
    Empty,
    // its length is not three times a number
    Uneven,
}

// The list is C's, so the numbers of an error go by their places.
fn error_at(numbers: &[u32], at: usize) -> Error
    requires { at + error_size ≤ length numbers.now }
    ensures { error_of result ≡ error_at numbers.now at }
{
    Error {
        place: numbers[at],
        kind: numbers[at + 1],
        argument: numbers[at + 2],
    }
}

// The errors are joined one after the other; in another order the same one would be left.
#[tactic(auto, using(crate::specs::ListLaws::uneven_list))]
pub fn join_list(numbers: &[u32]) -> Result<Error, ListError>
    ensures { Joins numbers.now result }
{
    let count = numbers.len() / ERROR_SIZE;
    if numbers.len() != ERROR_SIZE * count {
        return Err(ListError::Uneven);
    }
    if count == 0 {
        return Err(ListError::Empty);
    }
    let mut found = error_at(numbers, 0);
    for i in 1..count {
        found = join(found, error_at(numbers, ERROR_SIZE * i));
    }
    Ok(found)
}
