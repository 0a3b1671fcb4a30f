// The furthest error of a list, for `midgebillon_furthest`.
ghost use Rattle.std.specs.Prelude.{◌≡◌, ◌≤◌, length};
ghost use Rattle.errors.specs.Lists.{error_size};
ghost use Rattle.midgebillon.specs.Joining.{number_of, holding};

use errors::{Error, ListError};

// No refusal of documents 01 and 02 has these numbers.
const NO_ERRORS: u32 = 60;

const UNEVEN_ERRORS: u32 = 61;

// What a list of errors comes to, as a number of C's interface; so it is no `From` in errors.
pub fn number_of(joined: Result<Error, ListError>) -> u32
    ensures { result ≡ number_of joined }
{
    match joined {
        Ok(_) => 0,
        Err(ListError::Empty) => NO_ERRORS,
        Err(ListError::Uneven) => UNEVEN_ERRORS,
    }
}

// The numbers of the error, if there is one, at the front of a lent list, which is C's: they go by their places.
pub fn put_joined(out: &mut [u32], joined: Result<Error, ListError>)
    requires { error_size ≤ length out.old }
    ensures { out.new ≡ holding joined out.old }
{
    if let Ok(e) = joined {
        out[0] = e.place;
        out[1] = e.kind;
        out[2] = e.argument;
    }
}
