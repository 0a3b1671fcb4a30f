// What ends a run or a path through a variant: the limits, and failures.
ghost use Rattle.std.specs.Prelude.{◌≡◌};
ghost use Rattle.transitions.specs.Results.{limit_number, spent_of, outcome_of, ended_of};
ghost use Rattle.transitions.specs.Outcomes.{Spent};
ghost use Rattle.transitions.specs.declared.outcomes.Ended.TheVariants.{AtLimit, Failed};

use errors::Error;

// The refusals of the limits: 20 to 23 of document 01, "The answer", and 41 of document 02 d.
pub const NO_UNIT: u32 = 20;

pub const TOO_DEEP: u32 = 21;

pub const TOO_MANY_PARSES: u32 = 22;

pub const TOO_MANY_CELLS: u32 = 23;

pub const TOO_MANY_NAMES: u32 = 41;

// The limits of a run.
#[derive(Clone, Copy, PartialEq, Eq)]
pub enum Limit {
    NoUnit,
    TooDeep,
    TooManyParses,
    TooManyCells,
    TooManyNames,
}

impl Limit {
    // Its refusal.
    pub fn number(self) -> u32
        ensures { result ≡ limit_number self }
    {
        match self {
            Limit::NoUnit => NO_UNIT,
            Limit::TooDeep => TOO_DEEP,
            Limit::TooManyParses => TOO_MANY_PARSES,
            Limit::TooManyCells => TOO_MANY_CELLS,
            Limit::TooManyNames => TOO_MANY_NAMES,
        }
    }
}

// Units left, and cells so far. The cells are in the store, the marks of the open calls in the rows.
#[derive(Clone, Copy)]
pub struct State {
    pub units: u32,
    pub cells: u32,
}

// What ends a path.
#[derive(Clone, Copy)]
pub enum Ended {
    AtLimit(Limit),
    Failed(Error),
}

impl From<Limit> for Ended {
    ghost from_gives = { λ limit ended. ended ≡ AtLimit limit };

    fn from(limit: Limit) -> Ended {
        Ended::AtLimit(limit)
    }
}

impl From<Error> for Ended {
    ghost from_gives = { λ error ended. ended ≡ Failed error };

    fn from(error: Error) -> Ended {
        Ended::Failed(error)
    }
}

impl Ended {
    // What a call gives whose only path has ended so.
    pub fn outcome(self) -> Result<Option<Error>, Limit>
        ensures { (state : State) → outcome_of result state ≡ ended_of self state }
    {
        match self {
            Ended::AtLimit(limit) => Err(limit),
            Ended::Failed(error) => Ok(Some(error)),
        }
    }
}

// A unit, if one is left.
pub fn spend(state: &mut State) -> Result<(), Limit>
    ensures { Spent (spent_of result state.new) state.old }
{
    if state.units == 0 {
        return Err(Limit::NoUnit);
    }
    state.units -= 1;
    Ok(())
}
