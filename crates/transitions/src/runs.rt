// How a call stands after one of its runs.
ghost use Rattle.std.specs.Prelude.{◌≡◌, ◌≤◌, Err, IfErr};
ghost use Rattle.semantics.specs.Numbers.{most_nesting};
ghost use Rattle.calls.specs.Lent.{table_in, SameSlice};
ghost use Rattle.transitions.specs.Results.{end_of, outcome_of};
ghost use Rattle.transitions.specs.declared.outcomes.State as code;
ghost use Rattle.transitions.specs.Entering.{SettledAs, FirstEnded, RoundEnded};

use crate::outcomes::Limit;
use calls::{Rows, RowsMut, Settled};
use errors::Error;

// How a call stands after a run: it is to be run again, or it is over, with a failure or none.
#[derive(Clone, Copy)]
pub enum RunEnd {
    Again,
    Over(Option<Error>),
}

// How a run leaves the call of a row, whose variants failed with `failure`.
fn settled_as(
    rows: &Rows,
    row: usize,
    how: Settled,
    failure: Option<Error>,
) -> Result<RunEnd, Limit>
    requires { row ≤ most_nesting }
    ensures { (s : code.State) → SettledAs rows.now row how failure s (end_of result s) }
{
    match how {
        Settled::Failed => {
            let failed = errors::failed_call(rows.start_of(row), rows.nonterminal_of(row), failure);
            Ok(RunEnd::Over(Some(failed)))
        }
        Settled::Over => Ok(RunEnd::Over(None)),
        Settled::Full => Err(Limit::TooManyParses),
        Settled::Again => Ok(RunEnd::Again),
    }
}

// After the first run of the call of a row; a limit that the run met is given on. `after_first` and `after_round` are
// two, as the model's definitions are.
pub fn after_first(
    rows: &mut RowsMut,
    row: usize,
    first: Result<Option<Error>, Limit>,
) -> Result<RunEnd, Limit>
    requires { row ≤ most_nesting }
    ensures ends { (s : code.State) → FirstEnded (table_in rows.old) (table_in rows.new) row (outcome_of first s)
        (end_of result s) }
    ensures slice { SameSlice rows.old rows.new }
    ensures limit { IfErr first (λ limit. result ≡ Err limit) }
{
    let failure = first?;
    let how = rows.settle_first(row);
    settled_as(&rows.shared(), row, how, failure)
}

// After a further run.
pub fn after_round(
    rows: &mut RowsMut,
    row: usize,
    round: Result<Option<Error>, Limit>,
) -> Result<RunEnd, Limit>
    requires { row ≤ most_nesting }
    ensures ends { (s : code.State) → RoundEnded (table_in rows.old) (table_in rows.new) row (outcome_of round s)
        (end_of result s) }
    ensures slice { SameSlice rows.old rows.new }
    ensures limit { IfErr round (λ limit. result ≡ Err limit) }
{
    let failure = round?;
    let how = rows.settle(row);
    settled_as(&rows.shared(), row, how, failure)
}
