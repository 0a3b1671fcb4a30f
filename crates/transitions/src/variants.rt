// What a call does before and after a variant's steps, and where a child of it begins.
ghost use Rattle.std.specs.Prelude.{◌≡◌, ◌≤◌};
ghost use Rattle.std.specs.Result.{result_err};
ghost use Rattle.characters.specs.Skipping.{skip_from};
ghost use Rattle.run_model.specs.Rows.{with_child, row_of};
ghost use Rattle.semantics.specs.Numbers.{most_nesting};
ghost use Rattle.calls.specs.Table.{Changed};
ghost use Rattle.calls.specs.Lent.{table_in, SameSlice};
ghost use Rattle.transitions.specs.Results.{cell_of, outcome_of};
ghost use Rattle.transitions.specs.declared.outcomes.State as code;
ghost use Rattle.transitions.specs.Steps.{reached_with};
ghost use Rattle.transitions.specs.Entering.{VariantEnded};
ghost use Rattle.transitions.specs.LayerContracts.{Short, Ready, Begins};

use crate::items::begin;
use crate::outcomes::{Limit, State};
use crate::places::skipped;
use crate::stages::Progress;
use book::Book;
use calls::RowsMut;
use errors::Error;

// The call of a row takes variant j, from its start: the chain of its items, still empty.
pub fn begin_variant(
    book: &Book,
    text: &[u8],
    store: &mut [u32],
    rows: &mut RowsMut,
    row: usize,
    j: u32,
    state: &mut State,
) -> Result<u32, Limit>
    requires { Ready book.now text.now row }
    ensures begins { Begins book.now text.now store.old store.new (table_in rows.old) (table_in rows.new) row j
        state.old (reached_with (cell_of result state.new) (row_of (table_in rows.old) row).start) }
    ensures slice { SameSlice rows.old rows.new }
{
    let variant = book.variant(j as usize);
    rows.take_variant(row, variant.level as u32, variant.associativity);
    begin(book, text, store, j, state)
}

// The failure of variant j of a call that begins at `start`, after that of the variants before it, or the limit that
// variant j met. A limit of those before it, where a run ends, counts as no failure.
pub fn after_variant(
    book: &Book,
    j: u32,
    start: u32,
    before: Result<Option<Error>, Limit>,
    outcome: Result<Option<Error>, Limit>,
) -> Result<Option<Error>, Limit>
    ensures does { (s t : code.State) → VariantEnded book.now j start (outcome_of before s) (outcome_of outcome t)
        (outcome_of result t) }
    ensures limit { result_err result ≡ result_err outcome }
{
    let failure = outcome?;
    let variant = book.variant(j as usize);
    Ok(errors::join_with(
        before.unwrap_or(None),
        errors::counted(variant.committed, start, failure),
    ))
}

// The child of the path's call begins where skipping leads.
pub fn begin_child(text: &[u8], rows: &mut RowsMut, here: Progress) -> u32
    requires { (here.call ≤ most_nesting) × Short text.now }
    ensures begins { (result ≡ skip_from text.now here.place)
        × Changed (table_in rows.old) (table_in rows.new) here.call (with_child result) }
    ensures slice { SameSlice rows.old rows.new }
{
    let at = skipped(text, here.place);
    rows.put_child(here.call, at);
    at
}
