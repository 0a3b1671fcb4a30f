// The values of the whole parses.
ghost use Rattle.std.specs.Prelude.{◌≡◌};
ghost use Rattle.semantics.specs.Answer.{whole_values};
ghost use Rattle.semantics.specs.Numbers.{most_nesting};
ghost use Rattle.semantics.specs.Values.{whole as wholeIn};
ghost use Rattle.sets.specs.Sets.{parse_of};
ghost use Rattle.run_model.specs.Rows.{row_of};
ghost use Rattle.run.specs.Reading.{with_value, with_values, with_parse};
ghost use Rattle.run.specs.declared.whole.Values as values;

use calls::{MOST_NESTING, Rows};
use characters::skip;
use sets::Parse;

// The values of the whole parses: none, one, or different ones. Three outcomes, and an answer for each.
#[derive(Clone, Copy, PartialEq, Eq, Debug)]
pub enum Values {
    Nothing,
    One(u32),
    Different,
}

// One value more.
#[tactic(auto, unfolding(crate::specs::Reading::with_value))]
fn with_value(values: Values, value: u32) -> Values
    ensures { result ≡ with_value values value }
{
    match values {
        Values::Nothing => Values::One(value),
        Values::One(first) if first == value => values,
        _ => Values::Different,
    }
}

// "A parse is whole .. when skipping from its rest gives the text's length"
fn whole(text: &[u8], p: Parse) -> bool
    ensures { result ≡ wholeIn text.now (parse_of p) }
{
    skip(text, p.rest as usize) == text.len()
}

// The value of a parse counts if it is whole.
fn with_parse(text: &[u8], values: Values, p: Parse) -> Values
    ensures { result ≡ with_parse text.now values (parse_of p) }
{
    if whole(text, p) {
        with_value(values, p.value)
    } else {
        values
    }
}

// The values of the whole parses that the outermost row found.
pub fn whole_values(text: &[u8], rows: &Rows) -> Values
    ensures { result ≡ with_values values.Values.Nothing
        (whole_values text.now (row_of rows.now most_nesting).set) }
{
    let count = rows.parse_count(MOST_NESTING);
    let mut values = Values::Nothing;
    for i in 0..count {
        values = with_parse(text, values, rows.nth_parse(MOST_NESTING, i));
    }
    values
}
