// The names that are declared in the openings around a call, looked up in the rows. Document 02 d.
//
// "An equal name declared later wins": the innermost binder is searched first, and in it the last name, which stands in
// the nearest row. So the first equal name that is found is the one.
ghost use Rattle.std.specs.Prelude.{◌≡◌, List, [], ℕ, ◌+◌, ◌-◌, ◌≤◌, leb, length};
ghost use Rattle.characters.specs.Spelling.{part_of};
ghost use Rattle.semantics.specs.Numbers.{most_nesting, most_declared};
ghost use Rattle.semantics.specs.Tokens.{variable_in};
ghost use Rattle.semantics.specs.Run.{declared_names};
ghost use Rattle.run_model.specs.Rows.{row_of, entry_at, scope_at, scope_in};
ghost use Rattle.calls.specs.Table.{row_count};
ghost use Rattle.calls.specs.Names.{declared_of, open_binder, name_count, depth_past, own_name};

use crate::Rows;
use crate::openings::{BODY, OUTSIDE, is_body};
use crate::rows::{BINDER, KIND, LIVE, PLACE, ROW_COUNT, SIZE};
use cells::{DebruijnIndex, VarIndex};
use characters::{part, same_bytes};

// How many declared names may be open at once.
const MOST_DECLARED: u32 = 64;

// A declared name: its binder's depth outwards, its index within that binder, and its kind.
#[derive(Clone, Copy)]
pub struct Declared {
    pub depth: DebruijnIndex,
    pub index: VarIndex,
    pub kind: u32,
}

// How many names the call's own opening declared, if it is the body behind one.
#[tactic(auto, using(crate::specs::NamesLaws::count_less))]
fn name_count(binder: u32) -> u32
    ensures { result ≡ name_count binder }
{
    binder.saturating_sub(BODY)
}

// The depth behind a call with this binder: one more if it is the body behind an opening.
fn depth_past(binder: u32, depth: u32) -> u32
    requires { depth ≤ most_nesting }
    ensures { result ≡ depth_past binder depth }
{
    if is_body(binder) { depth + 1 } else { depth }
}

// The row of a name of the opening behind which the call of a row is the body: the last is nearest.
fn name_row(row: usize, count: u32, name: u32) -> usize
    requires { (row ≤ most_nesting) × (name ≤ count) }
    ensures { result ≡ row + (count - name) }
{
    row + (count - name) as usize
}

impl<'a> Rows<'a> {
    // The spelling of the name that is declared at a row's level, a part of the text.
    fn spelling<'t>(&self, text: &'t [u8], row: usize) -> &'t [u8]
        ensures { result.now ≡ (entry_at text.now (row_of self.now row)).spelling }
    {
        let place = self.number(row, PLACE);
        let size = self.number(row, SIZE);
        part(text, place as usize, size as usize)
    }

    // The binder of a row's call, if that is open.
    fn open_binder(&self, row: usize) -> u32
        ensures binder { result ≡ open_binder (row_of self.now row) }
        ensures levels { length self.now ≡ row_count }
    {
        if self.number(row, LIVE) == 1 {
            self.number(row, BINDER)
        } else {
            OUTSIDE
        }
    }

    // Which name of the call's own opening a spelling is: of equal ones the last.
    #[tactic(auto, using(crate::proofs::FoundNames::looking))]
    fn own_name(
        &self,
        text: &[u8],
        wanted: &[u8],
        row: usize,
        binder: u32,
        depth: u32,
    ) -> Option<Declared>
        requires { row ≤ most_nesting }
        ensures { declared_of result ≡ own_name text.now self.now row binder depth wanted.now }
    {
        let count = name_count(binder);
        for last in (0..count).rev() {
            let above = name_row(row, count, last);
            if same_bytes(wanted, self.spelling(text, above)) {
                return Some(Declared {
                    depth: DebruijnIndex(depth),
                    index: VarIndex(last),
                    kind: self.number(above, KIND),
                });
            }
        }
        None
    }

    // Which declared name a part of the text is, for a use in a row and with a binder. Where no opening is around it,
    // no row is looked at.
    #[tactic(auto, using(crate::proofs::FoundNames::searching))]
    pub fn declared_at(
        &self,
        text: &[u8],
        row: usize,
        binder: u32,
        start: usize,
        size: usize,
    ) -> Option<Declared>
        requires { row ≤ most_nesting }
        ensures { declared_of result ≡ variable_in [] 0 (scope_at text.now self.now row binder)
            (part_of text.now start size) }
    {
        if binder == OUTSIDE {
            return None;
        }
        let wanted = part(text, start, size);
        let mut around = binder;
        let mut depth = 0;
        for above in row..ROW_COUNT {
            if let Some(found) = self.own_name(text, wanted, above, around, depth) {
                return Some(found);
            }
            depth = depth_past(around, depth);
            around = self.open_binder(above + 1);
        }
        None
    }

    // How many names are declared in the scope of a use in a row and with a binder. A loop of its own, as the
    // definition is: it looks at no spelling and never ends early.
    fn declared_count(&self, row: usize, binder: u32) -> usize
        requires { row ≤ most_nesting }
        ensures { (text : List ℕ) → result ≡ declared_names (scope_at text self.now row binder) }
    {
        if binder == OUTSIDE {
            return 0;
        }
        let mut around = binder;
        let mut count = 0;
        for above in row..ROW_COUNT {
            count += name_count(around) as usize;
            around = self.open_binder(above + 1);
        }
        count
    }

    // The names declared around a row's call leave room for so many more.
    pub fn has_room(&self, row: usize, names: u32) -> bool
        requires { row ≤ most_nesting }
        ensures { (text : List ℕ) →
            result ≡ leb (names + declared_names (scope_in text self.now row)) most_declared }
    {
        names <= MOST_DECLARED
            && self.declared_count(row, self.binder_of(row)) <= (MOST_DECLARED - names) as usize
    }
}
