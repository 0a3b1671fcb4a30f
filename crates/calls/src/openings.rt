// Openings, and the binders of calls that stand behind them.
ghost use Rattle.std.specs.Prelude.{◌≡◌, ◌≤◌, suc};
ghost use Rattle.semantics.specs.Numbers.{most_nesting};
ghost use Rattle.run_model.specs.Rows.{row_of, inherited, is_body, begins_scope};

use crate::Rows;

// Binders are numbers, as the model's rows have them, and two more than the names of an opening: no opening is around;
// one is; the least of a body behind one, which declared no name.
pub const OUTSIDE: u32 = 0;

pub const AROUND: u32 = 1;

pub(crate) const BODY: u32 = 2;

// The binder of a body behind an opening with so many names.
pub fn body_binder(names: u32) -> u32
    requires { names ≤ most_nesting }
    ensures { result ≡ suc (suc names) }
{
    names + BODY
}

// A call with this binder is the body behind an opening.
#[tactic(auto, using(crate::specs::CallLaws::body_test))]
pub(crate) fn is_body(binder: u32) -> bool
    ensures { result ≡ is_body binder }
{
    BODY <= binder
}

impl<'a> Rows<'a> {
    // The binder of a child of a row's call.
    #[tactic(auto, using(crate::specs::CallLaws::inheriting))]
    pub fn inherited_binder(&self, row: usize) -> u32
        requires { row ≤ most_nesting }
        ensures { result ≡ inherited (row_of self.now row).binder }
    {
        if self.binder_of(row) == OUTSIDE {
            OUTSIDE
        } else {
            AROUND
        }
    }

    // The call of a row is open and the body behind an opening: what is around it has another scope.
    #[tactic(auto, unfolding(run_model::specs::Rows::begins_scope))]
    pub(crate) fn begins_scope(&self, row: usize) -> bool
        requires { row ≤ most_nesting }
        ensures { result ≡ begins_scope (row_of self.now row) }
    {
        self.is_live(row) && is_body(self.binder_of(row))
    }
}
