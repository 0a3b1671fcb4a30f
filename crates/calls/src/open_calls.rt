// What is done to the numbers of a row: each method is what the model calls the change, over `put`.
ghost use Rattle.std.specs.Prelude.{◌≤◌};
ghost use Rattle.book.specs.Book.{associativity_number};
ghost use Rattle.semantics.specs.Numbers.{most_nesting};
ghost use Rattle.run_model.specs.Rows as model;

use crate::RowsMut;
use crate::rows::{
    ASKED, ASSOCIATIVITY, BINDER, CHILD, KIND, LEVEL, LIVE, NONTERMINAL, PLACE, SIZE, START,
};
use book::Associativity;

impl<'a> RowsMut<'a> {
    ghost use Rattle.calls.specs.Lent.{Changes};

    // The call of a row is opened.
    #[tactic(auto, using(crate::specs::CallLaws::open_law))]
    pub fn open_call(&mut self, row: usize, binder: u32, nonterminal: u32, at: u32)
        requires { row ≤ most_nesting }
        ensures { Changes self.old self.new row (model.opened binder nonterminal at) }
    {
        self.put(row, LIVE, 1);
        self.put(row, NONTERMINAL, nonterminal);
        self.put(row, BINDER, binder);
        self.put(row, START, at);
        self.put(row, ASKED, 0);
        self.clear_set(row);
    }

    // A name is declared at a row's level, which is no call's.
    #[tactic(auto, using(crate::specs::CallLaws::declare_law))]
    pub fn declare(&mut self, row: usize, kind: u32, place: u32, size: u32)
        requires { row ≤ most_nesting }
        ensures { Changes self.old self.new row (model.declared kind place size) }
    {
        self.put(row, LIVE, 0);
        self.put(row, KIND, kind);
        self.put(row, PLACE, place);
        self.put(row, SIZE, size);
    }

    // The call of a row is over.
    pub fn end_call(&mut self, row: usize)
        requires { row ≤ most_nesting }
        ensures { Changes self.old self.new row model.ended }
    {
        self.put(row, LIVE, 0);
    }

    // The call of a row takes a variant.
    #[tactic(auto, using(crate::specs::CallLaws::variant_law))]
    pub fn take_variant(&mut self, row: usize, level: u32, associativity: Associativity)
        requires { row ≤ most_nesting }
        ensures { Changes self.old self.new row (model.with_variant level (associativity_number associativity)) }
    {
        self.put(row, LEVEL, level);
        self.put(
            row,
            ASSOCIATIVITY,
            sets::associativity_number(associativity),
        );
    }

    // The current child of a row's call begins at a place.
    pub fn put_child(&mut self, row: usize, child: u32)
        requires { row ≤ most_nesting }
        ensures { Changes self.old self.new row (model.with_child child) }
    {
        self.put(row, CHILD, child);
    }

    // The stored parses of a row's call were asked for.
    pub(crate) fn put_asked(&mut self, row: usize)
        requires { row ≤ most_nesting }
        ensures { Changes self.old self.new row model.was_asked }
    {
        self.put(row, ASKED, 1);
    }
}
