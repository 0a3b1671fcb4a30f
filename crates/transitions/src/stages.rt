// How far a path through a variant is, and what it does next.
//
//     Progress ── take_step, next_of ──> Stage    where it came to, and what it does next (Doing)
//     Progress ── stop, open_body ─────> Reached  the same where what comes next is known
//
// Doing is what a path does before the steps that are left: nothing, a child, perhaps a child, or a list's elements.
// Next is what follows each parse of the child that it calls: those steps, or the list.
ghost use Rattle.std.specs.Prelude.{◌≡◌};
ghost use Rattle.transitions.specs.declared.stages.Doing.{Doing};

// How far a path through a variant is: the row of its call, the variant's number, its next step and how many remain,
// the place reached, and the chain of the items so far (of a passing variant, its value).
#[derive(Clone, Copy)]
pub struct Progress {
    pub call: usize,
    pub variant: u32,
    pub step: u32,
    pub remaining: u32,
    pub place: u32,
    pub items: u32,
}

// A list that is being read: of a nonterminal, the chain of the elements already read, the closing, and with commas or
// not. Or it is one of declared names, with the body's nonterminal and the chain of their kinds; a flag tells, since
// both have the same fields and mostly go the same way. The nonterminal comes first, so that in `Doing` it lies where
// a child's does.
#[derive(Clone, Copy)]
pub struct List {
    pub nonterminal: u32,
    pub values: u32,
    pub closing: Option<u32>,
    pub comma: bool,
    pub names: bool,
}

// The names of an opening that is being read: the body behind them, the chain of their kinds, how many there are, and
// the character that closes them. Each stands in the row of its level, the last one next above the first free row.
#[derive(Clone, Copy)]
pub struct Names {
    pub body: u32,
    pub kinds: u32,
    pub count: u32,
    pub closing: u32,
}

// What a path does next: the steps that are left, a child, perhaps a child, or the elements of a list. No closures,
// here and in `Next`: contracts name what comes next, and the reader allocates nothing (docs/DECISIONS.md 86).
#[derive(Clone, Copy)]
pub enum Doing {
    Steps,
    Child(u32),
    Optional(u32),
    Elements(List),
}

// What follows each parse of a child: the steps that are left, or the list, whose elements are no names. No Option: the
// steps are something.
#[derive(Clone, Copy)]
pub enum Next {
    Steps,
    Elements(List),
}

// Where a path is: the place reached, and the items so far.
#[derive(Clone, Copy)]
pub struct Reached {
    pub place: u32,
    pub items: u32,
}

// The same, and what the path does next.
#[derive(Clone, Copy)]
pub struct Stage {
    pub place: u32,
    pub items: u32,
    pub doing: Doing,
}

// The steps that are left come next.
pub fn then_steps(r: Reached) -> Stage
    ensures { result ≡ record { place = r.place; items = r.items; doing = Doing.Steps } }
{
    Stage {
        place: r.place,
        items: r.items,
        doing: Doing::Steps,
    }
}
