// What a book's records hold, and the documents' numbers for it.
ghost use Rattle.std.specs.Prelude.{◌≡◌};
ghost use Rattle.book.specs.Book.{step_number};
ghost use Rattle.book.specs.Check.{mark_of, associativity_of, step_of};

#[derive(Clone, Copy, PartialEq, Eq, Debug)]
pub enum Mark {
    Plain,
    // its uses call `try_claim_as_var` first
    Variable,
    // `identifier_nonterminal`
    Identifier,
    // `CoreBinder::parse`
    Binder,
}

// Any other number reads as a plain one's.
impl From<u8> for Mark {
    ghost from_gives = { λ number mark. mark ≡ mark_of number };

    fn from(number: u8) -> Mark {
        match number {
            1 => Mark::Variable,
            2 => Mark::Identifier,
            3 => Mark::Binder,
            _ => Mark::Plain,
        }
    }
}

#[derive(Clone, Copy, PartialEq, Eq, Debug)]
pub enum Associativity {
    Left,
    Right,
    None,
    Both,
}

// Any other number reads as Both's.
impl From<u8> for Associativity {
    ghost from_gives = { λ number associativity. associativity ≡ associativity_of number };

    fn from(number: u8) -> Associativity {
        match number {
            0 => Associativity::Left,
            1 => Associativity::Right,
            2 => Associativity::None,
            _ => Associativity::Both,
        }
    }
}

#[derive(Clone, Copy, PartialEq, Eq, Debug)]
pub struct Nonterminal {
    pub mark: Mark,
    // its first variant, numbered over the book, and how many it has
    pub first: usize,
    pub count: usize,
}

#[derive(Clone, Copy, PartialEq, Eq, Debug)]
pub struct Variant {
    pub level: usize,
    pub associativity: Associativity,
    pub committed: bool,
    pub passing: bool,
    // its first step, numbered over the book, and how many it has
    pub first: usize,
    pub count: usize,
}

// Its numbers are bytes of the book; the run keeps them as u32.
#[derive(Clone, Copy, PartialEq, Eq, Debug)]
pub enum Step {
    Character(u32),
    Word(u32),
    Identifier,
    Number,
    Variable,
    VariableOfKind(u32),
    RejectVariable,
    RejectReserved,
    Nonterminal(u32),
    Optional(u32),
    Many(u32),
    CommaList(u32),
    Delimited {
        nonterminal: u32,
        opening: u32,
        closing: u32,
    },
    OptionalDelimited {
        nonterminal: u32,
        opening: u32,
        closing: u32,
    },
    Binder {
        body: u32,
        opening: u32,
        closing: u32,
    },
}

// The step of a kind. The check refuses a kind that is none of these; here it reads as the character 0, which no book
// asks for. It is no From, whose one argument would be a tuple of four numbers that don't name themselves.
#[tactic(auto, unfolding(crate::specs::Check::step_of))]
pub fn step_of(kind: u8, a: u32, b: u32, c: u32) -> Step
    ensures { result ≡ step_of kind a b c }
{
    match kind {
        0 => Step::Character(a),
        1 => Step::Word(a),
        2 => Step::Identifier,
        3 => Step::Number,
        4 => Step::Variable,
        5 => Step::VariableOfKind(a),
        6 => Step::RejectVariable,
        7 => Step::RejectReserved,
        8 => Step::Nonterminal(a),
        9 => Step::Optional(a),
        10 => Step::Many(a),
        11 => Step::CommaList(a),
        12 => Step::Delimited {
            nonterminal: a,
            opening: b,
            closing: c,
        },
        13 => Step::OptionalDelimited {
            nonterminal: a,
            opening: b,
            closing: c,
        },
        14 => Step::Binder {
            body: a,
            opening: b,
            closing: c,
        },
        _ => Step::Character(0),
    }
}

// The kind of a passing variant's one step.
pub const NONTERMINAL_STEP: usize = 8;

// The kinds for which "the choices replace the step's unit".
pub const MANY: usize = 10;

pub const COMMA_LIST: usize = 11;

// The number of a step's kind.
pub fn step_number(step: Step) -> usize
    ensures { result ≡ step_number step }
{
    match step {
        Step::Character(_) => 0,
        Step::Word(_) => 1,
        Step::Identifier => 2,
        Step::Number => 3,
        Step::Variable => 4,
        Step::VariableOfKind(_) => 5,
        Step::RejectVariable => 6,
        Step::RejectReserved => 7,
        Step::Nonterminal(_) => NONTERMINAL_STEP,
        Step::Optional(_) => 9,
        Step::Many(_) => MANY,
        Step::CommaList(_) => COMMA_LIST,
        Step::Delimited { .. } => 12,
        Step::OptionalDelimited { .. } => 13,
        Step::Binder { .. } => 14,
    }
}
