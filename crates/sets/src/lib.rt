// Sets of parses, "in first-found order", in a lent slice of numbers. Document 01, "The run".
//
// A set at a place is a count and behind it four numbers for each of 64 parses at most: rest, level, associativity and
// cell, so 257 numbers. Every slice gives a set (`set_at` of specs/Sets.antt): a count above 64 reads as 64, and an
// associativity above 2 as Both. So the contracts hold whatever the slice held, and ask only that a set's 257 numbers
// lie in the slice and that two sets, of which one is written, lie apart.
//
// `all_in`, `add`, `add_all` and `put_kept` equal definitions of semantics, specs/Run.antt (`all_in`, `add`, `add_all`,
// `kept`), on the sets that the slice gives; no function changes a number but those of the set that it writes (`Only`).
//
// The crate relies on the definitions of book and semantics, and assumes nothing. specs/ has the definitions (Sets) and
// laws.
#![tactic(auto)]

ghost use Rattle.std.specs.Prelude.{◌≡◌, [], ◌+◌, ◌*◌, ◌<◌, ◌≤◌, get_or, length};
ghost use Rattle.book.specs.Book.{associativity_number};
ghost use Rattle.book.specs.Check.{associativity_of};
ghost use Rattle.semantics.specs.Numbers.{most_parses, parse_size};
ghost use Rattle.semantics.specs.Values.{absent_parse};
ghost use Rattle.semantics.specs.Uses.{keeps_level};
ghost use Rattle.semantics.specs.Run as run;
ghost use Rattle.sets.specs.Sets.{parse_of, parse_at, set_at, put_parse, keep_end, HasSet};
ghost use Rattle.sets.specs.Sets.{Apart, Becomes, Appended, Added, AllAdded, Kept};

use book::Associativity;

#[derive(Clone, Copy, PartialEq, Eq, Debug)]
pub struct Parse {
    pub rest: u32,
    pub level: u32,
    pub associativity: Associativity,
    // a cell
    pub value: u32,
}

// "a 65th different parse in any set" is a limit.
pub const MOST_PARSES: usize = 64;

// rest, level, associativity and cell
pub const PARSE_SIZE: usize = 4;

pub const PARSES_SIZE: usize = PARSE_SIZE * MOST_PARSES;

// a count and the parses
pub const SET_SIZE: usize = 1 + PARSES_SIZE;

// ---- One parse
// The associativity that a number says, any number above 2 being Both. No `From`, here and below: neither type is this
// crate's.
pub fn associativity_of(number: u32) -> Associativity
    ensures { result ≡ associativity_of number }
{
    match number {
        0 => Associativity::Left,
        1 => Associativity::Right,
        2 => Associativity::None,
        _ => Associativity::Both,
    }
}

// The number of an associativity.
pub fn associativity_number(associativity: Associativity) -> u32
    ensures { result ≡ associativity_number associativity }
{
    associativity as u32
}

// `==`, in the run's words.
#[tactic(auto, unfolding(semantics::specs::Run::same_parse))]
fn same_parse(p: Parse, q: Parse) -> bool
    ensures { result ≡ run.same_parse (parse_of p) (parse_of q) }
{
    p == q
}

// The slice is lent, by C too: a parse goes by the places of its numbers.
fn parse_at(numbers: &[u32], at: usize) -> Parse
    requires { at + parse_size ≤ length numbers.now }
    ensures { parse_of result ≡ parse_at numbers.now at }
{
    Parse {
        rest: numbers[at],
        level: numbers[at + 1],
        associativity: associativity_of(numbers[at + 2]),
        value: numbers[at + 3],
    }
}

// "Parses hold rest, level, associativity, cell"
pub fn put_parse(numbers: &mut [u32], at: usize, p: Parse)
    requires { at + parse_size ≤ length numbers.old }
    ensures { numbers.new ≡ put_parse numbers.old at (parse_of p) }
{
    numbers[at] = p.rest;
    numbers[at + 1] = p.level;
    numbers[at + 2] = associativity_number(p.associativity);
    numbers[at + 3] = p.value;
}

// ---- A set
#[tactic(auto, using(crate::specs::PlaceLaws::set_length))]
pub fn size(numbers: &[u32], place: usize) -> usize
    requires { HasSet place numbers.now }
    ensures { result ≡ length (set_at numbers.now place) }
{
    let count = numbers[place] as usize;
    count.min(MOST_PARSES)
}

// The i-th parse of a set that has more than i.
fn item(numbers: &[u32], place: usize, i: usize) -> Parse
    requires set { HasSet place numbers.now }
    requires inside { i < most_parses }
    ensures { parse_of result ≡ parse_at numbers.now (place + 1 + parse_size * i) }
{
    parse_at(numbers, place + 1 + PARSE_SIZE * i)
}

// The i-th parse of a set, and a parse of zeros past its end.
#[tactic(auto, using(crate::specs::PlaceLaws::size_le, crate::specs::PlaceLaws::set_item))]
pub fn nth_parse(numbers: &[u32], place: usize, i: usize) -> Parse
    requires { HasSet place numbers.now }
    ensures { parse_of result ≡ get_or (set_at numbers.now place) i absent_parse }
{
    if i < size(numbers, place) {
        item(numbers, place, i)
    } else {
        Parse {
            rest: 0,
            level: 0,
            associativity: Associativity::Left,
            value: 0,
        }
    }
}

pub fn clear(numbers: &mut [u32], place: usize)
    requires { HasSet place numbers.old }
    ensures { Becomes numbers.old numbers.new place [] }
{
    numbers[place] = 0;
}

#[tactic(auto, using(crate::specs::PlaceLaws::size_le))]
fn has(numbers: &[u32], place: usize, p: Parse) -> bool
    requires { HasSet place numbers.now }
    ensures { result ≡ run.has (set_at numbers.now place) (parse_of p) }
{
    for i in 0..size(numbers, place) {
        if same_parse(p, item(numbers, place, i)) {
            return true;
        }
    }
    false
}

// One parse more at the end of a set, unless it has 64; false if it has. This and the next two answer a truth value and
// no Result: `Appended`, `Added` and `AllAdded`, which the contracts of the callers cite, are about one.
#[tactic(auto, using(crate::specs::SetLaws::append_full))]
pub fn append(numbers: &mut [u32], place: usize, p: Parse) -> bool
    requires { HasSet place numbers.old }
    ensures { Appended result numbers.old numbers.new place (parse_of p) }
{
    let parses = size(numbers, place);
    if parses < MOST_PARSES {
        put_parse(numbers, place + 1 + PARSE_SIZE * parses, p);
        numbers[place] = parses as u32 + 1;
        true
    } else {
        false
    }
}

// A parse joins a set; false for a 65th.
#[tactic(auto, using(crate::specs::SetLaws::add_had))]
pub fn add(numbers: &mut [u32], place: usize, p: Parse) -> bool
    requires { HasSet place numbers.old }
    ensures { Added result numbers.old numbers.new place (parse_of p) }
{
    has(numbers, place, p) || append(numbers, place, p)
}

// ---- Two sets
// The parses of the set at `from` are all in the set at `into`.
#[tactic(auto, using(crate::specs::PlaceLaws::size_le))]
pub fn all_in(numbers: &[u32], into: usize, from: usize) -> bool
    requires { HasSet into numbers.now × HasSet from numbers.now }
    ensures { result ≡ run.all_in (set_at numbers.now into) (set_at numbers.now from) }
{
    for i in 0..size(numbers, from) {
        if !has(numbers, into, item(numbers, from, i)) {
            return false;
        }
    }
    true
}

// The set at `from` joins the set at `into`; false for a 65th.
#[tactic(auto, using(crate::specs::PlaceLaws::size_le))]
pub fn add_all(numbers: &mut [u32], into: usize, from: usize) -> bool
    requires { HasSet into numbers.old × HasSet from numbers.old × Apart into from }
    ensures { AllAdded result numbers.old numbers.new into from }
{
    for i in 0..size(numbers, from) {
        let p = item(numbers, from, i);
        if !add(numbers, into, p) {
            return false;
        }
    }
    true
}

// The set at `into` becomes the set at `from`.
#[tactic(auto, using(crate::specs::PlaceLaws::size_le))]
pub fn copy(numbers: &mut [u32], into: usize, from: usize)
    requires { HasSet into numbers.old × HasSet from numbers.old × Apart into from }
    ensures { Becomes numbers.old numbers.new into (set_at numbers.old from) }
{
    let most = 1 + PARSE_SIZE * size(numbers, from);
    numbers.copy_within(from..from + most, into);
}

// ---- What a use keeps
// "kept when level is at least (Left) or above (Right, None) the governor's variant level; Both keeps all"
fn keeps_level(associativity: Associativity, level: u32, found: u32) -> bool
    ensures { result ≡ keeps_level associativity level found }
{
    match associativity {
        Associativity::Left => level <= found,
        Associativity::Right | Associativity::None => level < found,
        Associativity::Both => true,
    }
}

// A parse goes to the end of a set, if it is kept.
#[tactic(auto, using(crate::specs::SetLaws::keep_no))]
fn keep(numbers: &mut [u32], place: usize, associativity: Associativity, level: u32, p: Parse)
    requires { HasSet place numbers.old }
    ensures { Becomes numbers.old numbers.new place
        (keep_end (keeps_level associativity level p.level) (set_at numbers.old place) (parse_of p)) }
{
    if keeps_level(associativity, level, p.level) {
        append(numbers, place, p);
    }
}

// The set at `into` becomes what a use of this associativity and level keeps of the set at `from`.
#[tactic(auto, using(crate::specs::PlaceLaws::size_le))]
pub fn put_kept(
    numbers: &mut [u32],
    into: usize,
    from: usize,
    associativity: Associativity,
    level: u32,
)
    requires { HasSet into numbers.old × HasSet from numbers.old × Apart into from }
    ensures { Kept numbers.old numbers.new into from associativity level }
{
    clear(numbers, into);
    for i in 0..size(numbers, from) {
        let p = item(numbers, from, i);
        keep(numbers, into, associativity, level, p);
    }
}
