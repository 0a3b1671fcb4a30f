// Skipping whitespace and comments, by rounds: a round drops whitespace and then one comment, if `//` follows. `// a`
// and a line feed may stand before another comment, so rounds are repeated until one drops nothing.
ghost use Rattle.std.specs.Prelude.{◌≡◌, ◌≤◌, length};
ghost use Rattle.std.specs.List.{prefix_len};
ghost use Rattle.characters.specs.Skipping.{belongs, span_end, comment_at, comment_end, round_end, skip_from};
ghost use Rattle.characters.specs.declared.skipping.Span.{Span};

use crate::classes::{Class, byte_at, is_of};
use crate::spelling::rest;

// The spans of text that are read to their longest end.
#[derive(Clone, Copy)]
pub enum Span {
    // whitespace
    Spaces,
    // what is no line feed
    Line,
    // letters and digits
    Word,
    // digits
    Digits,
}

fn in_span(byte: u8, span: Span) -> bool
    ensures { result ≡ belongs span byte }
{
    match span {
        Span::Spaces => is_of(byte, Class::Whitespace),
        Span::Line => byte != b'\n',
        Span::Word => is_of(byte, Class::Letter) || is_of(byte, Class::Digit),
        Span::Digits => is_of(byte, Class::Digit),
    }
}

// How many bytes at the front belong to a span.
fn leading(bytes: &[u8], span: Span) -> usize
    ensures value { result ≡ prefix_len (belongs span) bytes.now }
    ensures within { result ≤ length bytes.now }
{
    bytes
        .iter()
        .take_while(|byte| in_span(**byte, span))
        .count()
}

// Where the longest span at a place ends: at the place itself where the byte there doesn't belong, or none is there.
#[tactic(auto, unfolding(crate::specs::Skipping::span_end, crate::specs::Skipping::leading))]
pub fn span_end(text: &[u8], place: usize, span: Span) -> usize
    ensures { result ≡ span_end span text.now place }
{
    place + leading(rest(text, place), span)
}

// Where whitespace at a place ends. Few places have any, and a byte above the space is none: for it the table isn't
// read.
#[tactic(auto, using(crate::proofs::SkippingLaws::spaces_none))]
fn spaces_end(text: &[u8], place: usize) -> usize
    ensures { result ≡ span_end Span.Spaces text.now place }
{
    if b' ' < byte_at(text, place) {
        place
    } else {
        span_end(text, place, Span::Spaces)
    }
}

#[tactic(auto, unfolding(crate::specs::Skipping::comment_at))]
fn comment_at(text: &[u8], place: usize) -> bool
    ensures { result ≡ comment_at text.now place }
{
    place < text.len() && text[place] == b'/' && byte_at(text, place + 1) == b'/'
}

// Behind the line feed that ends a comment, or the end of the text.
#[tactic(auto, unfolding(crate::specs::Skipping::comment_end))]
fn comment_end(text: &[u8], place: usize) -> usize
    ensures { result ≡ comment_end text.now place }
{
    let end = span_end(text, place, Span::Line);
    if end < text.len() { end + 1 } else { end }
}

#[tactic(auto, unfolding(crate::specs::Skipping::round_end))]
fn skip_round(text: &[u8], place: usize) -> usize
    ensures { result ≡ round_end text.now place }
{
    let at = spaces_end(text, place);
    if comment_at(text, at) {
        comment_end(text, at)
    } else {
        at
    }
}

// The place that skipping from a place leads to; a place beyond the end stays.
pub fn skip(text: &[u8], place: usize) -> usize
    ensures { result ≡ skip_from text.now place }
{
    let mut at = place;
    loop {
        let next = skip_round(text, at);
        if next == at {
            break next;
        }
        at = next;
    }
}
