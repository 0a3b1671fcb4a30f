// Parts of a text or of a book, and whether two of them are spelled alike.
ghost use Rattle.std.specs.Prelude.{◌≡◌, drop};
ghost use Rattle.characters.specs.Spelling.{part_of, same};

// The bytes from a place on: none where it lies beyond the end.
pub(crate) fn rest(bytes: &[u8], start: usize) -> &[u8]
    ensures { result.now ≡ drop start bytes.now }
{
    bytes.get(start..).unwrap_or(&[])
}

// The part of `bytes` from `start` on that is `size` long, or as much of it as there is.
pub fn part(bytes: &[u8], start: usize, size: usize) -> &[u8]
    ensures { result.now ≡ part_of bytes.now start size }
{
    let rest = rest(bytes, start);
    rest.get(..size).unwrap_or(rest)
}

// `==`, in the definitions' words.
#[tactic(auto, using(crate::proofs::SpellingLaws::same_pointwise, crate::proofs::SpellingLaws::same_lengths))]
pub fn same_bytes(a: &[u8], b: &[u8]) -> bool
    ensures { result ≡ same a.now b.now }
{
    a == b
}

// Whether a part of `left` is spelled as a part of `right`. Each part's start and size stay numbers: callers read them
// from cells and contracts name them so.
pub fn same_spelling(
    left: &[u8],
    left_start: usize,
    left_size: usize,
    right: &[u8],
    right_start: usize,
    right_size: usize,
) -> bool
    ensures { result ≡ same
        (part_of left.now left_start left_size)
        (part_of right.now right_start right_size) }
{
    same_bytes(
        part(left, left_start, left_size),
        part(right, right_start, right_size),
    )
}
