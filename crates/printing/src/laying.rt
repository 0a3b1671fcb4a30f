// Bytes of the line, laid into a lent slice: the bytes in front of the part that is asked for are skipped, and those
// past the slice dropped. What is skipped is counted down and what is stored is counted up, so that no count gets past
// the numbers that the caller gave, and no sum can wrap.
ghost use Rattle.std.specs.Prelude.{◌≡◌, [], ◌∷◌, ◌++◌};
ghost use Rattle.printing.specs.Printing.{decimal};
ghost use Rattle.printing.specs.Laying.{full, laid_at, Lays, LaysIn};

// A part of the line, as far as it has come.
#[derive(Drop)]
pub struct Part<'a> {
    // where it is stored
    pub out: &'a mut [u8],
    // how many of the line's bytes are still to be skipped
    pub skip: usize,
    // how many are stored
    pub size: usize,
}

// Bytes one after the other, and how many are then still to be skipped and how many stored. Slice and counts are values
// here: read from a part anew at each byte, a long spelling takes half as much time again.
fn lay(out: &mut [u8], skip: usize, size: usize, bytes: &[u8]) -> (usize, usize)
    ensures { LaysIn (laid_at skip size) out.old bytes.now out.new (laid_at result.0 result.1) }
{
    let mut skip = skip;
    let mut size = size;
    for byte in bytes {
        if 0 < skip {
            skip -= 1;
        } else if size < out.len() {
            out[size] = *byte;
            size += 1;
        }
    }
    (skip, size)
}

impl<'a> Part<'a> {
    // Whether no byte that comes is skipped or stored.
    pub fn is_full(&self) -> bool
        ensures { result ≡ full self.now }
    {
        self.skip == 0 && self.out.len() <= self.size
    }

    pub fn byte(&mut self, byte: u8)
        ensures { Lays self.old self.new (byte ∷ []) }
    {
        if 0 < self.skip {
            self.skip -= 1;
        } else if self.size < self.out.len() {
            self.out[self.size] = byte;
            self.size += 1;
        }
    }

    pub fn bytes(&mut self, bytes: &[u8])
        ensures { Lays self.old self.new bytes.now }
    {
        let (skip, size) = lay(self.out, self.skip, self.size, bytes);
        self.skip = skip;
        self.size = size;
    }

    // A number, in decimal. No `Display`: the contract names each byte, and a part may begin within the number.
    pub fn number(&mut self, n: u64)
        ensures { Lays self.old self.new (decimal n) }
    {
        if 10 <= n {
            self.number(n / 10);
        }
        self.byte(b'0' + (n % 10) as u8);
    }

    // A word and a number.
    pub fn field(&mut self, word: &[u8], n: u64)
        ensures { Lays self.old self.new (word.now ++ decimal n) }
    {
        self.bytes(word);
        self.number(n);
    }
}
