// The bytes of a record, read from the start on.
#[derive(Clone, Copy)]
pub struct Reader<'a> {
    rest: &'a [u8],
}

impl<'a> Reader<'a> {
    pub fn new(rest: &'a [u8]) -> Reader<'a> {
        Reader { rest }
    }

    pub fn bytes(&mut self, size: usize) -> Option<&'a [u8]> {
        let (bytes, rest) = self.rest.split_at_checked(size)?;
        self.rest = rest;
        Some(bytes)
    }

    // A number has four bytes, the low one first.
    pub fn number(&mut self) -> Option<u32> {
        let (bytes, rest) = self.rest.split_first_chunk::<4>()?;
        self.rest = rest;
        Some(u32::from_le_bytes(*bytes))
    }

    // A number that counts bytes or numbers.
    pub fn count(&mut self) -> Option<usize> {
        Some(self.number()? as usize)
    }

    // So many numbers, which stay bytes.
    pub fn numbers(&mut self, count: usize) -> Option<&'a [[u8; 4]]> {
        let (numbers, _) = self.bytes(count.checked_mul(4)?)?.as_chunks::<4>();
        Some(numbers)
    }
}

// Writes numbers at the start of a list, as many as fit.
pub fn write_numbers(list: &mut [u32], numbers: &[[u8; 4]]) {
    for (number, bytes) in list.iter_mut().zip(numbers) {
        *number = u32::from_le_bytes(*bytes);
    }
}
