// The class of each byte, read from one table. A class is known outside this crate through `class_of` and `is_of`
// alone, so that nothing else depends on how the table is stored.
ghost use Rattle.std.specs.Prelude.{◌≡◌, get_or};
ghost use Rattle.characters.specs.Classes.{class_of, class_number, is_of};

use crate::table::CLASSES;

#[derive(Clone, Copy, PartialEq, Eq, Debug)]
pub enum Class {
    Other,
    Whitespace,
    Digit,
    Letter,
    Refused,
}

// The number of a byte's class: a half of one byte of its row.
fn number_of(byte: u8) -> u8
    ensures { result ≡ class_number (class_of byte) }
{
    let index = (byte % 16) as usize;
    let shift = byte / 16 * 4;
    ((CLASSES[index] >> shift) % 16) as u8
}

pub fn class_of(byte: u8) -> Class
    ensures { result ≡ class_of byte }
{
    match number_of(byte) {
        0 => Class::Other,
        1 => Class::Whitespace,
        2 => Class::Digit,
        3 => Class::Letter,
        _ => Class::Refused,
    }
}

pub fn is_of(byte: u8, class: Class) -> bool
    ensures { result ≡ is_of class byte }
{
    class_of(byte) == class
}

// The byte at a place, and 0 where the text has none: 0 is of class other, so nothing begins there.
pub fn byte_at(text: &[u8], place: usize) -> u8
    ensures { result ≡ get_or text.now place 0 }
{
    text.get(place).copied().unwrap_or(0)
}
