// The event key: "ULI 9 digits, date 8, vaccine 20 padded".
ghost use Rattle.std.specs.Prelude.{◌≡◌, length};
ghost use Rattle.house.specs.Text.{pad};
ghost use Rattle.house.specs.Key.{key_of};

use crate::Key;
use crate::texts::lesser;

// Writes a text into a field of a key, padded to its width.
fn put(field: &mut [u8], text: &[u8])
    ensures { field.new ≡ pad (length field.old) text.now }
{
    let n = lesser(field.len(), text.len());
    let (front, back) = field.split_at_mut(n);
    front.copy_from_slice(&text[..n]);
    back.fill(b' ');
}

impl Key {
    pub const ULI: usize = 9;

    pub const DATE: usize = 8;

    pub const VACCINE: usize = 20;

    pub const WIDTH: usize = Self::ULI + Self::DATE + Self::VACCINE;

    // The key of the texts of three fields, each padded to its width.
    pub fn of(uli: &[u8], date: &[u8], vaccine: &[u8]) -> Key
        ensures { result.bytes ≡ key_of uli.now date.now vaccine.now }
    {
        let mut bytes = [b' '; Self::WIDTH];
        let (first, rest) = bytes.split_at_mut(Self::ULI);
        let (second, third) = rest.split_at_mut(Self::DATE);
        put(first, uli);
        put(second, date);
        put(third, vaccine);
        Key { bytes }
    }
}
