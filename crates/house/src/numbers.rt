// Numbers of four bytes, "lowest first".
ghost use Rattle.std.specs.Prelude.{◌≡◌};
ghost use Rattle.house.specs.Numbers.{number_at};

// A number of four bytes, as a position.
pub fn wide(p: u32) -> usize
    ensures { result ≡ p }
{
    p as usize
}

// The number that the four bytes at a position write; 0 where they are not there.
pub fn number_at(s: &[u8], at: usize) -> u32
    ensures { result ≡ number_at s.now at }
{
    let Some(rest) = s.get(at..) else {
        return 0;
    };
    match rest.first_chunk::<4>() {
        Some(bytes) => u32::from_le_bytes(*bytes),
        None => 0,
    }
}
