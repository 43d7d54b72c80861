// Texts by the range of their bytes. No byte has a branch of its own, so that many are looked at at a time.
ghost use Rattle.std.specs.Prelude.{◌≡◌};
ghost use Rattle.house.specs.Text.{all, within, is_padded};
ghost use Rattle.house.specs.Numbers.{lesser_of, greater_of};
ghost use Rattle.house.specs.Inside.{rises_at, no_rise};

// The lesser of two bytes.
pub fn lesser_byte(a: u8, b: u8) -> u8
    ensures { result ≡ lesser_of a b }
{
    a.min(b)
}

// The greater of two bytes.
pub fn greater_byte(a: u8, b: u8) -> u8
    ensures { result ≡ greater_of a b }
{
    a.max(b)
}

// Whether each byte of a text lies in a range: by its least and its greatest byte.
pub fn all_within(text: &[u8], lo: u8, hi: u8) -> bool
    ensures { result ≡ all (within lo hi) text.now }
{
    let mut low = lo;
    let mut high = hi;
    for b in text {
        low = lesser_byte(low, *b);
        high = greater_byte(high, *b);
    }
    lo <= low && high <= hi
}

// 1 where a byte is a blank and the next is none, else 0.
fn rises_at(a: u8, b: u8) -> u8
    ensures { result ≡ rises_at a b }
{
    u8::from((a == b' ') & (b != b' '))
}

// Whether only blanks follow a blank.
fn no_rise(text: &[u8]) -> bool
    ensures { result ≡ no_rise text.now }
{
    let mut rises: u8 = 0;
    // By index: pairs of `zip` and of `windows` were tried, and take half as many instructions again on a code of 20 bytes.
    for i in 1..text.len() {
        rises = greater_byte(rises, rises_at(text[i - 1], text[i]));
    }
    rises == 0
}

// Whether a text is a padded code of its width: one byte in 33..126 or more, then blanks.
pub fn is_padded(text: &[u8]) -> bool
    ensures { result ≡ is_padded text.now }
{
    if text.is_empty() || text[0] == b' ' {
        return false;
    }
    all_within(text, b' ', b'~') && no_rise(text)
}
