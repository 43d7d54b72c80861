// The classes of bytes: whether a byte, each byte of a text, or so many bytes, are of one.
ghost use Rattle.std.specs.Prelude.{◌≡◌, ℕ, Bool};
ghost use Rattle.house.specs.Text.{all, run, is_digit, is_letter, is_letter_or_digit, is_graphic};
ghost use Rattle.rules_definitions.specs.Forms.{lot_byte};
ghost use Rattle.rules_forms.specs.Classes.{Computes};

// Whether a byte is a digit.
pub(crate) fn is_digit(b: u8) -> bool
    ensures { result ≡ is_digit b }
{
    match b {
        b'0'..=b'9' => true,
        _ => false,
    }
}

pub(crate) fn is_letter(b: u8) -> bool
    ensures { result ≡ is_letter b }
{
    match b {
        b'A'..=b'Z' => true,
        b'a'..=b'z' => true,
        _ => false,
    }
}

pub(crate) fn is_letter_or_digit(b: u8) -> bool
    ensures { result ≡ is_letter_or_digit b }
{
    if is_letter(b) { true } else { is_digit(b) }
}

// Letters, digits and dashes.
pub(crate) fn is_lot_byte(b: u8) -> bool
    ensures { result ≡ lot_byte b }
{
    if is_letter_or_digit(b) {
        true
    } else {
        b == b'-'
    }
}

// A byte that shows and is no blank.
pub(crate) fn is_graphic(b: u8) -> bool
    ensures { result ≡ is_graphic b }
{
    match b {
        33..=126 => true,
        _ => false,
    }
}

// Whether each byte of a text is of a class, by its test.
pub(crate) fn all_in<F: Fn(u8) -> bool>(t: &[u8], test: F) -> bool
    requires { F.IsAlwaysCallable test }
    ensures { (p : ℕ → Bool) → Computes (F.post test) p → result ≡ all p t.now }
{
    for b in t {
        if test(*b) {
            continue;
        }
        return false;
    }
    true
}

// Whether a text has from lo to hi bytes, each of a class, by its test.
pub(crate) fn run_in<F: Fn(u8) -> bool>(t: &[u8], lo: usize, hi: usize, test: F) -> bool
    requires { F.IsAlwaysCallable test }
    ensures { (p : ℕ → Bool) → Computes (F.post test) p → result ≡ run lo hi p t.now }
{
    if t.len() < lo {
        return false;
    }
    if hi < t.len() {
        return false;
    }
    all_in(t, test)
}
