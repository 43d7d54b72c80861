// Widths by kind: "a body whose length the kind fixes".
ghost use Rattle.std.specs.Prelude.{◌≡◌, ◌≤◌};
ghost use Rattle.book.specs.Book.{first_width, second_width, start_width, code_width, body_width};

use crate::kinds::{
    ANTIGEN, DOSAGE_TYPE, MANUFACTURER, REASON, REASON_NOT, VACCINE, WITH_ANTIGEN, WITH_REASON,
};
use dates::Date;

// The bytes of an entry's code, or of the first of two.
pub(crate) fn first_width(k: u8) -> usize
    ensures value { result ≡ first_width k }
    ensures upper_bound { result ≤ 20 }
{
    match k {
        VACCINE => 20,
        ANTIGEN => 20,
        REASON => 2,
        MANUFACTURER => 3,
        DOSAGE_TYPE => 4,
        REASON_NOT => 3,
        WITH_REASON => 20,
        WITH_ANTIGEN => 20,
        _ => 0,
    }
}

// The bytes of the second code of a pair.
pub(crate) fn second_width(k: u8) -> usize
    ensures value { result ≡ second_width k }
    ensures upper_bound { result ≤ 20 }
{
    match k {
        WITH_REASON => 2,
        WITH_ANTIGEN => 20,
        _ => 0,
    }
}

// The bytes of an entry's start: only a vaccine has one.
pub(crate) fn start_width(k: u8) -> usize
    ensures value { result ≡ start_width k }
    ensures upper_bound { result ≤ 8 }
{
    if k == VACCINE { Date::WIDTH } else { 0 }
}

// The bytes of an entry's code, both codes of a pair.
pub(crate) fn code_width(k: u8) -> usize
    ensures value { result ≡ code_width k }
    ensures upper_bound { result ≤ 40 }
{
    first_width(k) + second_width(k)
}

// The bytes of an entry's body: its code, its start, its end.
pub(crate) fn body_width(k: u8) -> usize
    ensures value { result ≡ body_width k }
    ensures upper_bound { result ≤ 56 }
{
    code_width(k) + start_width(k) + Date::WIDTH
}
