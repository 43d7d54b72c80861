// In force on a day: "start <= d <= end, or d <= end where there is no start", and an end that is not before a second day; and what a book says
// of a code on these.
ghost use Rattle.std.specs.Prelude.{◌≡◌, not, ◌&&◌, ◌+◌, ◌-◌, ◌≤◌, ltb, leb, length, take, drop};
ghost use Rattle.house.specs.Text.{number};
ghost use Rattle.book.specs.Book.{entry_of, code_text};
ghost use Rattle.book.specs.LookUp.{standing_by};
ghost use Rattle.book.specs.Inside.{WidthsAre, in_force_until, said_by};

use crate::codes::eight_are;
use crate::kinds::VACCINE;
use crate::search::found;
use crate::{Layout, Sections, Standing};
use dates::Date;

// What a byte counts as a digit.
fn digit(b: u8) -> u32
    ensures value { result ≡ b - 48 }
    ensures upper_bound { result ≤ 207 }
{
    u32::from(b.saturating_sub(b'0'))
}

// The number that the eight digits at a place write.
fn eight_digits(book: &[u8], at: usize) -> u32
    requires { at + 8 ≤ length book.now }
    ensures { result ≡ number (take 8 (drop at book.now)) }
{
    let a = digit(book[at]) * 10 + digit(book[at + 1]);
    let b = (a * 10 + digit(book[at + 2])) * 10 + digit(book[at + 3]);
    let c = (b * 10 + digit(book[at + 4])) * 10 + digit(book[at + 5]);
    (c * 10 + digit(book[at + 6])) * 10 + digit(book[at + 7])
}

// The number that the end at a place writes. Most ends are open.
fn end_number(book: &[u8], at: usize) -> u32
    requires { at + 8 ≤ length book.now }
    ensures { result ≡ number (take 8 (drop at book.now)) }
{
    if eight_are(book, at, 57) {
        Date::OPEN
    } else {
        eight_digits(book, at)
    }
}

// Whether the end at a place is neither before a day nor before another.
fn lasts(book: &[u8], at: usize, day: u32, until: u32) -> bool
    requires { at + 8 ≤ length book.now }
    ensures { result ≡ leb day (number (take 8 (drop at book.now))) && not (ltb (number (take 8 (drop at book.now))) until) }
{
    let end = end_number(book, at);
    if end < until {
        return false;
    }
    day <= end
}

// Whether the entry of a kind that is laid out so, and starts at a place, is in force on a day, and did not end before another.
fn in_force(book: &[u8], w: Layout, kind: u8, at: usize, day: u32, until: u32) -> bool
    requires widths_are { WidthsAre kind w }
    requires w_in_bounds { at + w.entry ≤ length book.now }
    ensures { result ≡ in_force_until day until (entry_of kind (drop (at + 1) book.now)) }
{
    let end = at + (w.entry - 8);
    if kind == VACCINE {
        if day < eight_digits(book, end - 8) {
            return false;
        }
        return lasts(book, end, day, until);
    }
    lasts(book, end, day, until)
}

// What the entries of a kind that are laid out so, with the table from `end` on, say of a code on a day, where its end is not to be before
// another.
fn standing(
    book: &[u8],
    w: Layout,
    end: usize,
    kind: u8,
    a: &[u8],
    b: &[u8],
    day: u32,
    until: u32,
) -> Standing
    requires { WidthsAre kind w }
    ensures { result ≡ said_by book.now kind w end a.now b.now day until }
{
    let f = found(book, w, end, kind, a, b);
    match f {
        Some(place) => {
            if in_force(book, w, kind, place.at, day, until) {
                Standing::InForce
            } else {
                Standing::OutOfForce
            }
        }
        None => Standing::Unknown,
    }
}

// What a book says of a code, given as for find, on a day, where its end is not to be before another. `standing` is called twice so that it
// stays a function of its own, and this one is short enough for the compiler to put it where the kind is known.
pub fn look_up(
    book: &[u8],
    sections: Sections,
    kind: u8,
    a: &[u8],
    b: &[u8],
    day: u32,
    until: u32,
) -> Standing
    ensures { result ≡ standing_by book.now sections kind (code_text kind a.now b.now) day until }
{
    if 8 < kind {
        return Standing::Unknown;
    }
    let w = sections.layout_of(kind);
    if kind == VACCINE {
        return standing(book, w, sections.end, kind, a, b, day, until);
    }
    standing(book, w, sections.end, kind, a, b, day, until)
}
