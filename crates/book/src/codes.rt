// Codes of entries held against texts that are not padded.
ghost use Rattle.std.specs.Prelude.{◌≡◌, ◌≤◌, ◌+◌, length, take, drop};
ghost use Rattle.house.specs.Text.{all, is_same};
ghost use Rattle.book.specs.Inside.{is_byte, code_order, Tells, Blank, FourSame, Stands};

use std::cmp::Ordering;

// Whether the eight bytes at a place are all this one.
pub(crate) fn eight_are(text: &[u8], i: usize, b: u8) -> bool
    requires { i + 8 ≤ length text.now }
    ensures { result ≡ all (is_byte b) (take 8 (drop i text.now)) }
{
    (text[i] == b)
        & (text[i + 1] == b)
        & (text[i + 2] == b)
        & (text[i + 3] == b)
        & (text[i + 4] == b)
        & (text[i + 5] == b)
        & (text[i + 6] == b)
        & (text[i + 7] == b)
}

// Whether the bytes from a place to another are all blanks, byte by byte.
fn few_blanks(book: &[u8], at: usize, end: usize) -> bool
    requires at_le_end { at ≤ end }
    requires end_in_bounds { end ≤ length book.now }
    ensures { Tells (Blank book.now at end) result }
{
    for b in &book[at..end] {
        if *b != b' ' {
            return false;
        }
    }
    true
}

// The same, eight at a time. The last eight may have been asked in part.
fn blanks(book: &[u8], at: usize, end: usize) -> bool
    requires at_le_end { at ≤ end }
    requires end_in_bounds { end ≤ length book.now }
    ensures { Tells (Blank book.now at end) result }
{
    if end - at < 8 {
        return few_blanks(book, at, end);
    }
    let last = end - 8;
    for i in (at..last).step_by(8) {
        if !eight_are(book, i, b' ') {
            return false;
        }
    }
    eight_are(book, last, b' ')
}

// Whether the four bytes at a place are those at a place of a text.
fn four_same(book: &[u8], at: usize, text: &[u8], i: usize) -> bool
    requires at_in_bounds { at + 4 ≤ length book.now }
    requires i_in_bounds { i + 4 ≤ length text.now }
    ensures { Tells (FourSame book.now at text.now i) result }
{
    (book[at] == text[i])
        & (book[at + 1] == text[i + 1])
        & (book[at + 2] == text[i + 2])
        & (book[at + 3] == text[i + 3])
}

// Whether a text stands at a place, byte by byte.
fn few_same(book: &[u8], at: usize, text: &[u8]) -> bool
    requires { at + length text.now ≤ length book.now }
    ensures { Tells (Stands book.now at text.now (length text.now)) result }
{
    for (i, b) in text.iter().enumerate() {
        if book[at + i] != *b {
            return false;
        }
    }
    true
}

// The same, four at a time: `==` of slices was tried, and a look-up took a twentieth more instructions. The last four may have been asked in part.
fn stands_at(book: &[u8], at: usize, text: &[u8]) -> bool
    requires { at + length text.now ≤ length book.now }
    ensures { Tells (Stands book.now at text.now (length text.now)) result }
{
    if text.len() < 4 {
        return few_same(book, at, text);
    }
    let last = text.len() - 4;
    for i in (0..last).step_by(4) {
        if !four_same(book, at + i, text, i) {
            return false;
        }
    }
    four_same(book, at + last, text, last)
}

// Whether the code of p bytes at a place, and the one of q after it, are two texts, padded.
pub(crate) fn has_code(book: &[u8], at: usize, p: usize, q: usize, a: &[u8], b: &[u8]) -> bool
    requires q_in_bounds { at + p + q ≤ length book.now }
    requires a_len_bound { length a.now ≤ p }
    requires b_len_bound { length b.now ≤ q }
    ensures { result ≡ is_same (code_order book.now at p q a.now b.now) }
{
    let m = at + p;
    if stands_at(book, at, a) {
        if blanks(book, at + a.len(), m) {
            if q == 0 {
                return true;
            }
            if stands_at(book, m, b) {
                return blanks(book, m + b.len(), m + q);
            }
            return false;
        }
        return false;
    }
    false
}

// How the code of p bytes at a place, and the one of q after it, stand to two texts, padded.
pub(crate) fn code_order(book: &[u8], at: usize, p: usize, q: usize, a: &[u8], b: &[u8]) -> Ordering
    requires { at + p + q ≤ length book.now }
    ensures { result ≡ code_order book.now at p q a.now b.now }
{
    let m = at + p;
    let e = m + q;
    let o = house::compare_padded(&book[at..m], a);
    match o {
        Ordering::Less => Ordering::Less,
        Ordering::Greater => Ordering::Greater,
        Ordering::Equal => house::compare_padded(&book[m..e], b),
    }
}
