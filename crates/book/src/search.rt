// Look-up: the entry that the hash of a code names is asked first, then a binary search goes on among the entries of one kind, which all
// have the same width.
ghost use Rattle.std.specs.Prelude.{◌≡◌, true, ◌<◌, ◌≤◌, ◌+◌, ◌-◌, ◌*◌, length};
ghost use Rattle.book.specs.Book.{code_text};
ghost use Rattle.book.specs.LookUp.{found_in};
ghost use Rattle.book.specs.Inside.{fits, code_order, found_by, WidthsAre, Laid, FoundIs, NamedIs, SearchedIs, SoughtIs, HashedIs};

use crate::codes::{code_order, has_code};
use crate::hash_table::hashed;
use crate::layouts::count_of;
use crate::{Layout, Position, Sections};
use std::cmp::Ordering;

// Where an entry starts, and how its code stands to another.
#[derive(Clone, Copy)]
struct Probed {
    at: usize,
    order: Ordering,
}

// Reads entry i of the n that are laid out so.
fn probe(book: &[u8], n: usize, i: usize, w: Layout, a: &[u8], b: &[u8]) -> Probed
    requires i_lt_n { i < n }
    requires w_in_bounds { n * w.entry ≤ length book.now - w.from }
    requires second_bound { w.first + w.second < w.entry }
    ensures at_value { result.at ≡ w.from + i * w.entry }
    ensures order_value { result.order ≡ code_order book.now (w.from + i * w.entry + 1) w.first w.second a.now b.now }
{
    let at = w.from + i * w.entry;
    Probed {
        at,
        order: code_order(book, at + 1, w.first, w.second, a, b),
    }
}

// Entry i of a kind, if there is one and it has the code.
fn named(book: &[u8], w: Layout, kind: u8, i: usize, a: &[u8], b: &[u8]) -> Option<Position>
    requires laid { Laid book.now kind w }
    requires b_value { fits kind a.now b.now ≡ true }
    requires i_bound { i < 65536 }
    ensures { NamedIs book.now kind w i a.now b.now result }
{
    let past = (i + 1) * w.entry;
    if w.to - w.from < past {
        return None;
    }
    let at = w.from + i * w.entry;
    if has_code(book, at + 1, w.first, w.second, a, b) {
        Some(Position { at })
    } else {
        None
    }
}

// The binary search: entries lo to hi are left of those of the kind. By hand, as in `ledger` (find).
fn binary_search(book: &[u8], w: Layout, kind: u8, a: &[u8], b: &[u8]) -> Option<Position>
    requires laid { Laid book.now kind w }
    requires b_value { fits kind a.now b.now ≡ true }
    ensures { SearchedIs book.now kind w a.now b.now result }
{
    let n = count_of(book, w, kind);
    let mut lo = 0;
    let mut hi = n;
    while lo < hi {
        let mid = lo + (hi - lo) / 2;
        let p = probe(book, n, mid, w, a, b);
        let o = p.order;
        match o {
            Ordering::Less => {
                lo = mid + 1;
            }
            Ordering::Greater => {
                hi = mid;
            }
            Ordering::Equal => {
                let at = p.at;
                return Some(Position { at });
            }
        }
    }
    None
}

// The entry of a kind with a code: entry i is asked first.
fn sought(book: &[u8], w: Layout, kind: u8, i: usize, a: &[u8], b: &[u8]) -> Option<Position>
    requires laid { Laid book.now kind w }
    requires b_value { fits kind a.now b.now ≡ true }
    requires i_bound { i < 65536 }
    ensures { SoughtIs book.now kind w i a.now b.now result }
{
    let g = named(book, w, kind, i, a, b);
    match g {
        Some(place) => Some(place),
        None => binary_search(book, w, kind, a, b),
    }
}

// The entry of a kind with a code, by the table from `end` on or by binary search.
fn in_section(book: &[u8], end: usize, w: Layout, kind: u8, a: &[u8], b: &[u8]) -> Option<Position>
    requires widths_are { WidthsAre kind w }
    requires b_value { fits kind a.now b.now ≡ true }
    ensures { HashedIs book.now kind w end a.now b.now result }
{
    if w.to < w.from {
        return None;
    }
    if book.len() < w.to {
        return None;
    }
    let i = hashed(book, end, kind, a, b);
    sought(book, w, kind, i, a, b)
}

// The entry of a kind that is laid out so, with a code, and that it lies in the book.
pub(crate) fn found(
    book: &[u8],
    w: Layout,
    end: usize,
    kind: u8,
    a: &[u8],
    b: &[u8],
) -> Option<Position>
    requires { WidthsAre kind w }
    ensures { FoundIs book.now kind (found_by book.now kind w end a.now b.now) result }
{
    if w.first < a.len() {
        return None;
    }
    if w.second < b.len() {
        return None;
    }
    in_section(book, end, w, kind, a, b)
}

// Finds the entry of a kind with a code, given as one text or, for a pair, as two, not padded. A text longer than its code's width is absent.
pub fn find(book: &[u8], sections: Sections, kind: u8, a: &[u8], b: &[u8]) -> Option<Position>
    ensures { result ≡ found_in book.now sections kind (code_text kind a.now b.now) }
{
    if 8 < kind {
        return None;
    }
    let w = sections.layout_of(kind);
    found(book, w, sections.end, kind, a, b)
}
