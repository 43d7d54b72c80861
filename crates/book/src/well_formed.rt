// Well formed: the entries of each kind in turn, as far as they have their form and ascend, reach the end of the book.
ghost use Rattle.std.specs.Prelude.{◌≡◌, ◌≤◌, ◌+◌, ◌-◌, length, take, drop};
ghost use Rattle.book.specs.Book.{body_width, valid_of};
ghost use Rattle.book.specs.Inside.{body_follows, step_len, RunIs};

use crate::forms::body_ok;
use crate::widths::code_width;
use crate::{Position, Read, Sections};

// Whether the body of an entry has its form, and a code above the last.
fn body_follows(k: u8, body: &[u8], last: &[u8]) -> bool
    requires { length body.now ≡ body_width k }
    ensures { result ≡ body_follows k last.now body.now }
{
    if body_ok(k, body) {
        let w = code_width(k);
        house::before(last, &body[..w])
    } else {
        false
    }
}

// Where the next entry starts, if the entry at `at` has kind k, its form, and a code above the one at was..till; else `at`.
fn step(book: &[u8], at: usize, k: u8, was: usize, till: usize) -> usize
    requires at_in_bounds { at ≤ length book.now }
    requires was_le_till { was ≤ till }
    requires till_in_bounds { till ≤ length book.now }
    ensures value { result ≡ at + step_len k (take (till - was) (drop was book.now)) (drop at book.now) }
    ensures upper_bound { result ≤ length book.now }
{
    let p = Position { at };
    let e = p.read(book);
    match e {
        Read::Entry { kind, body, next } => {
            if kind != k {
                return at;
            }
            let end = next.at;
            if body_follows(k, &book[body..end], &book[was..till]) {
                end
            } else {
                at
            }
        }
        Read::End => at,
        Read::Malformed => at,
    }
}

// Where the entries of kind k that start at `from`, each of its form and above the one before, end.
fn run(book: &[u8], from: usize, k: u8) -> usize
    requires { from ≤ length book.now }
    ensures { RunIs book.now from k result }
{
    let w = code_width(k);
    let mut at = from;
    let mut was = from;
    let mut till = from;
    // Not a `for`: the place moves on by the length of each entry.
    while at < book.len() {
        let next = step(book, at, k, was, till);
        if next == at {
            return at;
        }
        was = at + 1;
        till = at + 1 + w;
        at = next;
    }
    at
}

// "at most 262,144 bytes"
const MOST: usize = 262144;

// Whether a book is well formed, in one pass over it.
pub fn valid(book: &[u8]) -> Option<Sections>
    ensures { result ≡ valid_of book.now }
{
    if MOST < book.len() {
        return None;
    }
    let mut starts = [0usize; 9];
    let mut at = 0;
    for k in 1..9 {
        starts[k] = at;
        at = run(book, at, k as u8);
    }
    if at == book.len() {
        Some(Sections {
            antigens: starts[2],
            reasons: starts[3],
            manufacturers: starts[4],
            dosage_types: starts[5],
            reasons_not: starts[6],
            with_reason: starts[7],
            with_antigen: starts[8],
            end: at,
        })
    } else {
        None
    }
}
