// Looking an event up in a ledger.
ghost use Rattle.std.specs.Prelude.{◌≡◌, ◌/◌, ◌<◌, ◌≤◌, length};
ghost use Rattle.house.specs.Text.{order_of};
ghost use Rattle.ledger.specs.Ledger.{slot_bytes, event_in, slots_asked, found_in};

use crate::SLOT;
use crate::slots::slot;
use house::Key;
use std::cmp::Ordering;

// How many slots are looked at where so many are said to be live.
#[tactic(auto, unfolding(crate::specs::Ledger::slots_asked, crate::specs::Ledger::slots_in))]
pub(crate) fn slots_asked(ledger: &[u8], live: usize) -> usize
    ensures value { result ≡ slots_asked ledger.now live }
    ensures upper_bound { result ≤ length ledger.now / slot_bytes }
{
    let n = ledger.len() / SLOT;
    live.min(n)
}

// How the event in slot i stands to a key.
fn stands(ledger: &[u8], i: usize, key: [u8; Key::WIDTH]) -> Ordering
    requires { i < length ledger.now / slot_bytes }
    ensures { result ≡ order_of (event_in ledger.now i) key }
{
    let s = slot(ledger, i);
    house::compare(&s[1..SLOT], &key)
}

// Whether an event is live: a binary search among the first slots, as many as are said to be live. By hand: one function for this, `book` and
// `lines_words` would take how a row stands as a closure and ask that it may be called, and no public function asks anything (tests/limits).
pub fn is_live(ledger: &[u8], live: usize, key: [u8; Key::WIDTH]) -> bool
    ensures { result ≡ found_in ledger.now live key }
{
    let mut lo = 0;
    let mut hi = slots_asked(ledger, live);
    while lo < hi {
        let mid = lo + (hi - lo) / 2;
        match stands(ledger, mid, key) {
            Ordering::Less => lo = mid + 1,
            Ordering::Greater => hi = mid,
            Ordering::Equal => return true,
        }
    }
    false
}
