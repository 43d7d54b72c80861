// What is asked of entries that stand in order, by halving; and one entry kept for each key.
ghost use Rattle.std.specs.Prelude.{◌≡◌, length};
ghost use Rattle.house.specs.Text.{same};
ghost use Rattle.house.specs.Over.{over};
ghost use Rattle.lines_words.specs.Words.{key_at, row_between, has_between, has_key, row_of, found_at, keys_among, apart};

use crate::EVENT;
use crate::events::one_event;
use crate::keys::key_order;
use crate::search::search_by;
use std::cmp::Ordering;

// How f stands to the entries from number `from` on and below number e that have the key of e.
fn row_between(file: &[u8], what: u8, from: u32, e: u32, f: u32) -> Ordering
    ensures { result ≡ row_between (key_at what file.now) from e f }
{
    let o = key_order(file, what, f, e);
    match o {
        Ordering::Less => Ordering::Less,
        Ordering::Equal => {
            if f < from {
                return Ordering::Less;
            }
            if f < e {
                return Ordering::Equal;
            }
            Ordering::Greater
        }
        Ordering::Greater => Ordering::Greater,
    }
}

// Whether an entry from number `from` on and below number e has the key of e.
pub fn has_between(file: &[u8], what: u8, entries: &[u32], from: u32, e: u32) -> bool
    ensures { result ≡ has_between (key_at what file.now) entries.now from e }
{
    search_by(
        entries.len(),
        |i| row_between(file, what, from, e, entries[i]),
    )
    .is_some()
}

// Whether an entry has the key of e.
fn has_key(file: &[u8], what: u8, entries: &[u32], e: u32) -> bool
    ensures { result ≡ has_key (key_at what file.now) entries.now e }
{
    search_by(entries.len(), |i| key_order(file, what, entries[i], e)).is_some()
}

// How f stands to e: before it, the same, or after it.
fn row_of(file: &[u8], what: u8, e: u32, f: u32) -> Ordering
    ensures { result ≡ row_of (key_at what file.now) e f }
{
    let o = key_order(file, what, f, e);
    match o {
        Ordering::Less => Ordering::Less,
        Ordering::Equal => {
            if e == f {
                return Ordering::Equal;
            }
            if e < f {
                return Ordering::Greater;
            }
            Ordering::Less
        }
        Ordering::Greater => Ordering::Greater,
    }
}

// Where e stands among entries in order; past the last where it does not.
pub fn find_entry(file: &[u8], what: u8, entries: &[u32], e: u32) -> usize
    ensures { result ≡ found_at (key_at what file.now) entries.now e }
{
    search_by(entries.len(), |i| row_of(file, what, e, entries[i])).unwrap_or(entries.len())
}

// Whether the keys of the first entries are all keys of the second.
pub fn keys_among(file: &[u8], what: u8, entries: &[u32], others: &[u32]) -> bool
    ensures { result ≡ keys_among (key_at what file.now) entries.now others.now }
{
    for e in entries {
        if !has_key(file, what, others, *e) {
            return false;
        }
    }
    true
}

// Whether two entries have one key. Events are one exactly if they are so with their numbers, which are not asked for.
pub fn one_key(file: &[u8], what: u8, e: u32, f: u32) -> bool
    ensures { result ≡ same (key_at what file.now e) (key_at what file.now f) }
{
    if what == EVENT {
        return one_event(file, e, f);
    }
    let o = key_order(file, what, e, f);
    match o {
        Ordering::Less => false,
        Ordering::Equal => true,
        Ordering::Greater => false,
    }
}

// Moves the first entry of each run with one key to the front; how many there are.
pub fn keep_apart(file: &[u8], what: u8, entries: &mut [u32]) -> usize
    ensures value { result ≡ length (apart (key_at what file.now) entries.old) }
    ensures entries_after { entries.new ≡ over (apart (key_at what file.now) entries.old) entries.old }
{
    if entries.len() == 0 {
        return 0;
    }
    let mut last = entries[0];
    let mut n = 1;
    for i in 1..entries.len() {
        let e = entries[i];
        if one_key(file, what, last, e) {
            continue;
        }
        entries[n] = e;
        last = e;
        n += 1;
    }
    n
}
