// What an accepted file does to a ledger: what it deletes goes, what it adds comes in, and the slots after are free.
ghost use Rattle.std.specs.Prelude.{◌≡◌, ◌++◌, ◌+◌, ◌-◌, ◌/◌, ◌<◌, ◌≤◌, length, take, set, replicate};
ghost use Rattle.ledger.specs.Ledger.{slot_bytes, slots};
ghost use Rattle.ledger.specs.Updates.{roomed, updated};
ghost use Rattle.ledger.specs.Inside.{order_if, goes_last, last_of, kept_of, merged_in};

use crate::SLOT;
use crate::find::slots_asked;
use crate::slots::{read_slot, slot, slot_before, write_slot};
use std::cmp::Ordering;

// How slot t stands to slot s; above it where there is no slot t.
fn stands_to(there: bool, t: [u8; SLOT], s: [u8; SLOT]) -> Ordering
    ensures { result ≡ order_if there t s }
{
    if there {
        house::compare(&t, &s)
    } else {
        Ordering::Greater
    }
}

// Moves those of the first n slots that are not deleted to the front, and gives how many they are.
fn compact(ledger: &mut [u8], n: usize, file: &[u8], deletes: &[u32]) -> usize
    requires { n ≤ length ledger.old / slot_bytes }
    ensures upper_bound { result ≤ length ledger.old / slot_bytes }
    ensures value { result ≡ length (kept_of (slots ledger.old) n file.now deletes.now) }
    ensures ledger_after { take result (slots ledger.new) ≡ kept_of (slots ledger.old) n file.now deletes.now }
{
    let mut w = 0;
    let mut r = 0;
    let mut d = 0;
    let mut t = slot_before(file, deletes, 1);
    // Not a `for`: the slots and the deletes are walked side by side, now the one, now the other.
    while r < n {
        let s = read_slot(ledger, r);
        let o = stands_to(d < deletes.len(), t, s);
        match o {
            Ordering::Less => {
                d += 1;
                t = slot_before(file, deletes, d + 1);
            }
            Ordering::Equal => {
                r += 1;
            }
            Ordering::Greater => {
                write_slot(ledger, w, s);
                w += 1;
                r += 1;
            }
        }
    }
    w
}

// The same; where nothing is deleted, as in most files, all stay where they are.
fn keep_live(ledger: &mut [u8], n: usize, file: &[u8], deletes: &[u32]) -> usize
    requires { n ≤ length ledger.old / slot_bytes }
    ensures upper_bound { result ≤ length ledger.old / slot_bytes }
    ensures value { result ≡ length (kept_of (slots ledger.old) n file.now deletes.now) }
    ensures ledger_after { take result (slots ledger.new) ≡ kept_of (slots ledger.old) n file.now deletes.now }
{
    if deletes.len() == 0 {
        return n;
    }
    compact(ledger, n, file, deletes)
}

// Whether there is a slot before i, and it does not stand below slot t.
fn goes_last(ledger: &[u8], i: usize, t: [u8; SLOT]) -> bool
    requires { i ≤ length ledger.now / slot_bytes }
    ensures { result ≡ goes_last (slots ledger.now) i t }
{
    if 0 < i {
        if house::before(slot(ledger, i - 1), &t) {
            false
        } else {
            true
        }
    } else {
        false
    }
}

// Puts at k whichever goes last, the slot before i or slot t; whether it is the slot before i.
fn put_last(ledger: &mut [u8], i: usize, k: usize, t: [u8; SLOT]) -> bool
    requires i_in_bounds { i ≤ length ledger.old / slot_bytes }
    requires k_in_bounds { k < length ledger.old / slot_bytes }
    ensures value { result ≡ goes_last (slots ledger.old) i t }
    ensures ledger_after { slots ledger.new ≡ set (slots ledger.old) k (last_of (slots ledger.old) i t) }
{
    if goes_last(ledger, i, t) {
        let s = read_slot(ledger, i - 1);
        write_slot(ledger, k, s);
        true
    } else {
        write_slot(ledger, k, t);
        false
    }
}

// Merges the slots of the adds with the first n, from the end on; how many they are then.
fn merge_in(ledger: &mut [u8], n: usize, file: &[u8], adds: &[u32]) -> usize
    requires { n + length adds.now ≤ length ledger.old / slot_bytes }
    ensures value { result ≡ n + length adds.now }
    ensures upper_bound { result ≤ length ledger.old / slot_bytes }
    ensures ledger_after { slots ledger.new ≡ merged_in (slots ledger.old) n file.now adds.now }
{
    let all = n + adds.len();
    let mut i = n;
    let mut j = adds.len();
    let mut t = slot_before(file, adds, j);
    // Not a `for`: the slots and the adds are walked side by side, now the one, now the other.
    while 0 < j {
        if put_last(ledger, i, i + j - 1, t) {
            i -= 1;
            continue;
        }
        j -= 1;
        t = slot_before(file, adds, j);
    }
    all
}

// Sets every byte from a place on to 0.
fn clear_from(ledger: &mut [u8], from: usize)
    requires { from ≤ length ledger.old }
    ensures { ledger.new ≡ take from ledger.old ++ replicate (length ledger.old - from) 0 }
{
    ledger[from..].fill(0);
}

// The same, where the adds have room after the first n; else all stay.
fn merge_roomed(ledger: &mut [u8], n: usize, file: &[u8], adds: &[u32]) -> usize
    requires { n ≤ length ledger.old / slot_bytes }
    ensures value { result ≡ n + length (roomed ledger.old n adds.now) }
    ensures upper_bound { result ≤ length ledger.old / slot_bytes }
    ensures ledger_after { slots ledger.new
        ≡ merged_in (slots ledger.old) n file.now (roomed ledger.old n adds.now) }
{
    if n + adds.len() <= ledger.len() / SLOT {
        merge_in(ledger, n, file, adds)
    } else {
        n
    }
}

// What an accepted file does to a ledger with so many live events, in place: the events of the lines at these places deleted and added. Nothing
// is tested but that there are so many slots, and room.
pub fn update(ledger: &mut [u8], live: usize, file: &[u8], adds: &[u32], deletes: &[u32])
    ensures { ledger.new ≡ updated ledger.old live file.now adds.now deletes.now }
{
    let n = slots_asked(ledger, live);
    let kept = keep_live(ledger, n, file, deletes);
    let all = merge_roomed(ledger, kept, file, adds);
    clear_from(ledger, all * SLOT);
}
