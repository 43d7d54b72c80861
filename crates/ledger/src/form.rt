// The form of a ledger: what a slot holds, how slots follow each other, and how many are live.
ghost use Rattle.std.specs.Prelude.{◌≡◌, [], ◌+◌, ◌/◌, ◌<◌, length, get_or, drop};
ghost use Rattle.house.specs.Text.{below};
ghost use Rattle.ledger.specs.Ledger.{slot_bytes, event_bytes, slots, event_form, is_free_slot, slot_form, slot_follows, valid_of};
ghost use Rattle.ledger.specs.Inside.{sound_at, sound_from};

use crate::slots::{is_live_slot, slot};
use crate::{MOST_SLOTS, SLOT};
use dates::Date;

// Whether 37 bytes are an event: a ULI of nine digits, a date, a padded vaccine code.
fn is_event(event: &[u8]) -> bool
    requires { length event.now ≡ event_bytes }
    ensures { result ≡ event_form event.now }
{
    if house::all_digits(&event[0..9]) {
        let dated = Date::of(&event[9..17]);
        match dated {
            Some(_) => house::is_padded(&event[17..37]),
            None => false,
        }
    } else {
        false
    }
}

// Whether a slot is of kind 0 and has only zeros.
fn is_free_slot(slot: &[u8]) -> bool
    ensures { result ≡ is_free_slot slot.now }
{
    house::all_within(slot, 0, 0)
}

// Whether a slot has the form of its kind.
fn has_form(slot: &[u8]) -> bool
    requires { length slot.now ≡ slot_bytes }
    ensures { result ≡ slot_form slot.now }
{
    if is_live_slot(slot) {
        is_event(&slot[1..SLOT])
    } else {
        is_free_slot(slot)
    }
}

// Whether a live slot stands below another. It stays a function of its own: where the compiler puts it into the pass over the slots, each free
// slot is read for it too.
#[inline(never)]
fn is_below(s: &[u8], t: &[u8]) -> bool
    ensures { result ≡ below s.now t.now }
{
    house::before(s, t)
}

// Whether slot t may follow slot s: live slots come first and ascend.
fn may_follow(s: &[u8], t: &[u8]) -> bool
    requires s_nonzero { 0 < length s.now }
    requires t_nonzero { 0 < length t.now }
    ensures { result ≡ slot_follows s.now t.now }
{
    if is_live_slot(t) {
        if is_live_slot(s) {
            is_below(s, t)
        } else {
            false
        }
    } else {
        true
    }
}

// Whether slot i has the form of its kind, and the next, if there is one, may follow it.
fn is_sound_at(ledger: &[u8], i: usize) -> bool
    requires { i < length ledger.now / slot_bytes }
    ensures { result ≡ sound_at (get_or (slots ledger.now) i []) (drop (i + 1) (slots ledger.now)) }
{
    let t = slot(ledger, i);
    if has_form(t) {
        if i + 1 < ledger.len() / SLOT {
            may_follow(t, slot(ledger, i + 1))
        } else {
            true
        }
    } else {
        false
    }
}

// Whether each slot has its form and may follow the one before it, and how many are live: one pass.
fn sound_slots(ledger: &[u8]) -> Option<usize>
    ensures { result ≡ sound_from 0 (slots ledger.now) }
{
    let mut live = 0;
    for i in 0..ledger.len() / SLOT {
        if !is_sound_at(ledger, i) {
            return None;
        }
        if is_live_slot(slot(ledger, i)) {
            live += 1;
        }
    }
    Some(live)
}

// Whether a ledger has the form, and how many events are live in it.
pub fn valid(ledger: &[u8]) -> Option<usize>
    ensures { result ≡ valid_of ledger.now }
{
    if ledger.len() % SLOT != 0 {
        return None;
    }
    if MOST_SLOTS < ledger.len() / SLOT {
        return None;
    }
    sound_slots(ledger)
}
