// The slots of a ledger: reading one, writing one, and the slot of an event.
ghost use Rattle.std.specs.Prelude.{◌≡◌, [], ◌∷◌, ◌/◌, ◌<◌, length, get_or, set};
ghost use Rattle.lines_places.specs.Events.{event_at};
ghost use Rattle.ledger.specs.Ledger.{slot_bytes, slots, is_live_slot, live_slot};
ghost use Rattle.ledger.specs.Inside.{slot_before};

use crate::SLOT;
use house::{Key, wide};

// Slot i, as a part of the ledger.
pub(crate) fn slot(ledger: &[u8], i: usize) -> &[u8]
    requires { i < length ledger.now / slot_bytes }
    ensures result_value { result.now ≡ get_or (slots ledger.now) i [] }
    ensures result_len { length result.now ≡ slot_bytes }
{
    let at = i * SLOT;
    &ledger[at..at + SLOT]
}

// Whether a slot is of kind 1.
pub(crate) fn is_live_slot(slot: &[u8]) -> bool
    requires { 0 < length slot.now }
    ensures { result ≡ is_live_slot slot.now }
{
    slot[0] == 1
}

// Slot i, copied.
pub(crate) fn read_slot(ledger: &[u8], i: usize) -> [u8; SLOT]
    requires { i < length ledger.now / slot_bytes }
    ensures { result ≡ get_or (slots ledger.now) i [] }
{
    let mut s = [0u8; SLOT];
    s.copy_from_slice(slot(ledger, i));
    s
}

// Puts a slot at i.
pub(crate) fn write_slot(ledger: &mut [u8], i: usize, s: [u8; SLOT])
    requires { i < length ledger.old / slot_bytes }
    ensures { slots ledger.new ≡ set (slots ledger.old) i s }
{
    let at = i * SLOT;
    ledger[at..at + SLOT].copy_from_slice(&s);
}

// The slot of a live event.
fn slot_of(key: [u8; Key::WIDTH]) -> [u8; SLOT]
    ensures { result ≡ 1 ∷ key }
{
    let mut s = [1u8; SLOT];
    s[1..].copy_from_slice(&key);
    s
}

// The slot of the event of the line at place j of a list.
fn listed_slot(file: &[u8], places: &[u32], j: usize) -> [u8; SLOT]
    requires { j < length places.now }
    ensures { result ≡ live_slot (event_at file.now (get_or places.now j 0)) }
{
    slot_of(lines_places::key_at(file, wide(places[j])))
}

// The slot of the event of the line at the place before place j of a list; zeros where there is none.
pub(crate) fn slot_before(file: &[u8], places: &[u32], j: usize) -> [u8; SLOT]
    ensures { result ≡ slot_before file.now places.now j }
{
    if 0 < j {
        if j <= places.len() {
            return listed_slot(file, places, j - 1);
        }
    }
    [0u8; SLOT]
}
