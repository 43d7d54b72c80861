// The order of lots by their events, and where a lot stands in it: both guessed first, and tested.
ghost use Rattle.std.specs.Prelude.{◌≡◌, true, ◌<◌, IfSome, length, get_or};
ghost use Rattle.lines_words.specs.Words.{key_at, in_order};
ghost use Rattle.lines_words.specs.Inside.{SameEntries};
ghost use Rattle.chart.specs.Inside.{is_among, Sorted};

use crate::arrange::arrange;
use chart_records::NOTE_WIDTH;
use lines_words::{EVENT, event_hash, find_entry, sort};

// So few lots are sorted without more ado.
const FEW: usize = 16;

// Puts the hash of each lot's event in a room, as far as it goes.
fn hash_lots(chart: &[u8], lots: &[u32], room: &mut [u64]) {
    for (hash, lot) in room.iter_mut().zip(lots) {
        *hash = event_hash(chart, *lot);
    }
}

// Where the room has the note of a lot.
fn slot_of(lot: u32) -> usize {
    house::wide(lot) / NOTE_WIDTH
}

// Arranges many lots by the hashes of their events. It only swaps them.
fn arrange_lots(chart: &[u8], lots: &mut [u32], room: &mut [u64])
    ensures { SameEntries lots.old lots.new }
{
    let n = lots.len();
    if n < FEW {
        return;
    }
    if room.len() < n {
        return;
    }
    hash_lots(chart, lots, room);
    arrange(lots, &mut room[..n]);
}

// Notes in a room where lots stand, by their positions, as far as there is room.
fn note_lots(lots: &[u32], room: &mut [u64]) {
    for (i, lot) in lots.iter().enumerate() {
        if let Some(note) = room.get_mut(slot_of(*lot)) {
            *note = i as u64;
        }
    }
}

// Puts lots in the order of their events, and notes where they stand.
pub(crate) fn order_lots(chart: &[u8], lots: &mut [u32], room: &mut [u64])
    ensures { lots.new ≡ in_order (key_at 2 chart.now) lots.old }
{
    arrange_lots(chart, lots, room);
    sort(chart, EVENT, lots);
    note_lots(lots, room);
}

// Where the notes say that a lot stands, if it does.
fn noted(lots: &[u32], hints: &[u64], lot: u32) -> Option<usize>
    ensures { IfSome result (λ i. (i < length lots.now) × (get_or lots.now i 0 ≡ lot)) }
{
    let slot = slot_of(lot);
    if hints.len() <= slot {
        return None;
    }
    let i = hints[slot] as usize;
    if lots.len() <= i {
        return None;
    }
    if lots[i] == lot { Some(i) } else { None }
}

// Where a lot stands among lots in order: as noted, or by a search where nothing true is noted.
pub(crate) fn index_of(chart: &[u8], lots: &[u32], hints: &[u64], lot: u32) -> usize
    requires sorted { Sorted chart.now lots.now }
    requires lot_value { is_among lots.now lot ≡ true }
    ensures upper_bound { result < length lots.now }
    ensures result_value { get_or lots.now result 0 ≡ lot }
{
    match noted(lots, hints, lot) {
        Some(i) => i,
        None => find_entry(chart, EVENT, lots, lot),
    }
}
