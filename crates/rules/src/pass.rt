// Judging a file: one walk over it, the index of its blocks, and where two blocks name one event a second walk.
ghost use Rattle.std.specs.Prelude.{◌≡◌, ◌*◌, ◌≤◌, length, take};
ghost use Rattle.rules_walk.specs.Firsts.{file_most, built_in};
ghost use Rattle.rules.specs.Look.{setting_by};
ghost use Rattle.rules.specs.Judged.{judged_of, judged_area, table_most, AgainIs, Judging, Sorting};

use crate::file_walk::walk_in_room;
use crate::{By, Judged, SHORT_FILE};
use rules_walk::MOST_BYTES;

// The tables by position, of a short file and of any: sixteen bytes of a file have an entry.
const SHORT_TABLE: usize = 1024;

const LONG_TABLE: usize = 312500;

// The first n places, or all where there are fewer.
fn front(places: &[u32], n: usize) -> &[u32]
    ensures { result.now ≡ take n places.now }
{
    if places.len() <= n {
        return places;
    }
    let from = 0;
    &places[from..n]
}

// How many findings a file has, the blocks that repeat an event being noted by its index in a table of so many entries; those that fit are
// written. The less table there is, the less is to be cleared; each has a frame of its own, so that the check of a short file reserves no larger
// one.
#[inline(never)]
fn walk_noted<const TABLE: usize>(
    file: &[u8],
    index: &[u32],
    ledger: &[u8],
    book: &[u8],
    by: By,
    area: &mut [u8],
) -> usize
    requires file_bound { length file.now ≤ file_most }
    requires entries_bound { length file.now ≤ 16 * TABLE }
    requires table_bound { TABLE ≤ table_most }
    ensures { AgainIs (setting_by by book.now ledger.now)
        file.now index.now area.old result area.new }
{
    let mut table = [0u8; TABLE];
    rules_walk::note_repeats(file, index, &mut table);
    let mut none = [0u32; 0];
    walk_in_room(file, &table, ledger, book, by, &mut none, area).findings
}

// The same by the first n places of an area, or by all where there are fewer.
fn walk_by(
    file: &[u8],
    places: &[u32],
    n: usize,
    ledger: &[u8],
    book: &[u8],
    by: By,
    area: &mut [u8],
) -> usize
    requires { length file.now ≤ file_most }
    ensures { AgainIs (setting_by by book.now ledger.now)
        file.now (take n places.now) area.old result area.new }
{
    let index = front(places, n);
    if file.len() <= SHORT_FILE {
        return walk_noted::<SHORT_TABLE>(file, index, ledger, book, by, area);
    }
    walk_noted::<LONG_TABLE>(file, index, ledger, book, by, area)
}

// Puts the places of the blocks that a walk gathered in order; where two of them name one event, the walk is made again by that index.
fn judge_sorted(
    file: &[u8],
    w: Judged,
    book: &[u8],
    by: By,
    ledger: &[u8],
    room: &mut [u32],
    area: &mut [u8],
) -> Option<Judged>
    requires { length file.now ≤ file_most }
    ensures { Sorting file.now book.now by ledger.now w
        room.old area.old result room.new area.new }
{
    let built = rules_walk::sort_index(file, room, w.blocks)?;
    if built.distinct {
        return Some(w);
    }
    let findings = walk_by(file, room, w.blocks, ledger, book, by, area);
    Some(Judged { findings, ..w })
}

// Judges a file of a length that is judged: its findings are counted, and those that fit written, as if no event were named twice; where two
// blocks do name one, once more, by the index of its blocks.
fn judge_file(
    file: &[u8],
    book: &[u8],
    by: By,
    ledger: &[u8],
    room: &mut [u32],
    area: &mut [u8],
) -> Option<Judged>
    requires { length file.now ≤ file_most }
    ensures { Judging file.now book.now by ledger.now
        room.old area.old result room.new area.new }
{
    let none = [0u8; 0];
    let w = walk_in_room(file, &none, ledger, book, by, room, area);
    judge_sorted(file, w, book, by, ledger, room, area)
}

// Judges a file: counts its findings, writes those that fit in the area, and leaves the index of its blocks in the room lent.
pub fn judge(
    file: &[u8],
    book: &[u8],
    by: By,
    ledger: &[u8],
    room: &mut [u32],
    area: &mut [u8],
) -> Option<Judged>
    ensures value { result ≡ judged_of file.now book.now by ledger.now (length room.old) }
    ensures room_after { room.new ≡ built_in file.now room.old }
    ensures area_after { area.new ≡ judged_area file.now book.now by ledger.now
        (length room.old) area.old }
{
    if MOST_BYTES < file.len() {
        return None;
    }
    judge_file(file, book, by, ledger, room, area)
}
