// A file without findings is settled by the index of its blocks: they are counted, room is looked for, and the ledger is brought up to date.
ghost use Rattle.std.specs.Prelude.{◌≡◌, ◌≤◌, length};
ghost use Rattle.lines.specs.Sorted.{places_most};
ghost use Rattle.rules.specs.Firsts.{part_of};
ghost use Rattle.answers.specs.Settled.{few_places, add_letter, adds_first, updated_with, updated_by, counts_of, settled_of, settled_ledger, settled_index};

use crate::FEW_PLACES;
use ledger::SLOT;
use lines::MOST_PLACES;

// How many blocks add, change and delete.
#[derive(Clone, Copy)]
pub(crate) struct Counts {
    pub added: usize,
    pub changed: usize,
    pub deleted: usize,
}

// Brings the ledger up to date by the index of the blocks and the places of those deleted. The index keeps the places of those added.
fn update_by(file: &[u8], ledger: &mut [u8], live: usize, index: &mut [u32], deletes: &[u32])
    ensures ledger_after { ledger.new ≡ updated_with ledger.old live file.now index.old deletes.now }
    ensures index_after { index.new ≡ adds_first file.now index.old }
{
    let from = 0;
    let a = rules::keep(file, index, b'A');
    ledger::update(ledger, live, file, &index[from..a], deletes);
}

// The same, in a buffer for the places of those deleted.
fn update_with_deletes(
    file: &[u8],
    ledger: &mut [u8],
    live: usize,
    index: &mut [u32],
    deletes: &mut [u32],
)
    requires { length index.old ≤ length deletes.old }
    ensures ledger_after { ledger.new ≡ updated_by ledger.old live file.now index.old }
    ensures index_after { index.new ≡ adds_first file.now index.old }
{
    let from = 0;
    let d = rules::part_of(file, index, b'D', deletes);
    update_by(file, ledger, live, index, &deletes[from..d]);
}

// The same, in a buffer of its own, for few places.
fn lend_few_deletes(file: &[u8], ledger: &mut [u8], live: usize, index: &mut [u32])
    requires { length index.old ≤ few_places }
    ensures ledger_after { ledger.new ≡ updated_by ledger.old live file.now index.old }
    ensures index_after { index.new ≡ adds_first file.now index.old }
{
    let mut deletes = [0u32; FEW_PLACES];
    update_with_deletes(file, ledger, live, index, &mut deletes);
}

// The same, in a buffer of its own, for any index. It has a frame of its own, so that the stack of judging has none of it.
#[inline(never)]
fn lend_delete_buffer(file: &[u8], ledger: &mut [u8], live: usize, index: &mut [u32])
    requires { length index.old ≤ places_most }
    ensures ledger_after { ledger.new ≡ updated_by ledger.old live file.now index.old }
    ensures index_after { index.new ≡ adds_first file.now index.old }
{
    let mut deletes = [0u32; MOST_PLACES];
    update_with_deletes(file, ledger, live, index, &mut deletes);
}

// Brings the ledger up to date by the index of the blocks, so many of which add. Where all do, their places are the index as it is.
fn bring_up_to_date(file: &[u8], ledger: &mut [u8], live: usize, index: &mut [u32], added: usize)
    requires added_value { added ≡ length (part_of file.now add_letter index.old) }
    requires index_len_bound { length index.old ≤ places_most }
    ensures ledger_after { ledger.new ≡ updated_by ledger.old live file.now index.old }
    ensures index_after { index.new ≡ adds_first file.now index.old }
{
    if added == index.len() {
        let all = &index[..];
        ledger::update(ledger, live, file, all, &all[..0]);
    } else if index.len() <= FEW_PLACES {
        lend_few_deletes(file, ledger, live, index);
    } else {
        lend_delete_buffer(file, ledger, live, index);
    }
}

// How many blocks add, change and delete, by the index of the blocks.
fn count_types(file: &[u8], index: &[u32]) -> Counts
    requires { length index.now ≤ places_most }
    ensures value { result ≡ counts_of file.now index.now }
    ensures added_le_places_most { result.added ≤ places_most }
    ensures deleted_le_places_most { result.deleted ≤ places_most }
{
    let added = rules::count_of(file, index, b'A');
    if added == index.len() {
        return Counts {
            added,
            changed: 0,
            deleted: 0,
        };
    }
    let changed = rules::count_of(file, index, b'C');
    let deleted = rules::count_of(file, index, b'D');
    Counts {
        added,
        changed,
        deleted,
    }
}

// How many blocks add, change and delete, if the index has no more places than can be sorted and the ledger, with so many live events, room
// for what they add.
fn room_for(file: &[u8], ledger: &[u8], live: usize, index: &[u32]) -> Option<Counts>
    ensures { result ≡ settled_of file.now ledger.now live index.now }
{
    if MOST_PLACES < index.len() {
        return None;
    }
    let n = count_types(file, index);
    let added = n.added;
    let deleted = n.deleted;
    let room = ledger.len() / SLOT + deleted;
    if room < live {
        return None;
    }
    if room < live + added {
        return None;
    }
    Some(n)
}

// Settles the blocks of an index, over a ledger with so many live events. Where there is no room, all stays as it is.
pub(crate) fn settle(
    file: &[u8],
    ledger: &mut [u8],
    live: usize,
    index: &mut [u32],
) -> Option<Counts>
    ensures value { result ≡ settled_of file.now ledger.old live index.old }
    ensures ledger_after { ledger.new ≡ settled_ledger file.now ledger.old live index.old }
    ensures index_after { index.new ≡ settled_index file.now ledger.old live index.old }
{
    let s = room_for(file, ledger, live, index);
    match s {
        Some(n) => {
            let added = n.added;
            bring_up_to_date(file, ledger, live, index, added);
            Some(n)
        }
        None => None,
    }
}
