// Whether the antigens of an II differ from those of its block's first: rule 13.
ghost use Rattle.std.specs.Prelude.{◌≡◌, true, ◌+◌, ◌≤◌, length};
ghost use Rattle.lines_fields.specs.Inside.{part};
ghost use Rattle.lines.specs.Records.{recs};
ghost use Rattle.rules_definitions.specs.Rules.{counts_sound};
ghost use Rattle.rules.specs.Questions.{antigens_differ, AskAt, SetsAsked, SetsSound};
ghost use Rattle.rules.specs.Room.{lists_apart, ListsAre};

use crate::fields::span_text;
use crate::room::{list_behind, own_put, with_first};
use crate::{Asked, Here, Lists};
use lines_fields::{Span, part};
use lines_words::{COUNT_AND_WORD, keys_among};
use rules_lists::{COUNTED_ANTIGENS, rule13_counts_sound};

// Lists of so many bytes at most are scanned.
const FEW_BYTES: usize = 512;

// Rule 13 by a scan. The sets are asked for first: most are one.
fn rule13_scanned(own: &[u8], first: &[u8]) -> bool
    ensures { result ≡ antigens_differ own.now first.now }
{
    if rules_lists::rule13_sets_differ(own, first) {
        if rule13_counts_sound(own) {
            rule13_counts_sound(first)
        } else {
            false
        }
    } else {
        false
    }
}

// Whether two lists in order have not the same counts and words.
fn are_apart(file: &[u8], first: &[u32], own: &[u32]) -> bool
    ensures { result ≡ lists_apart file.now first.now own.now }
{
    if keys_among(file, COUNT_AND_WORD, own, first) {
        if keys_among(file, COUNT_AND_WORD, first, own) {
            false
        } else {
            true
        }
    } else {
        true
    }
}

// The same of two lists that stand in a room one after the other, the second of n entries.
fn are_neighbours_apart(file: &[u8], room: &[u32], from: usize, to: usize, n: usize) -> bool
    requires from_le_to { from ≤ to }
    requires n_in_bounds { to + n ≤ length room.now }
    ensures { result ≡ lists_apart file.now (part room.now from to) (part room.now to (to + n)) }
{
    let end = to + n;
    are_apart(file, &room[from..to], &room[to..end])
}

// Whether rule 13 is broken, by the room's list of the first II and one of the II, which is not kept. All antigens and counts are sound.
fn ask_listed_sets(file: &[u8], marks: &[u32], here: Here, l: Lists, room: &mut [u32]) -> Asked
    requires ask_at { AskAt file.now marks.now here }
    requires lists_are { ListsAre file.now room.old l }
    requires first_made_value { l.first_made ≡ true }
    requires first_value { l.first ≡ here.first }
    requires sets_sound { SetsSound file.now here }
    ensures sets_asked { SetsAsked file.now here result.found }
    ensures lists_are_2 { ListsAre file.now room.new result.lists }
{
    let own = Span {
        start: here.next,
        end: here.own,
    };
    let from = l.lots;
    let to = l.firsts;
    let made = list_behind(file, own, COUNTED_ANTIGENS, COUNT_AND_WORD, room, to);
    let lists = own_put(l, own, to, false);
    if let Some(n) = made {
        let found = are_neighbours_apart(file, room, from, to, n);
        return Asked { lists, found };
    }
    let found = rule13_scanned(part(file, here.next, here.own), span_text(file, here.first));
    Asked { lists, found }
}

// Whether rule 13 is broken by an II whose antigens and counts are sound, where they, or those of the first II, are many.
fn ask_long_sets(file: &[u8], marks: &[u32], here: Here, l: Lists, room: &mut [u32]) -> Asked
    requires ask_at { AskAt file.now marks.now here }
    requires own_value { counts_sound (recs (part file.now here.next here.own)) ≡ true }
    requires lists_are { ListsAre file.now room.old l }
    ensures sets_asked { SetsAsked file.now here result.found }
    ensures lists_are_2 { ListsAre file.now room.new result.lists }
{
    let made = with_first(file, here.first, l, room);
    if made.first_made {
        if made.first_sound {
            return ask_listed_sets(file, marks, here, made, room);
        }
        return Asked {
            lists: made,
            found: false,
        };
    }
    let found = rule13_scanned(part(file, here.next, here.own), span_text(file, here.first));
    Asked { lists: made, found }
}

// Whether two lists of lines have few bytes.
fn are_few(m: usize, n: usize) -> bool {
    if m <= FEW_BYTES {
        return n <= FEW_BYTES;
    }
    false
}

// Whether rule 13 is broken at an II that joins its block. Lines in step are one set, however many.
pub(crate) fn ask_sets(file: &[u8], marks: &[u32], here: Here, l: Lists, room: &mut [u32]) -> Asked
    requires ask_at { AskAt file.now marks.now here }
    requires lists_are { ListsAre file.now room.old l }
    ensures sets_asked { SetsAsked file.now here result.found }
    ensures lists_are_2 { ListsAre file.now room.new result.lists }
{
    let own = part(file, here.next, here.own);
    let first = span_text(file, here.first);
    if are_few(own.len(), first.len()) {
        let found = rule13_scanned(own, first);
        return Asked { lists: l, found };
    }
    if rules_lists::rule13_in_step(own, first) {
        return Asked {
            lists: l,
            found: false,
        };
    }
    if rule13_counts_sound(own) {
        return ask_long_sets(file, marks, here, l, room);
    }
    Asked {
        lists: l,
        found: false,
    }
}
