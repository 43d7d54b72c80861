// Long lists in order, in a room that is lent: the lots of the file, the antigens of a block's first II with their counts, and those of an II.
ghost use Rattle.std.specs.Prelude.{◌≡◌, true, ◌++◌, ◌≤◌, ◌<◌, length, take, drop};
ghost use Rattle.house.specs.Over.{over};
ghost use Rattle.lines.specs.Inside.{whole};
ghost use Rattle.lines_words.specs.Words.{count_and_word, key_at, in_order, apart};
ghost use Rattle.rules.specs.Room.{list_of, apart_of, MadeIs, BehindIs, with_lots, with_first, with_own, is_span, has_first, has_own, ListsAre, OwnHeld};

use crate::look::ie_end;
use crate::{Here, Lists};
use lines_fields::Span;
use lines_words::{COUNT_AND_WORD, WORD};
use rules_lists::{ANTIGENS, COUNTED_ANTIGENS, LOTS};

// Puts the first n entries in order.
fn sort_front(file: &[u8], key: u8, room: &mut [u32], n: usize)
    requires { n ≤ length room.old }
    ensures { room.new ≡ in_order (key_at key file.now) (take n room.old) ++ drop n room.old }
{
    lines_words::sort(file, key, &mut room[..n]);
}

// Keeps one entry for each count and word of the first n, which are in order; how many there are.
fn keep_front_apart(file: &[u8], room: &mut [u32], n: usize) -> usize
    requires { n ≤ length room.old }
    ensures value { result ≡ length (apart (key_at count_and_word file.now) (take n room.old)) }
    ensures room_after { room.new
        ≡ over (apart (key_at count_and_word file.now) (take n room.old)) (take n room.old) ++ drop n room.old }
{
    lines_words::keep_apart(file, COUNT_AND_WORD, &mut room[..n])
}

// The entries of a part of the file, in order at the front of a room, if they fit; how many there are then.
fn list_in(file: &[u8], p: Span, what: u8, key: u8, room: &mut [u32]) -> Option<usize>
    ensures { MadeIs (list_of file.now what key p) room.new result }
{
    let n = rules_lists::gather(file, p.start, p.end, what, room);
    if room.len() < n {
        return None;
    }
    sort_front(file, key, room, n);
    Some(n)
}

// The antigens with counts of a part of the file, each once, in order at the front of a room, if they fit.
fn apart_in(file: &[u8], p: Span, room: &mut [u32]) -> Option<usize>
    ensures { MadeIs (apart_of file.now p) room.new result }
{
    let made = list_in(file, p, COUNTED_ANTIGENS, COUNT_AND_WORD, room);
    if let Some(k) = made {
        return Some(keep_front_apart(file, room, k));
    }
    None
}

// The entries of a part of the file, in order in a room from position k on, if they fit.
pub(crate) fn list_behind(
    file: &[u8],
    p: Span,
    what: u8,
    key: u8,
    room: &mut [u32],
    k: usize,
) -> Option<usize>
    requires { k ≤ length room.old }
    ensures { BehindIs (list_of file.now what key p) k room.old room.new result }
{
    list_in(file, p, what, key, &mut room[k..])
}

// The antigens with counts of a part of the file, each once, in order in a room from position k on, if they fit.
fn apart_behind(file: &[u8], p: Span, room: &mut [u32], k: usize) -> Option<usize>
    requires { k ≤ length room.old }
    ensures { BehindIs (apart_of file.now p) k room.old room.new result }
{
    apart_in(file, p, &mut room[k..])
}

// The room has lots up to n, if they were made, and nothing after them.
fn lots_put(l: Lists, n: usize, made: bool) -> Lists
    ensures { result ≡ with_lots l n made }
{
    Lists {
        lots: n,
        lots_made: made,
        firsts: n,
        first_made: false,
        first_sound: false,
        owns: n,
        own_made: false,
        ..l
    }
}

// The room has the antigens of a first II up to n, if they were made, and nothing after them.
fn first_put(l: Lists, first: Span, n: usize, made: bool, sound: bool) -> Lists
    ensures { result ≡ with_first l first n made sound }
{
    Lists {
        first,
        firsts: n,
        first_made: made,
        first_sound: sound,
        owns: n,
        own_made: false,
        ..l
    }
}

// The room has the antigens of an II up to n, if they were made.
pub(crate) fn own_put(l: Lists, own: Span, n: usize, made: bool) -> Lists
    ensures { result ≡ with_own l own n made }
{
    Lists {
        own,
        owns: n,
        own_made: made,
        ..l
    }
}

// The room with the lots of the file, if they fit.
pub(crate) fn with_lots(file: &[u8], l: Lists, room: &mut [u32]) -> Lists
    requires { ListsAre file.now room.old l }
    ensures { ListsAre file.now room.new result }
{
    if l.lots_made {
        return l;
    }
    let whole_file = Span {
        start: 0,
        end: file.len(),
    };
    let made = list_in(file, whole_file, LOTS, WORD, room);
    lots_put(l, made.unwrap_or(0), made.is_some())
}

// Whether two parts are one.
fn same_span(p: Span, q: Span) -> bool
    ensures { result ≡ is_span p q }
{
    if p.start == q.start {
        return p.end == q.end;
    }
    false
}

// Whether the room has the antigens of this first II.
fn has_first(l: Lists, first: Span) -> bool
    ensures { result ≡ has_first l first }
{
    if l.first_made {
        return same_span(l.first, first);
    }
    false
}

// Puts the antigens of a first II into the room, if they fit.
fn make_first(file: &[u8], first: Span, l: Lists, room: &mut [u32]) -> Lists
    requires { ListsAre file.now room.old l }
    ensures lists_are { ListsAre file.now room.new result }
    ensures first_value { result.first ≡ first }
{
    let made = apart_behind(file, first, room, l.lots);
    let sound = rules_lists::rule13_counts_sound(lines_fields::part(file, first.start, first.end));
    first_put(l, first, l.lots + made.unwrap_or(0), made.is_some(), sound)
}

// The room with the antigens of a first II, if they fit.
pub(crate) fn with_first(file: &[u8], first: Span, l: Lists, room: &mut [u32]) -> Lists
    requires { ListsAre file.now room.old l }
    ensures lists_are { ListsAre file.now room.new result }
    ensures first_value { result.first ≡ first }
{
    if has_first(l, first) {
        return l;
    }
    make_first(file, first, l, room)
}

// Whether the room has the antigens of the II of this line, this one among them.
fn has_own(l: Lists, here: Here) -> bool
    ensures { result ≡ has_own l here }
{
    if l.own_made {
        let own = l.own;
        if own.start == here.since {
            return here.next <= own.end;
        }
    }
    false
}

// Puts the antigens of a part of the file into the room, if they fit.
fn make_own(file: &[u8], own: Span, l: Lists, room: &mut [u32]) -> Lists
    requires end_in_bounds { own.end ≤ length file.now }
    requires lists_are { ListsAre file.now room.old l }
    ensures lists_are_2 { ListsAre file.now room.new result }
    ensures own_value { result.own ≡ own }
{
    let made = list_behind(file, own, ANTIGENS, WORD, room, l.firsts);
    own_put(l, own, l.firsts + made.unwrap_or(0), made.is_some())
}

// The room with the antigens of the II of this line, if they fit.
pub(crate) fn with_own(file: &[u8], here: Here, l: Lists, room: &mut [u32]) -> Lists
    requires next_in_bounds { here.next ≤ length file.now }
    requires file_value { here.next < length file.now → whole (take here.next file.now) ≡ true }
    requires lists_are { ListsAre file.now room.old l }
    ensures lists_are_2 { ListsAre file.now room.new result }
    ensures own_held { OwnHeld result here }
{
    if has_own(l, here) {
        return l;
    }
    let to = ie_end(file, here.next);
    let own = Span {
        start: here.since,
        end: to,
    };
    make_own(file, own, l, room)
}
