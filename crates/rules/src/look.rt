// What is known of a line before its fields are judged: where it and its own IE lines stand, its block, whether II 5 is H, its vaccine
// and its day.
ghost use Rattle.std.specs.Prelude.{◌≡◌, true, ◌≤◌, ◌<◌, length, take};
ghost use Rattle.lines_fields.specs.Marks.{mark_count, marks_at};
ghost use Rattle.lines.specs.Inside.{whole};
ghost use Rattle.rules_definitions.specs.Forms.{text};
ghost use Rattle.rules_walk.specs.Firsts.{file_most};
ghost use Rattle.rules.specs.Walk.{ReadIn, rec_in, ReadAs, day_of, historical_by, vaccine_by, day_by, OwnIs, OwnEnd, here_with, HereIs, Holds, LookAt};

use crate::blocks::{block_of, facts_of};
use crate::{BlockAt, Here, Read, State};
use lines::{IE, II, IN};
use lines_fields::{Span, judged, judged_span, part};
use rules_fields::Facts;

// The day that a text gives, if it is a date: its number.
pub(crate) fn day_of_text(t: &[u8]) -> Option<u32>
    ensures { result ≡ day_of t.now }
{
    let d = dates::Date::of(t);
    match d {
        Some(day) => Some(day.number),
        None => None,
    }
}

// The day that field f of a line gives.
pub(crate) fn day_in(file: &[u8], marks: &[u32], f: usize) -> Option<u32>
    requires read_in { ReadIn file.now marks.now }
    requires f_bound { f ≤ 28 }
    ensures { result ≡ day_of (text (rec_in file.now marks.now) f) }
{
    day_of_text(judged(file, marks, f))
}

// Where the IE lines that start at a position end.
pub(crate) fn ie_end(file: &[u8], from: usize) -> usize
    requires from_in_bounds { from ≤ length file.now }
    requires file_value { from < length file.now → whole (take from file.now) ≡ true }
    ensures { OwnIs file.now from result }
{
    let mut at = from;
    // Not a `for`: the position goes on by the length of the line that it is at.
    while at < file.len() {
        let l = lines_fields::line_at(file, at);
        let end = l.end;
        if lines::kind_of(&file[at..end]) != IE {
            return at;
        }
        at = l.next;
    }
    at
}

// Where the IE lines of an II that joins a block end, which start at a position; the position itself for any other line, of which nothing is
// asked.
fn own_end(file: &[u8], joined: bool, from: usize) -> usize
    requires from_in_bounds { from ≤ length file.now }
    requires file_value { from < length file.now → whole (take from file.now) ≡ true }
    ensures { OwnEnd file.now joined from result }
{
    if joined { ie_end(file, from) } else { from }
}

// Whether II 5 of the II of a line of kind k is H: of an II its own, of any other the nearest II's.
fn historical_of(file: &[u8], marks: &[u32], k: u8, was: bool) -> bool
    requires { ReadIn file.now marks.now }
    ensures { result ≡ historical_by (rec_in file.now marks.now) k was }
{
    if k == II {
        rules_forms::is_historical(judged(file, marks, 5))
    } else {
        was
    }
}

// The vaccine of the II of a line of kind k: of an II its own, of any other the nearest II's.
fn vaccine_of(file: &[u8], marks: &[u32], k: u8, was: Span) -> Span
    ensures { result ≡ vaccine_by file.now marks.now k was }
{
    if k == II {
        judged_span(file, marks, 8)
    } else {
        was
    }
}

// The day of the record that a line of kind k belongs to: an II's or an IN's own, an IE's of the nearest II, an IA's of the nearest IN.
fn day_of(
    file: &[u8],
    marks: &[u32],
    k: u8,
    ii_day: Option<u32>,
    in_day: Option<u32>,
) -> Option<u32>
    requires { ReadIn file.now marks.now }
    ensures { result ≡ day_by (rec_in file.now marks.now) k ii_day in_day }
{
    match k {
        II => day_in(file, marks, 6),
        IE => ii_day,
        IN => day_in(file, marks, 5),
        _ => in_day,
    }
}

// What is known of the line that was read, whose block and facts these are.
fn here_of(file: &[u8], marks: &[u32], r: Read, st: State, b: BlockAt, facts: Facts) -> Here
    requires read_as { ReadAs file.now marks.now r }
    requires holds { Holds file.now r.at st }
    ensures value { result ≡ here_with file.now marks.now r st b facts result.own }
    ensures own_end { OwnEnd file.now facts.joined r.next result.own }
{
    let k = r.kind;
    let next = r.next;
    let known = st.known;
    let block = st.block;
    let own = own_end(file, facts.joined, next);
    let historical = historical_of(file, marks, k, known.historical);
    let vaccine = vaccine_of(file, marks, k, known.vaccine);
    let day = day_of(file, marks, k, known.ii_day, known.in_day);
    let uli = known.uli;
    let first = block.first;
    Here {
        kind: k,
        historical,
        n: st.n,
        place: st.place,
        at: r.at,
        next,
        uli,
        born: known.born,
        vaccine,
        day,
        since: st.since,
        block: b.from,
        own,
        first,
        facts,
        again: false,
        differ: false,
    }
}

// What is known of the line that was read.
fn see(
    file: &[u8],
    marks: &[u32],
    r: Read,
    st: State,
    table: &[u8],
    ledger: &[u8],
    live: usize,
) -> Here
    requires read_as { ReadAs file.now marks.now r }
    requires holds { Holds file.now r.at st }
    ensures { HereIs file.now r.at st table.now ledger.now live result }
{
    let block = st.block;
    let last = block.last;
    let b = block_of(file, marks, r.kind, r.at, last, block.run);
    let facts = facts_of(file, marks, table, ledger, live, b);
    here_of(file, marks, r, st, b, facts)
}

// Reads the line that starts at a position.
fn read(file: &[u8], marks: &mut [u32], at: usize) -> Read
    requires at_in_bounds { at < length file.now }
    requires file_len_bound { length file.now ≤ file_most }
    requires marks_len { length marks.old ≡ mark_count }
    ensures at_value { result.at ≡ at }
    ensures read_as { ReadAs file.now marks.new result }
{
    let l = lines_fields::read_line(file, at, marks);
    let end = l.end;
    let kind = lines::kind_of(part(file, at, end));
    Read {
        at,
        next: l.next,
        kind,
    }
}

// Reads the line that starts at a position, and tells what is known of it.
pub(crate) fn look(
    file: &[u8],
    marks: &mut [u32],
    at: usize,
    st: State,
    table: &[u8],
    ledger: &[u8],
    live: usize,
) -> Here
    requires { LookAt file.now marks.old at st }
    ensures here_is { HereIs file.now at st table.now ledger.now live result }
    ensures marks_after { marks.new ≡ marks_at file.now at }
{
    let r = read(file, marks, at);
    see(file, marks, r, st, table, ledger, live)
}
