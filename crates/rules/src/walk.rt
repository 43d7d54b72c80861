// The walk over the lines: the state at the start of a line, and how it goes on.
ghost use Rattle.std.specs.Prelude.{◌≡◌, ◌+◌, ◌^◌, ◌<◌};
ghost use Rattle.rules.specs.Walk.{ReadIn, rec_in, no_open, start_state};
ghost use Rattle.rules.specs.Advance.{next_place, next_uli, next_born, next_day, next_since, open_in, next_open, next_run, next_many, next_first, next_not_immunized, next_known, next_block, advanced};

use crate::look::day_in;
use crate::{Block, Here, Known, Open, State};
use lines_fields::{Span, judged_span};

// The place of the next line, if it is numbered.
fn next_place(place: usize, k: u8) -> usize
    requires { place + 1 < 2 ^ 64 }
    ensures { result ≡ next_place place k }
{
    match k {
        lines::IP..=lines::IA => place + 1,
        _ => place,
    }
}

// The ULI of the nearest IP.
fn next_uli(file: &[u8], marks: &[u32], k: u8, was: Span) -> Span
    ensures { result ≡ next_uli file.now marks.now k was }
{
    if k == lines::IP {
        judged_span(file, marks, 3)
    } else {
        was
    }
}

// The day of birth that the nearest IP gives, 0 where it gives none.
fn next_born(file: &[u8], marks: &[u32], k: u8, was: u32) -> u32
    requires { ReadIn file.now marks.now }
    ensures { result ≡ next_born (rec_in file.now marks.now) k was }
{
    if k == lines::IP {
        day_in(file, marks, 25).unwrap_or(0)
    } else {
        was
    }
}

// The day of the nearest line of kind j.
fn next_day(j: u8, was: Option<u32>, k: u8, day: Option<u32>) -> Option<u32>
    ensures { result ≡ next_day j was k day }
{
    if k == j { day } else { was }
}

// Where the IE lines just before the next line start.
fn next_since(since: usize, k: u8, next: usize) -> usize
    ensures { result ≡ next_since since k next }
{
    if k == lines::IE { since } else { next }
}

// Where fields 3, 4, 6 and 8 of a line stand.
fn open_of(file: &[u8], marks: &[u32]) -> Open
    ensures { result ≡ open_in file.now marks.now }
{
    let uli = judged_span(file, marks, 3);
    let kind = judged_span(file, marks, 4);
    let date = judged_span(file, marks, 6);
    let vaccine = judged_span(file, marks, 8);
    Open {
        uli,
        kind,
        date,
        vaccine,
    }
}

// Where no line stands.
fn no_open() -> Open
    ensures { result ≡ no_open }
{
    let none = Span { start: 0, end: 0 };
    Open {
        uli: none,
        kind: none,
        date: none,
        vaccine: none,
    }
}

// The nearest II of the open block.
fn next_open(file: &[u8], marks: &[u32], was: Open, k: u8, inb: bool) -> Open
    ensures { result ≡ next_open file.now marks.now was k inb }
{
    if k == lines::IE {
        return was;
    }
    if inb { open_of(file, marks) } else { no_open() }
}

// Where the open block starts.
fn next_run(run: usize, k: u8, inb: bool, from: usize, next: usize) -> usize
    ensures { result ≡ next_run run k inb from next }
{
    if k == lines::IE {
        return run;
    }
    if inb { from } else { next }
}

// Whether the open block has a second II.
fn next_many(many: bool, k: u8, joined: bool) -> bool
    ensures { result ≡ next_many many k joined }
{
    if k == lines::IE { many } else { joined }
}

// The IE lines of the open block's first II.
fn next_first(first: Span, many: bool, k: u8, joined: bool, next: usize) -> Span
    ensures { result ≡ next_first first many k joined next }
{
    if k == lines::IE {
        if many {
            return first;
        } else {
            return Span {
                start: first.start,
                end: next,
            };
        }
    }
    if joined {
        first
    } else {
        Span {
            start: next,
            end: next,
        }
    }
}

// How many IN lines there are so far.
fn next_not_immunized(n: usize, k: u8) -> usize
    requires { n + 1 < 2 ^ 64 }
    ensures { result ≡ next_not_immunized n k }
{
    if k == lines::IN { n + 1 } else { n }
}

// What later lines ask of the nearest IP, II and IN, after a line.
fn next_known(file: &[u8], marks: &[u32], was: Known, h: Here) -> Known
    requires { ReadIn file.now marks.now }
    ensures { result ≡ next_known file.now marks.now was h }
{
    let k = h.kind;
    let uli = next_uli(file, marks, k, was.uli);
    let vaccine = h.vaccine;
    Known {
        uli,
        born: next_born(file, marks, k, was.born),
        historical: h.historical,
        vaccine,
        ii_day: next_day(lines::II, was.ii_day, k, h.day),
        in_day: next_day(lines::IN, was.in_day, k, h.day),
    }
}

// The block that is open after a line.
fn next_block(file: &[u8], marks: &[u32], was: Block, h: Here) -> Block
    ensures { result ≡ next_block file.now marks.now was h }
{
    let k = h.kind;
    let facts = h.facts;
    let last = next_open(file, marks, was.last, k, facts.inb);
    let first = next_first(was.first, was.many, k, facts.joined, h.next);
    Block {
        last,
        run: next_run(was.run, k, facts.inb, h.block, h.next),
        many: next_many(was.many, k, facts.joined),
        first,
    }
}

// The state after a line.
pub(crate) fn advance(file: &[u8], marks: &[u32], st: State, h: Here) -> State
    requires read_in { ReadIn file.now marks.now }
    requires n_bound { (st.n + 1 < 2 ^ 64) × (st.place + 1 < 2 ^ 64) × (st.not_immunized + 1 < 2 ^ 64) }
    ensures { result ≡ advanced file.now marks.now st h }
{
    let k = h.kind;
    let known = next_known(file, marks, st.known, h);
    let block = next_block(file, marks, st.block, h);
    State {
        n: st.n + 1,
        place: next_place(st.place, k),
        known,
        since: next_since(st.since, k, h.next),
        block,
        not_immunized: next_not_immunized(st.not_immunized, k),
    }
}

// The state at the start of a file.
pub(crate) fn start() -> State
    ensures { result ≡ start_state }
{
    let none = Span { start: 0, end: 0 };
    let last = no_open();
    State {
        n: 1,
        place: 1,
        known: Known {
            uli: none,
            born: 0,
            historical: false,
            vaccine: none,
            ii_day: None,
            in_day: None,
        },
        since: 0,
        block: Block {
            last,
            run: 0,
            many: false,
            first: none,
        },
        not_immunized: 0,
    }
}
