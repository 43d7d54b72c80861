// Judging a file: every broken rule of every field, once, in order; the findings counted, and those that fit written.
#![tactic(auto)]

mod antigens;
mod blocks;
mod emit;
mod fields;
mod file_walk;
mod line;
mod look;
mod lots;
mod pass;
mod questions;
mod room;
mod sets;
mod vaccine;
mod walk;

use book::Sections;
use lines_fields::Span;
pub use pass::judge;
use rules_fields::Facts;
pub use rules_walk::{MOST_BYTES, count_of, keep, part_of};

// What a file is judged by, beside the book and the ledger: today, where the kinds of the book stand, and how many events are live.
#[derive(Clone, Copy)]
pub struct By {
    pub today: u32,
    pub sections: Sections,
    pub live: usize,
}

// A short file, for which small buffers serve.
const SHORT_FILE: usize = 16384;

// Lists of so many lines at most are scanned; longer ones go to a room.
const FEW_LINES: usize = 16;

// What is known at a line beside its marks, as `Seen` has it: its kind; whether its II 5 is H; its number, its place; where it and the next
// line start; its IP's ULI and day of birth; its II's vaccine; the day of its II or IN; where the IE lines just before it start; where its
// block starts; where its own IE lines end, and those of its block's first II; what the table of repeats and the ledger say of it; and what
// rules 12 to 14 ask of other lines: of an IE whether its antigen was given before, of an II whether its lot was, and whether its antigens
// differ from those of its block's first.
#[derive(Clone, Copy)]
struct Here {
    kind: u8,
    historical: bool,
    n: usize,
    place: usize,
    at: usize,
    next: usize,
    uli: Span,
    born: u32,
    vaccine: Span,
    day: Option<u32>,
    since: usize,
    block: usize,
    own: usize,
    first: Span,
    facts: Facts,
    again: bool,
    differ: bool,
}

// What a room for lists holds, each if it was made: up to `lots` the places of the file's lots, in order; from there to `firsts` those of a block's
// first II's antigens with their counts, and whether all of these are sound; from there to `owns` those of an II's antigens. And how many IE
// lines, and how many II lines of one block, have come one after the other: nothing but the choice between a scan and a list rests on that.
#[derive(Clone, Copy)]
struct Lists {
    lots: usize,
    lots_made: bool,
    first: Span,
    firsts: usize,
    first_made: bool,
    first_sound: bool,
    own: Span,
    owns: usize,
    own_made: bool,
    antigens_met: usize,
    lots_met: usize,
}

// An answer, and what the room holds after it was asked for.
#[derive(Clone, Copy)]
struct Asked {
    lists: Lists,
    found: bool,
}

// The answers for a line, and what the room holds after they were asked for.
#[derive(Clone, Copy)]
struct Answers {
    lists: Lists,
    again: bool,
    differ: bool,
}

// What is known of a line with the answers for it, and what the room holds after they were asked for.
#[derive(Clone, Copy)]
struct Answered {
    lists: Lists,
    here: Here,
}

// Fields 3, 4, 6 and 8 of an II, where they stand; nowhere where there is no such line.
#[derive(Clone, Copy)]
struct Open {
    uli: Span,
    kind: Span,
    date: Span,
    vaccine: Span,
}

// What later lines ask of the nearest IP, II and IN: the ULI and the day of birth; whether II 5 is H, the vaccine and the day; and the day.
#[derive(Clone, Copy)]
struct Known {
    uli: Span,
    born: u32,
    historical: bool,
    vaccine: Span,
    ii_day: Option<u32>,
    in_day: Option<u32>,
}

// The block that is open: its nearest II, where it starts, whether it has a second II, and the IE lines of its first.
#[derive(Clone, Copy)]
struct Block {
    last: Open,
    run: usize,
    many: bool,
    first: Span,
}

// What is known at the start of a line: its number; its place, if it is numbered; what the nearest IP, II and IN give; where the IE lines just
// before it start; the open block; how many IN lines there are so far.
#[derive(Clone, Copy)]
struct State {
    n: usize,
    place: usize,
    known: Known,
    since: usize,
    block: Block,
    not_immunized: usize,
}

// A line that was read: where it starts, where the next one starts, and its kind.
#[derive(Clone, Copy)]
struct Read {
    at: usize,
    next: usize,
    kind: u8,
}

// Whether a line is in a block, whether it joins the open one, and where its block starts.
#[derive(Clone, Copy)]
struct BlockAt {
    inb: bool,
    joined: bool,
    from: usize,
}

// How many blocks, findings and IN records a file has.
#[derive(Clone, Copy)]
pub struct Judged {
    pub blocks: usize,
    pub findings: usize,
    pub not_immunized: usize,
}
