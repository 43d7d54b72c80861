// Reading lines: the lines of a file of any shape, and the fields of a line.
#![tactic(auto)]

mod fields;
mod line;
mod marks;

pub use fields::{
    count_fields, field, field_from, field_of, field_position, field_start, find_field, has_field,
    start_at,
};
pub use line::{line_at, lines_on};
pub use marks::{count_marked, judged, judged_at, judged_of, judged_span, part, read_line};

// How many marks a line has: where each of its first 28 fields starts, where the text ends, and how many fields there are.
pub const MARKS: usize = 30;

// A line in its file: where its text ends, where the next line starts, and whether an LF ends it.
#[derive(Clone, Copy)]
pub struct LineAt {
    pub end: usize,
    pub next: usize,
    pub lf: bool,
}

// A field in its file: whether it is there, where its text starts, and how long it is; 0 and 0 where it is not there.
// No `Option`: `place_in`, by which the contract of `find_field` says it, is such a record.
#[derive(Clone, Copy)]
pub struct FieldPlace {
    pub there: bool,
    pub start: usize,
    pub length: usize,
}

// A part of a text, from a position to another.
#[derive(Clone, Copy)]
pub struct Span {
    pub start: usize,
    pub end: usize,
}
