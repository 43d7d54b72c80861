// The fields of a line found once: its marks, and each field as judged, read by them.
ghost use Rattle.std.specs.Prelude.{◌≡◌, ◌+◌, ◌≤◌, drop, length};
ghost use Rattle.lines_fields.specs.Lines.{line_of, fields_of, text_len, LineIs};
ghost use Rattle.lines_fields.specs.Inside.{part, Marked};
ghost use Rattle.lines_fields.specs.Marks.{judged_text, judged_of, mark_bytes, mark_count, marked_count, marks_at, marks_in, judged_in, judged_span, span};

use crate::fields::{field_at, field_of};
use crate::line::line_at;
use crate::{LineAt, MARKS, Span};
use house::wide;

// Fields are marked up to this number.
const MOST_MARKED: usize = 28;

// Where the number of fields stands among the marks.
const COUNT_MARK: usize = 29;

// The most bytes of a file whose lines are marked.
const MARK_BYTES: usize = 4294967295;

// Marks the start of the line from at to end, and each field after the first; how many fields there are.
fn mark_pipes(file: &[u8], at: usize, end: usize, marks: &mut [u32]) -> usize
    requires file_len_bound { length file.now ≤ mark_bytes }
    requires at_in_bounds { at ≤ length file.now }
    requires end_value { end ≡ at + text_len (drop at file.now) }
    requires marks_len { length marks.old ≡ mark_count }
    ensures value { result ≡ length (fields_of (line_of (drop at file.now)).text) }
    ensures upper_bound { result ≤ length file.now }
    ensures marked { Marked at (line_of (drop at file.now)).text (result + 1) marks.new }
{
    marks[0] = at as u32;
    let mut n: usize = 0;
    for i in at..end {
        if file[i] == b'|' {
            n += 1;
            if n <= MOST_MARKED {
                marks[n] = (i + 1) as u32;
            }
        }
    }
    n
}

// Marks the line from at to end.
fn mark(file: &[u8], at: usize, end: usize, marks: &mut [u32])
    requires file_len_bound { length file.now ≤ mark_bytes }
    requires at_in_bounds { at ≤ length file.now }
    requires end_value { end ≡ at + text_len (drop at file.now) }
    requires marks_len { length marks.old ≡ mark_count }
    ensures { marks.new ≡ marks_at file.now at }
{
    let n = mark_pipes(file, at, end, marks);
    let first = n + 1;
    for k in first..COUNT_MARK {
        marks[k] = end as u32;
    }
    marks[COUNT_MARK] = n as u32;
}

// Reads the line that starts at a position, and leaves its marks.
pub fn read_line(file: &[u8], at: usize, marks: &mut [u32]) -> LineAt
    ensures line_is { LineIs file.now at result }
    ensures marks_after { marks.new ≡ marks_in file.now at marks.old }
{
    let l = line_at(file, at);
    if marks.len() != MARKS {
        return l;
    }
    if MARK_BYTES < file.len() {
        return l;
    }
    if file.len() < at {
        return l;
    }
    let end = l.end;
    mark(file, at, end, marks);
    l
}

// How many fields a line with these marks has.
pub fn count_marked(marks: &[u32]) -> usize
    ensures { result ≡ marked_count marks.now }
{
    if marks.len() < MARKS {
        return 0;
    }
    wide(marks[COUNT_MARK])
}

// The part of a field that is judged: all of it.
fn judged_part(start: usize, end: usize) -> Span
    ensures { result ≡ span start end }
{
    Span { start, end }
}

// Where field f as judged stands, counted from 1, of the line with these marks; nowhere where it is not marked.
pub fn judged_span(file: &[u8], marks: &[u32], f: usize) -> Span
    ensures { result ≡ judged_span file.now marks.now f }
{
    let none = Span { start: 0, end: 0 };
    if marks.len() != MARKS {
        return none;
    }
    if f == 0 {
        return none;
    }
    if MOST_MARKED < f {
        return none;
    }
    if wide(marks[COUNT_MARK]) < f {
        return none;
    }
    let start = wide(marks[f - 1]);
    let stop = wide(marks[f]);
    if stop <= start {
        return none;
    }
    if file.len() < stop {
        return none;
    }
    judged_part(start, stop - 1)
}

// Field f as judged, counted from 1, of the line with these marks; empty where it is not marked.
pub fn judged<'a>(file: &'a [u8], marks: &[u32], f: usize) -> &'a [u8]
    ensures { result.now ≡ judged_in file.now marks.now f }
{
    let p = judged_span(file, marks, f);
    let start = p.start;
    let end = p.end;
    &file[start..end]
}

// A field as judged, as a part of its text.
fn as_judged(t: &[u8]) -> &[u8]
    ensures { result.now ≡ judged_text t.now }
{
    let p = judged_part(0, t.len());
    let start = p.start;
    let end = p.end;
    &t[start..end]
}

// Field f of a line's text as judged, counted from 1; empty where it is not there.
pub fn judged_of(text: &[u8], f: usize) -> &[u8]
    ensures { result.now ≡ judged_of text.now f }
{
    as_judged(field_of(text, f))
}

// Field f as judged, counted from 1, of the line that starts at a position; empty where it is not there.
pub fn judged_at(file: &[u8], at: usize, f: usize) -> &[u8]
    ensures { result.now ≡ judged_of (line_of (drop at file.now)).text f }
{
    as_judged(field_at(file, at, f))
}

// The part of a text from one position to another, as far as it is there.
pub fn part(text: &[u8], from: usize, to: usize) -> &[u8]
    ensures { result.now ≡ part text.now from to }
{
    text.get(from..to.min(text.len())).unwrap_or(&text[..0])
}
