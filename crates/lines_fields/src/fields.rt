// The fields of a line: texts that a pipe ends.
ghost use Rattle.std.specs.Prelude.{◌≡◌, ◌==◌, ◌+◌, ◌≤◌, drop, length, position};
ghost use Rattle.lines_fields.specs.Lines.{line_of, fields_of, field_of, field_text, field_there, fields_len, field_position, place_in};

use crate::FieldPlace;
use crate::line::{ending, line_start, line_text};

// How many fields a text of few bytes has: counted in a byte, so that many bytes are looked at at a time.
fn count_few(text: &[u8]) -> u8
    requires { length text.now ≤ 255 }
    ensures { result ≡ length (fields_of text.now) }
{
    let mut n: u8 = 0;
    for b in text {
        if *b == b'|' {
            n += 1;
        }
    }
    n
}

// How many fields a line's text has.
pub fn count_fields(text: &[u8]) -> usize
    ensures { result ≡ length (fields_of text.now) }
{
    let mut n: usize = 0;
    for few in text.chunks(255) {
        n += count_few(few) as usize;
    }
    n
}

// Where a search for the start of a field has come to, and how many fields are left to pass.
#[derive(Clone, Copy)]
struct Passed {
    at: usize,
    left: usize,
}

// Passes over bytes, sixteen at a time, in which fewer fields end than are left to pass. Few fields are not worth it.
fn pass_over(text: &[u8], f: usize) -> Passed
    requires { 1 ≤ f }
    ensures le_left { 1 ≤ result.left }
    ensures text_value { fields_len f text.now ≡ result.at + fields_len result.left (drop result.at text.now) }
{
    let mut p = Passed { at: 0, left: f };
    if f < 4 {
        return p;
    }
    for run in text.chunks_exact(16) {
        let n = count_few(run) as usize;
        if p.left <= n {
            return p;
        }
        p.at += run.len();
        p.left -= n;
    }
    p
}

// Where the field after f fields starts, or the text's end.
pub fn field_start(text: &[u8], f: usize) -> usize
    ensures { result ≡ fields_len f text.now }
{
    if f == 0 {
        return 0;
    }
    let p = pass_over(text, f);
    let mut left = p.left;
    for i in p.at..text.len() {
        if text[i] == b'|' {
            if left == 1 {
                return i + 1;
            }
            left -= 1;
        }
    }
    text.len()
}

// Where the first pipe of a text stands.
fn first_pipe(text: &[u8]) -> Option<usize>
    ensures { result ≡ position (λ b. b == 124) text.now }
{
    text.iter().position(|b| *b == b'|')
}

// The first field of a text; empty where no pipe ends it.
fn first_field(text: &[u8]) -> &[u8]
    ensures { result.now ≡ field_of text.now 1 }
{
    match first_pipe(text) {
        Some(end) => &text[..end],
        None => &text[..0],
    }
}

// Field f of a line's text, counted from 1; empty where it is not there.
pub fn field_of(text: &[u8], f: usize) -> &[u8]
    ensures { result.now ≡ field_of text.now f }
{
    if f == 0 {
        return &text[..0];
    }
    let start = field_start(text, f - 1);
    first_field(&text[start..])
}

// The field that starts at a position of a line's text; empty where no pipe ends it.
pub fn field_from(text: &[u8], at: usize) -> &[u8]
    ensures { result.now ≡ field_of (drop at text.now) 1 }
{
    if text.len() < at {
        return &text[..0];
    }
    first_field(&text[at..])
}

// Where the field after f fields of the line that starts at a position starts, or the end of the line's text.
pub fn start_at(file: &[u8], at: usize, f: usize) -> usize
    ensures { result ≡ at + fields_len f (line_of (drop at file.now)).text }
{
    if f == 0 {
        return at;
    }
    let mut more = f;
    for i in at..file.len() {
        let b = file[i];
        if b == b'|' {
            if more == 1 {
                return i + 1;
            }
            more -= 1;
        } else if b < 14 {
            let e = ending(file, i);
            if e != 0 {
                return i;
            }
        }
    }
    file.len().max(at)
}

// Where the field that starts at a position ends; that position where no pipe ends it within its line.
fn field_end(file: &[u8], at: usize) -> usize
    ensures { result ≡ at + length (field_of (line_of (drop at file.now)).text 1) }
{
    for i in at..file.len() {
        let b = file[i];
        if b == b'|' {
            return i;
        }
        if b < 14 {
            let e = ending(file, i);
            if e != 0 {
                return at;
            }
        }
    }
    at
}

// Field f of the line that starts at a position, counted from 1; empty where it is not there.
pub(crate) fn field_at(file: &[u8], at: usize, f: usize) -> &[u8]
    ensures { result.now ≡ field_of (line_of (drop at file.now)).text f }
{
    if f == 0 {
        return &file[..0];
    }
    let start = start_at(file, at, f - 1);
    let end = field_end(file, start);
    if start < end {
        return &file[start..end];
    }
    &file[..0]
}

// Where field f of the line that starts at a position stands in the file, counted from 1.
pub fn find_field(file: &[u8], at: usize, f: usize) -> FieldPlace
    ensures { result ≡ place_in (line_of (drop at file.now)).text at f }
{
    let none = FieldPlace {
        there: false,
        start: 0,
        length: 0,
    };
    if f == 0 {
        return none;
    }
    let from = start_at(file, at, f - 1);
    let end = field_end(file, from);
    if file.len() <= end {
        return none;
    }
    if file[end] != b'|' {
        return none;
    }
    FieldPlace {
        there: true,
        start: from,
        length: end - from,
    }
}

// The text of field f of a line, both counted from 1; empty where it is not there.
pub fn field(file: &[u8], line: usize, f: usize) -> &[u8]
    ensures { result.now ≡ field_text file.now line f }
{
    field_of(line_text(file, line), f)
}

// Whether a line has a field f, both counted from 1.
pub fn has_field(file: &[u8], line: usize, f: usize) -> bool
    ensures { result ≡ field_there file.now line f }
{
    if f == 0 {
        return false;
    }
    f - 1 < count_fields(line_text(file, line))
}

// Where the text of field f of a line starts in the file; 0 where it is not there.
pub fn field_position(file: &[u8], line: usize, f: usize) -> usize
    ensures { result ≡ field_position file.now line f }
{
    if has_field(file, line, f) {
        let at = line_start(file, line - 1);
        let start = field_start(line_text(file, line), f - 1);
        at + start
    } else {
        0
    }
}
