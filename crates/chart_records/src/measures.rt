// A chart measured in one pass: its form, and whether what is written of it fits.
ghost use Rattle.std.specs.Prelude.{◌≡◌, true, cond, ◌+◌, ◌-◌, ◌<◌, ◌≤◌, length, take, drop};
ghost use Rattle.chart_definitions.specs.Charts.{widths_of, well_formed};
ghost use Rattle.chart_definitions.specs.Submissions.{record_text, RECORD, ROOM};
ghost use Rattle.chart_records.specs.Reading.{charted_at, measured, notes_of};
ghost use Rattle.chart_records.specs.Inside.{cut_length, given_end, left_after, answer_of};

use crate::given::right_end;
use crate::kinds::{kind_at, record_end};
use crate::lengths::{FOOTER, MARKS, digits, fields_length, type_length};
use crate::notes::note;
use lines::{IF, IH, may_follow};

pub const RECORD: u32 = 8;

pub const ROOM: u32 = 9;

// How many bytes are written of fields from one position to another.
fn part_length(chart: &[u8], from: usize, end: usize, kind: u8) -> usize
    requires from_le_end { from ≤ end }
    requires end_in_bounds { end ≤ length chart.now }
    ensures value { result ≡ cut_length (widths_of kind) (take (end - from) (drop from chart.now)) }
    ensures upper_bound { result ≤ length chart.now + 25 }
{
    fields_length(&chart[from..end], kind)
}

// How long the line of the record at a position is, as number n, where its given fields end at a position.
fn line_length(chart: &[u8], at: usize, end: usize, n: usize) -> usize
    requires at_in_bounds { at < length chart.now }
    requires at_value { well_formed (charted_at chart.now at) ≡ true }
    requires end_value { end ≡ given_end chart.now at }
    ensures { result ≡ length (record_text n (charted_at chart.now at)) }
{
    let kind = kind_at(chart, at);
    type_length(kind) + digits(n) + part_length(chart, at + 1, end, kind) + MARKS
}

// Takes the line of the record at a position, whose given fields end at a position, off the room. Where that has run out, it is not looked at.
fn take_off(chart: &[u8], at: usize, end: usize, n: usize, left: Option<usize>) -> Option<usize>
    requires at_in_bounds { at < length chart.now }
    requires at_value { well_formed (charted_at chart.now at) ≡ true }
    requires end_value { end ≡ given_end chart.now at }
    ensures { result ≡ left_after left (length (record_text n (charted_at chart.now at))) }
{
    left?.checked_sub(line_length(chart, at, end, n))
}

// What a chart is refused with that does not fit: RECORD where it is not right.
fn refusal(right: bool) -> u32
    ensures { result ≡ cond right ROOM RECORD }
{
    if right { ROOM } else { RECORD }
}

// What measuring answers where it ends, by whether the chart is right and what is left of the room; n would be the number of the next record.
fn answer(right: bool, n: usize, left: Option<usize>) -> u32
    requires { n + 2 < 18446744073709551616 }
    ensures { result ≡ answer_of right n left }
{
    let Some(left) = left else {
        return refusal(right);
    };
    if right {
        if left < digits(n + 2) + FOOTER {
            return ROOM;
        }
        return 0;
    }
    RECORD
}

// Measures a chart, in one pass: whether it is of right form, and whether its lines and the footer take so many bytes at most. Notes
// immunizations without a comment.
pub fn measure(chart: &[u8], room: usize, notes: &mut [u32]) -> u32
    ensures value { result ≡ measured chart.now room }
    ensures notes_after { notes.new ≡ notes_of chart.now notes.old }
{
    let mut left = Some(room);
    let mut at = 0;
    let mut n = 1;
    let mut p: u8 = IH;
    // Not a `for`: the position jumps from record to record.
    while at < chart.len() {
        let end = right_end(chart, at, p);
        if end == 0 {
            return answer(false, n, left);
        }
        note(notes, at, end);
        left = take_off(chart, at, end, n, left);
        p = kind_at(chart, at);
        at = record_end(chart, at);
        n += 1;
    }
    answer(may_follow(p, IF), n, left)
}
