// How long the written lines are.
ghost use Rattle.std.specs.Prelude.{◌≡◌, ◌+◌, ◌-◌, ◌<◌, ◌≤◌, length, take, drop};
ghost use Rattle.blanks.specs.Blanks.{trimmed};
ghost use Rattle.writing.specs.Writing.{decimal};
ghost use Rattle.chart_definitions.specs.Charts.{widths_of};
ghost use Rattle.chart_definitions.specs.Submissions.{type_text, record_text};
ghost use Rattle.chart_records.specs.Reading.{charted_at, fits_in};
ghost use Rattle.chart_records.specs.Inside.{cut_length, given_length};

use crate::kinds::{ahead, kind_at, record_end};
use crate::widths::widths_of;
use lines::{IA, IE, II, IN, IP};
use writing::number_length;

// Beside type, number and fields a record's line has the pipes behind type and number, and LF.
pub(crate) const MARKS: usize = 3;

// Beside its count the footer has IF, 0, three pipes and LF.
pub(crate) const FOOTER: usize = 7;

// How long the record type of a kind is.
#[tactic(auto, unfolding(chart_definitions::specs::Submissions::type_text))]
pub(crate) fn type_length(kind: u8) -> usize
    ensures value { result ≡ length (type_text kind) }
    ensures upper_bound { result ≤ 2 }
{
    match kind {
        IP | II | IE | IN | IA => 2,
        _ => 0,
    }
}

// How long a field is without the blanks at its ends.
fn field_length(body: &[u8], at: usize, end: usize) -> usize
    requires at_le_end { at ≤ end }
    requires end_in_bounds { end ≤ length body.now }
    ensures value { result ≡ length (trimmed (take (end - at) (drop at body.now))) }
    ensures upper_bound { result ≤ end - at }
{
    let field = blanks::trim(&body[at..end]);
    field.len()
}

// How many bytes are written of a record's fields: of each what is left without the blanks at its ends, and its pipe. Of those behind the last
// byte that is no blank only the pipes are counted.
pub(crate) fn fields_length(body: &[u8], kind: u8) -> usize
    ensures value { result ≡ cut_length (widths_of kind) body.now }
    ensures upper_bound { result ≤ length body.now + 25 }
{
    let widths = widths_of(kind);
    let body = blanks::trim_end(body);
    let mut long = widths.len();
    let mut at = 0;
    for width in widths {
        if body.len() <= at {
            return long;
        }
        let end = ahead(at, *width, body.len());
        long += field_length(body, at, end);
        at = end;
    }
    long
}

// How many bytes are written of the fields of the record at a position.
fn given_length(chart: &[u8], at: usize) -> usize
    requires { at < length chart.now }
    ensures value { result ≡ given_length (charted_at chart.now at) }
    ensures upper_bound { result ≤ length chart.now + 25 }
{
    let from = at + 1;
    let end = record_end(chart, at);
    fields_length(&chart[from..end], kind_at(chart, at))
}

// How many digits a number has.
pub(crate) fn digits(n: usize) -> usize
    ensures value { result ≡ length (decimal n) }
    ensures upper_bound { result ≤ 20 }
{
    number_length(n)
}

// How long the line of the record at a position is, as number n.
fn record_length(chart: &[u8], at: usize, n: usize) -> usize
    requires { at < length chart.now }
    ensures { result ≡ length (record_text n (charted_at chart.now at)) }
{
    type_length(kind_at(chart, at)) + digits(n) + given_length(chart, at) + MARKS
}

// Whether the lines of a chart's records and the footer take so many bytes at most: in one pass, which stops at the first record for whose
// line no room is left.
pub fn fits(chart: &[u8], room: usize) -> bool
    ensures { result ≡ fits_in chart.now room }
{
    let mut left = room;
    let mut at = 0;
    let mut n = 1;
    // Not a `for`: the position jumps from record to record.
    while at < chart.len() {
        let long = record_length(chart, at, n);
        if left < long {
            return false;
        }
        left -= long;
        at = record_end(chart, at);
        n += 1;
    }
    digits(n + 2) + FOOTER <= left
}
