// The form of a chart: known kinds, whole records, bytes that may stand in a field, and guideline order.
ghost use Rattle.std.specs.Prelude.{◌≡◌, ◌<◌, length};
ghost use Rattle.house.specs.Text.{all};
ghost use Rattle.chart_definitions.specs.Charts.{is_field_byte, is_chart};
ghost use Rattle.chart_records.specs.Reading.{charted_at, right_after};
ghost use Rattle.chart_records.specs.Inside.{lifted_of, form_of};

use crate::kinds::{body_width, kind_at, record_end};
use house::{greater_byte, lesser_byte};
use lines::{IF, IH, may_follow};

// Bytes may not all stand in a field; or are all blanks; or are others.
pub(crate) const WRONG: u8 = 0;

pub(crate) const BLANK: u8 = 1;

const TEXT: u8 = 2;

// A byte where the greatest is looked for: a pipe counts as the greatest of all.
fn lifted(b: u8) -> u8
    ensures { result ≡ lifted_of b }
{
    if b == b'|' {
        return u8::MAX;
    }
    b
}

// Whether each byte lies in 32..126 and none is a pipe, and whether all are blanks: by the least and the greatest, which are found many bytes
// at a time.
pub(crate) fn form_of(bytes: &[u8]) -> u8
    ensures { result ≡ form_of bytes.now }
{
    let mut least = b' ';
    let mut most = b' ';
    for b in bytes {
        least = lesser_byte(least, *b);
        most = greater_byte(most, lifted(*b));
    }
    if least < b' ' {
        return WRONG;
    }
    if b'~' < most {
        return WRONG;
    }
    if b' ' < most {
        return TEXT;
    }
    BLANK
}

// Whether each byte may stand in a field.
pub(crate) fn is_field_bytes(bytes: &[u8]) -> bool
    ensures { result ≡ all is_field_byte bytes.now }
{
    form_of(bytes) != WRONG
}

// Whether the record at a position is of right form, and may follow one of kind p.
fn is_right_at(chart: &[u8], at: usize, p: u8) -> bool
    requires { at < length chart.now }
    ensures { result ≡ right_after p (charted_at chart.now at) }
{
    let kind = kind_at(chart, at);
    if may_follow(p, kind) {
        let from = at + 1;
        let width = body_width(kind);
        if chart.len() - from < width {
            return false;
        }
        return is_field_bytes(&chart[from..from + width]);
    }
    false
}

// Whether a chart is of right form, in one pass from record to record, which stops at the first that is not.
pub fn is_chart(chart: &[u8]) -> bool
    ensures { result ≡ is_chart chart.now }
{
    let mut at = 0;
    let mut p: u8 = IH;
    // Not a `for`: the position jumps from record to record.
    while at < chart.len() {
        if is_right_at(chart, at, p) {
            p = kind_at(chart, at);
            at = record_end(chart, at);
        } else {
            return false;
        }
    }
    may_follow(p, IF)
}
