// Where the given fields of a record end, found with its form: known kinds, whole records, bytes that may stand in a field, and guideline order.
ghost use Rattle.std.specs.Prelude.{◌≡◌, cond, ◌+◌, ◌-◌, ◌<◌, ◌≤◌, length, take, drop};
ghost use Rattle.house.specs.Text.{all, is_blank};
ghost use Rattle.chart_definitions.specs.Charts.{is_field_byte};
ghost use Rattle.chart_records.specs.Reading.{charted_at, right_after, comment_start};
ghost use Rattle.chart_records.specs.Inside.{given_end};

use crate::form::{BLANK, WRONG, form_of, is_field_bytes};
use crate::kinds::{body_width, kind_at};
use crate::notes::COMMENT_START;
use lines::{II, may_follow};

// Where fields end that stand from one position to another; 0 if a byte may not stand in a field.
fn fields_end(chart: &[u8], from: usize, end: usize) -> usize
    requires from_le_end { from ≤ end }
    requires end_in_bounds { end ≤ length chart.now }
    ensures { result ≡ cond (all is_field_byte (take (end - from) (drop from chart.now))) end 0 }
{
    if is_field_bytes(&chart[from..end]) {
        return end;
    }
    0
}

// Where those of an immunization end: before its comment where that is blank.
fn immunization_end(chart: &[u8], from: usize, end: usize) -> usize
    requires comment_start_bound { from + comment_start ≤ end }
    requires end_in_bounds { end ≤ length chart.now }
    ensures { result ≡ cond (all is_field_byte (take (end - from) (drop from chart.now)))
        (cond (all is_blank (drop comment_start (take (end - from) (drop from chart.now)))) (from + comment_start) end) 0 }
{
    let comment = from + COMMENT_START;
    if is_field_bytes(&chart[from..comment]) {
        return match form_of(&chart[comment..end]) {
            WRONG => 0,
            BLANK => comment,
            _ => end,
        };
    }
    0
}

// Where the given fields of the record at a position end; 0 if it is not of right form, or may not follow one of kind p.
pub(crate) fn right_end(chart: &[u8], at: usize, p: u8) -> usize
    requires { at < length chart.now }
    ensures { result ≡ cond (right_after p (charted_at chart.now at)) (given_end chart.now at) 0 }
{
    let kind = kind_at(chart, at);
    if may_follow(p, kind) {
        let from = at + 1;
        let width = body_width(kind);
        if chart.len() - from < width {
            return 0;
        }
        if kind == II {
            return immunization_end(chart, from, from + width);
        }
        return fields_end(chart, from, from + width);
    }
    0
}
