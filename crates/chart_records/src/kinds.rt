// The records of a chart: their kinds, and where they end.
ghost use Rattle.std.specs.Prelude.{◌≡◌, ◌+◌, ◌≤◌, get_or};
ghost use Rattle.house.specs.Numbers.{lesser_of};
ghost use Rattle.chart_definitions.specs.Charts.{record_kind, body_width};
ghost use Rattle.chart_records.specs.Reading.{record_end};

use lines::{IA, IE, II, IN, IP};

// The kind that a byte of kind names, 0 for none.
#[tactic(auto, unfolding(chart_definitions::specs::Charts::record_kind))]
fn kind_of(b: u8) -> u8
    ensures { result ≡ record_kind b }
{
    match b {
        1 => IP,
        2 => II,
        3 => IE,
        4 => IN,
        5 => IA,
        _ => 0,
    }
}

// The kind of the record at a position, 0 for none.
pub fn kind_at(chart: &[u8], at: usize) -> u8
    ensures { result ≡ record_kind (get_or chart.now at 0) }
{
    if at < chart.len() {
        return kind_of(chart[at]);
    }
    0
}

// How many bytes the fields of a record of a kind have.
#[tactic(auto, unfolding(chart_definitions::specs::Charts::body_width, chart_definitions::specs::Charts::widths_of))]
pub fn body_width(kind: u8) -> usize
    ensures { result ≡ body_width kind }
{
    match kind {
        IP => 436,
        II => 1699,
        IE => 26,
        IN => 27,
        IA => 24,
        _ => 0,
    }
}

// So many places on from a position, or the end.
pub(crate) fn ahead(at: usize, n: usize, end: usize) -> usize
    requires { at ≤ end }
    ensures value { result ≡ lesser_of (at + n) end }
    ensures lower_bound { at ≤ result }
    ensures upper_bound { result ≤ end }
{
    at + n.min(end - at)
}

// Where the record at a position ends.
pub fn record_end(chart: &[u8], at: usize) -> usize
    ensures { result ≡ record_end chart.now at }
{
    let end = chart.len();
    if at < end {
        return ahead(at + 1, body_width(kind_at(chart, at)), end);
    }
    end
}
