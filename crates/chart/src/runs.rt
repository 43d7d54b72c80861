// Records written one after the other, as they stand in the chart.
ghost use Rattle.std.specs.Prelude.{◌≡◌, true, [], ◌∷◌, drop};
ghost use Rattle.house.specs.Text.{all, front, after_front};
ghost use Rattle.chart_definitions.specs.Charts.{charted_in, well_formed};
ghost use Rattle.chart_records.specs.Reading.{record_end};
ghost use Rattle.chart_records.specs.Inside.{charted_at};
ghost use Rattle.chart.specs.Inside.{of_kinds, shot_at, is_sound, Can, Puts, PutsTo};

use crate::Spot;
use crate::records::put_record;
use chart_records::{kind_at, record_end};
use lines::IE;

// The record at a position.
pub(crate) fn put_next(out: &mut [u8], chart: &[u8], spot: Spot) -> Spot
    requires at_value { is_sound chart.now spot.at ≡ true }
    requires can { Can (charted_at chart.now spot.at ∷ []) spot out.old }
    ensures puts { Puts (charted_at chart.now spot.at ∷ []) spot result out.old out.new }
    ensures at_value_2 { result.at ≡ record_end chart.now spot.at }
{
    let at = spot.at;
    let number = spot.number;
    let pos = put_record(out, spot.pos, number, chart, at);
    Spot {
        at: record_end(chart, at),
        number: number + 1,
        pos,
    }
}

// Whether the record at a position is of one of two kinds.
fn is_of(chart: &[u8], at: usize, a: u8, b: u8) -> bool
    ensures { result ≡ of_kinds a b (charted_at chart.now at) }
{
    let kind = kind_at(chart, at);
    kind == a || kind == b
}

// The records from a position on, as long as they are of two kinds.
pub(crate) fn put_front(out: &mut [u8], chart: &[u8], mut spot: Spot, a: u8, b: u8) -> Spot
    requires chart_value { all well_formed (charted_in (drop spot.at chart.now)) ≡ true }
    requires can { Can (front (of_kinds a b) (charted_in (drop spot.at chart.now))) spot out.old }
    ensures { PutsTo chart.now (front (of_kinds a b) (charted_in (drop spot.at chart.now)))
        (after_front (of_kinds a b) (charted_in (drop spot.at chart.now))) spot result out.old out.new }
{
    // Not a `for`: the position jumps from record to record.
    while spot.at < chart.len() {
        if is_of(chart, spot.at, a, b) {
            spot = put_next(out, chart, spot);
        } else {
            return spot;
        }
    }
    spot
}

// An immunization: the II at a position, and its IE.
pub(crate) fn put_immunization(out: &mut [u8], chart: &[u8], spot: Spot) -> Spot
    requires at_value { is_sound chart.now spot.at ≡ true }
    requires can { Can (shot_at chart.now spot.at) spot out.old }
    ensures { Puts (shot_at chart.now spot.at) spot result out.old out.new }
{
    let behind = put_next(out, chart, spot);
    put_front(out, chart, behind, IE, IE)
}
