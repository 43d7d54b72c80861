// Patients: an IP, its immunizations with lots of one event together, and then its IN with their IA.
ghost use Rattle.std.specs.Prelude.{◌≡◌, true, ◌≤◌, ◌<◌, length, drop};
ghost use Rattle.house.specs.Text.{all, after_front};
ghost use Rattle.chart_definitions.specs.Charts.{charted_in, well_formed};
ghost use Rattle.chart_definitions.specs.Lots.{of_immunization, in_writing_order};
ghost use Rattle.chart_records.specs.Reading.{record_end};
ghost use Rattle.chart.specs.Inside.{is_sound, lot_places, lots_in, behind_at, rest_at, patient_at, Behind, Patients, Can, Puts, PutsTo};

use crate::Spot;
use crate::lots::{gather, put_immunizations};
use crate::runs::{put_front, put_next};
use lines::{IA, IN};

// The immunizations from a position on; the room for their positions is lent.
fn put_gathered(
    out: &mut [u8],
    chart: &[u8],
    spot: Spot,
    places: &mut [u32],
    room: &mut [u64],
) -> Spot
    requires chart_value { all well_formed (charted_in (drop spot.at chart.now)) ≡ true }
    requires chart_len_bound { length chart.now < 4294967296 }
    requires chart_in_bounds { length (lot_places spot.at (charted_in (drop spot.at chart.now))) ≤ length places.old }
    requires can { Can (lots_in chart.now spot.at) spot out.old }
    ensures { PutsTo chart.now (lots_in chart.now spot.at)
        (after_front of_immunization (charted_in (drop spot.at chart.now))) spot result out.old out.new }
{
    let at = spot.at;
    let n = gather(chart, at, places);
    put_immunizations(out, chart, spot, &mut places[..n], room)
}

// What stands behind an IP, from a position on.
fn put_behind(
    out: &mut [u8],
    chart: &[u8],
    spot: Spot,
    places: &mut [u32],
    room: &mut [u64],
) -> Spot
    requires behind { Behind chart.now spot.at places.old }
    requires can { Can (behind_at chart.now spot.at) spot out.old }
    ensures { PutsTo chart.now (behind_at chart.now spot.at) (rest_at chart.now spot.at) spot result
        out.old out.new }
{
    let next = put_gathered(out, chart, spot, places, room);
    put_front(out, chart, next, IN, IA)
}

// The patient whose IP is at a position.
fn put_patient(
    out: &mut [u8],
    chart: &[u8],
    spot: Spot,
    places: &mut [u32],
    room: &mut [u64],
) -> Spot
    requires at_value { is_sound chart.now spot.at ≡ true }
    requires behind { Behind chart.now (record_end chart.now spot.at) places.old }
    requires can { Can (patient_at chart.now spot.at) spot out.old }
    ensures { PutsTo chart.now (patient_at chart.now spot.at)
        (rest_at chart.now (record_end chart.now spot.at)) spot result out.old out.new }
{
    let next = put_next(out, chart, spot);
    put_behind(out, chart, next, places, room)
}

// The patients from a position on.
pub(crate) fn put_patients(
    out: &mut [u8],
    chart: &[u8],
    mut spot: Spot,
    places: &mut [u32],
    room: &mut [u64],
) -> Spot
    requires patients { Patients chart.now spot.at spot.number places.old }
    requires can { Can (in_writing_order (charted_in (drop spot.at chart.now))) spot out.old }
    ensures { Puts (in_writing_order (charted_in (drop spot.at chart.now))) spot result out.old out.new }
{
    // Not a `for`: the position jumps from patient to patient.
    while spot.at < chart.len() {
        spot = put_patient(out, chart, spot, places, room);
    }
    spot
}
