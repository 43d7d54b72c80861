// The immunizations of a patient, lots of one event together.
ghost use Rattle.std.specs.Prelude.{◌≡◌, true, [], ◌∷◌, ◌-◌, ◌≤◌, ◌<◌, length, get_or, take, drop};
ghost use Rattle.house.specs.Text.{all, front, after_front, joined};
ghost use Rattle.house.specs.Over.{over};
ghost use Rattle.chart_definitions.specs.Charts.{charted_in, well_formed};
ghost use Rattle.chart_definitions.specs.Lots.{of_immunization};
ghost use Rattle.chart.specs.Inside.{shot_at, event_at, like, leads, run_of, lot_places, is_sound, is_among, lots_of, lots_in, Sorted, Ready, Can, Puts, PutsTo};

use crate::Spot;
use crate::hints::{index_of, order_lots};
use crate::runs::put_immunization;
use chart_records::{kind_at, record_end};
use lines::{IE, II};
use lines_words::{EVENT, one_key};

// The positions of the II records from a position on, as long as immunizations stand there; how many there are.
pub(crate) fn gather(chart: &[u8], at: usize, places: &mut [u32]) -> usize
    requires chart_value { all well_formed (charted_in (drop at chart.now)) ≡ true }
    requires chart_len_bound { length chart.now < 4294967296 }
    requires chart_in_bounds { length (lot_places at (charted_in (drop at chart.now))) ≤ length places.old }
    ensures value { result ≡ length (lot_places at (charted_in (drop at chart.now))) }
    ensures places_after { places.new ≡ over (lot_places at (charted_in (drop at chart.now))) places.old }
{
    let mut from = at;
    let mut n = 0;
    // Not a `for`: the position jumps from record to record.
    while from < chart.len() {
        let kind = kind_at(chart, from);
        let end = record_end(chart, from);
        if kind == II {
            places[n] = from as u32;
            n += 1;
            from = end;
            continue;
        }
        if kind == IE {
            from = end;
            continue;
        }
        return n;
    }
    n
}

// Whether the lot at an index, among lots in the order of their events, is the first of its event.
fn is_first(chart: &[u8], lots: &[u32], i: usize) -> bool
    requires { i < length lots.now }
    ensures { result ≡ leads (event_at chart.now) lots.now i }
{
    if i == 0 {
        return true;
    }
    !one_key(chart, EVENT, lots[i - 1], lots[i])
}

// Lots, one after the other.
fn put_each(out: &mut [u8], chart: &[u8], mut spot: Spot, lots: &[u32]) -> Spot
    requires lots_value { all (is_sound chart.now) lots.now ≡ true }
    requires can { Can (joined (shot_at chart.now) lots.now) spot out.old }
    ensures { Puts (joined (shot_at chart.now) lots.now) spot result out.old out.new }
{
    for lot in lots {
        spot.at = house::wide(*lot);
        spot = put_immunization(out, chart, spot);
    }
    spot
}

// Where the lots of one event end that stand together from an index on.
fn run_end(chart: &[u8], lots: &[u32], i: usize) -> usize
    requires { i < length lots.now }
    ensures lower_bound { i ≤ result }
    ensures upper_bound { result ≤ length lots.now }
    ensures lots_value { take (result - i) (drop i lots.now)
        ≡ front (like (event_at chart.now) (get_or lots.now i 0)) (drop i lots.now) }
{
    let lot = lots[i];
    for j in i..lots.len() {
        if !one_key(chart, EVENT, lot, lots[j]) {
            return j;
        }
    }
    lots.len()
}

// The lots of one event, which stand together from an index on.
fn put_run(out: &mut [u8], chart: &[u8], spot: Spot, lots: &[u32], i: usize) -> Spot
    requires i_in_bounds { i < length lots.now }
    requires lots_value { all (is_sound chart.now) lots.now ≡ true }
    requires can { Can (run_of chart.now lots.now i (get_or lots.now i 0)) spot out.old }
    ensures { Puts (run_of chart.now lots.now i (get_or lots.now i 0)) spot result out.old out.new }
{
    let end = run_end(chart, lots, i);
    put_each(out, chart, spot, &lots[i..end])
}

// The lots of the event of the II at a position, if it is the first of them.
fn put_event(out: &mut [u8], chart: &[u8], spot: Spot, lots: &[u32], hints: &[u64]) -> Spot
    requires sorted { Sorted chart.now lots.now }
    requires at_value { is_among lots.now spot.at ≡ true }
    requires at_bound { spot.at < 4294967296 }
    requires can { Can (lots_of chart.now lots.now (spot.at ∷ [])) spot out.old }
    ensures { Puts (lots_of chart.now lots.now (spot.at ∷ [])) spot result out.old out.new }
{
    let lot = spot.at as u32;
    let i = index_of(chart, lots, hints, lot);
    if is_first(chart, lots, i) {
        return put_run(out, chart, spot, lots, i);
    }
    spot
}

// The immunizations from a position on, by their lots in the order of their events.
fn put_lots(out: &mut [u8], chart: &[u8], mut spot: Spot, lots: &[u32], hints: &[u64]) -> Spot
    requires ready { Ready chart.now spot.at lots.now }
    requires can { Can (lots_of chart.now lots.now (lot_places spot.at (charted_in (drop spot.at chart.now)))) spot out.old }
    ensures { PutsTo chart.now
        (lots_of chart.now lots.now (lot_places spot.at (charted_in (drop spot.at chart.now))))
        (after_front of_immunization (charted_in (drop spot.at chart.now))) spot result out.old out.new }
{
    // Not a `for`: the position jumps from record to record.
    while spot.at < chart.len() {
        let kind = kind_at(chart, spot.at);
        let end = record_end(chart, spot.at);
        if kind == II {
            spot = put_event(out, chart, spot, lots, hints);
            spot.at = end;
            continue;
        }
        if kind == IE {
            spot.at = end;
            continue;
        }
        return spot;
    }
    spot
}

// The immunizations from a position on; the positions of their II records are lent, and are put in order.
pub(crate) fn put_immunizations(
    out: &mut [u8],
    chart: &[u8],
    spot: Spot,
    lots: &mut [u32],
    room: &mut [u64],
) -> Spot
    requires chart_value { all well_formed (charted_in (drop spot.at chart.now)) ≡ true }
    requires chart_len_bound { length chart.now < 4294967296 }
    requires lots_value { lots.old ≡ lot_places spot.at (charted_in (drop spot.at chart.now)) }
    requires can { Can (lots_in chart.now spot.at) spot out.old }
    ensures { PutsTo chart.now (lots_in chart.now spot.at)
        (after_front of_immunization (charted_in (drop spot.at chart.now))) spot result out.old out.new }
{
    order_lots(chart, lots, room);
    put_lots(out, chart, spot, lots, room)
}
