// The widths of a record's fields, from field 3 on.
ghost use Rattle.std.specs.Prelude.{◌≡◌, ◌≤◌, length};
ghost use Rattle.chart_definitions.specs.Charts.{widths_of};

use lines::{IA, IE, II, IN, IP};

static IP_WIDTHS: [usize; 25] = [
    9, 2, 15, 4, 15, 50, 50, 50, 4, 35, 35, 35, 35, 60, 3, 2, 12, 2, 2, 3, 2, 1, 8, 1, 1,
];

static II_WIDTHS: [usize; 20] = [
    9, 1, 1, 8, 1, 15, 4, 3, 2, 9, 4, 3, 20, 4, 5, 3, 2, 3, 2, 1600,
];

static IE_WIDTHS: [usize; 3] = [9, 15, 2];

static IN_WIDTHS: [usize; 6] = [9, 1, 8, 3, 4, 2];

static IA_WIDTHS: [usize; 2] = [9, 15];

// Those of a record of a kind.
#[tactic(auto, unfolding(chart_definitions::specs::Charts::widths_of))]
pub fn widths_of(kind: u8) -> &'static [usize]
    ensures value { result.now ≡ widths_of kind }
    ensures upper_bound { length result.now ≤ 25 }
{
    match kind {
        IP => &IP_WIDTHS,
        II => &II_WIDTHS,
        IE => &IE_WIDTHS,
        IN => &IN_WIDTHS,
        IA => &IA_WIDTHS,
        _ => &[],
    }
}
