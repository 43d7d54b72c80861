// The rules that are broken at a field of an II, by its number.
ghost use Rattle.std.specs.Prelude.{◌≡◌, ◌≤◌};
ghost use Rattle.rules.specs.Fields.{Judges, relaxed_in};

use crate::fields::{ii_day, one, span_text};
use crate::{By, Here};
use lines::II;
use lines_fields::judged;
use rules_fields::{
    Broken, code_field, ii4_type, ii8_vaccine, ii9_site, ii10_method, ii11_reason, ii12_dosage,
    ii13_dosage_type,
};
use rules_forms::rules1_and_2;
use rules_plain::{field2_number, field3_uli, ii6_date, ii15_lot};

// Field f of an II, an event that is relaxed or not.
pub(crate) fn judge_ii(
    file: &[u8],
    marks: &[u32],
    here: Here,
    book: &[u8],
    by: By,
    relaxed: bool,
    f: usize,
) -> Broken
    requires f_bound { f ≤ 28 }
    requires kind_value { here.kind ≡ 4 }
    requires relaxed_value { relaxed ≡ relaxed_in file.now marks.now }
    ensures { Judges file.now marks.now here book.now by f result }
{
    let t = judged(file, marks, f);
    let day = ii_day(here.day, here.historical, by.today);
    match f {
        2 => one(field2_number(II, t, here.place)),
        3 => one(field3_uli(II, t, span_text(file, here.uli))),
        4 => ii4_type(t, here.facts),
        6 => one(ii6_date(t, by.today, here.born)),
        8 => {
            let facts = here.facts;
            ii8_vaccine(t, here.differ, book, by.sections, day, facts.repeated)
        }
        9 => ii9_site(relaxed, t, judged(file, marks, 10)),
        10 => ii10_method(relaxed, judged(file, marks, 9), t),
        11 => {
            let vaccine = span_text(file, here.vaccine);
            ii11_reason(relaxed, t, vaccine, book, by.sections, day)
        }
        12 => ii12_dosage(relaxed, t, judged(file, marks, 13)),
        13 => {
            let dosage = judged(file, marks, 12);
            ii13_dosage_type(relaxed, t, dosage, book, by.sections, day)
        }
        14 => one(code_field(II, relaxed, 14, t, t, book, by.sections, day)),
        15 => one(ii15_lot(relaxed, t, here.again)),
        _ => one(rules1_and_2(II, relaxed, f, t)),
    }
}
