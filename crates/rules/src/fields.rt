// The rules that are broken at a field, by the kind of its record and its number. Each text is a part of the file that was found before.
ghost use Rattle.std.specs.Prelude.{◌≡◌, ◌≤◌};
ghost use Rattle.house.specs.Text.{Text};
ghost use Rattle.lines_fields.specs.Inside.{part};
ghost use Rattle.rules.specs.declared.By.{By};
ghost use Rattle.rules.specs.Fields.{day_until, ii_day, Judges};

use crate::{By, Here};
use lines::{IA, IE, IN, IP, IV};
use lines_fields::{Span, judged, part};
use rules_fields::{ANY_END, Broken, Day, code_field, ie4_antigen};
use rules_forms::rules1_and_2;
use rules_plain::{field2_number, field3_uli, in5_date, ip25_birth, iv2_version};

// One rule, or none.
pub(crate) fn one(a: u8) -> Broken
    ensures { result ≡ record { a = a; b = 0; c = 0 } }
{
    Broken { a, b: 0, c: 0 }
}

// A part of the file.
pub(crate) fn span_text(file: &[u8], p: Span) -> &[u8]
    ensures { result.now ≡ part file.now p.start p.end }
{
    part(file, p.start, p.end)
}

// The day of a record, whose codes are not to have ended before another.
fn day_until(day: Option<u32>, until: u32) -> Day
    ensures { result ≡ day_until day until }
{
    Day {
        sound: day.is_some(),
        number: day.unwrap_or(0),
        until,
    }
}

// The day of an II: only where II 5 is H may its codes, and those of its IE, have ended before today.
pub(crate) fn ii_day(day: Option<u32>, historical: bool, today: u32) -> Day
    ensures { result ≡ ii_day day historical today }
{
    if historical {
        day_until(day, ANY_END)
    } else {
        day_until(day, today)
    }
}

// Field f of a line whose kind has no later rules.
pub(crate) fn judge_plain(file: &[u8], marks: &[u32], here: Here, f: usize) -> Broken
    requires f_bound { f ≤ 28 }
    requires fact { here.kind ≡ 1 → ⊥ }
    requires fact_2 { here.kind ≡ 3 → ⊥ }
    requires fact_3 { here.kind ≡ 4 → ⊥ }
    requires fact_4 { here.kind ≡ 5 → ⊥ }
    requires fact_5 { here.kind ≡ 6 → ⊥ }
    requires fact_6 { here.kind ≡ 7 → ⊥ }
    ensures { (book : Text) (by : By) → Judges file.now marks.now here book by f result }
{
    let t = judged(file, marks, f);
    one(rules1_and_2(here.kind, false, f, t))
}

// Field f of an IV.
pub(crate) fn judge_iv(file: &[u8], marks: &[u32], here: Here, f: usize) -> Broken
    requires f_bound { f ≤ 28 }
    requires kind_value { here.kind ≡ 1 }
    ensures { (book : Text) (by : By) → Judges file.now marks.now here book by f result }
{
    let t = judged(file, marks, f);
    match f {
        2 => one(iv2_version(t)),
        _ => one(rules1_and_2(IV, false, f, t)),
    }
}

// Field f of an IP.
pub(crate) fn judge_ip(file: &[u8], marks: &[u32], here: Here, by: By, f: usize) -> Broken
    requires f_bound { f ≤ 28 }
    requires kind_value { here.kind ≡ 3 }
    ensures { (book : Text) → Judges file.now marks.now here book by f result }
{
    let t = judged(file, marks, f);
    match f {
        2 => one(field2_number(IP, t, here.place)),
        25 => one(ip25_birth(t, by.today)),
        _ => one(rules1_and_2(IP, false, f, t)),
    }
}

// Field f of an IE.
pub(crate) fn judge_ie(
    file: &[u8],
    marks: &[u32],
    here: Here,
    book: &[u8],
    by: By,
    f: usize,
) -> Broken
    requires f_bound { f ≤ 28 }
    requires kind_value { here.kind ≡ 5 }
    ensures { Judges file.now marks.now here book.now by f result }
{
    let t = judged(file, marks, f);
    match f {
        2 => one(field2_number(IE, t, here.place)),
        3 => one(field3_uli(IE, t, span_text(file, here.uli))),
        4 => {
            let vaccine = span_text(file, here.vaccine);
            let day = ii_day(here.day, here.historical, by.today);
            ie4_antigen(t, vaccine, here.again, book, by.sections, day)
        }
        _ => one(rules1_and_2(IE, false, f, t)),
    }
}

// Field f of an IN.
pub(crate) fn judge_in(
    file: &[u8],
    marks: &[u32],
    here: Here,
    book: &[u8],
    by: By,
    f: usize,
) -> Broken
    requires f_bound { f ≤ 28 }
    requires kind_value { here.kind ≡ 6 }
    ensures { Judges file.now marks.now here book.now by f result }
{
    let t = judged(file, marks, f);
    match f {
        2 => one(field2_number(IN, t, here.place)),
        3 => one(field3_uli(IN, t, span_text(file, here.uli))),
        5 => one(in5_date(t, by.today, here.born)),
        6 => {
            let day = day_until(here.day, ANY_END);
            one(code_field(IN, false, 6, t, t, book, by.sections, day))
        }
        _ => one(rules1_and_2(IN, false, f, t)),
    }
}

// Field f of an IA.
pub(crate) fn judge_ia(
    file: &[u8],
    marks: &[u32],
    here: Here,
    book: &[u8],
    by: By,
    f: usize,
) -> Broken
    requires f_bound { f ≤ 28 }
    requires kind_value { here.kind ≡ 7 }
    ensures { Judges file.now marks.now here book.now by f result }
{
    let t = judged(file, marks, f);
    match f {
        2 => one(field2_number(IA, t, here.place)),
        3 => one(field3_uli(IA, t, span_text(file, here.uli))),
        4 => {
            let in_day = day_until(here.day, ANY_END);
            one(code_field(IA, false, 4, t, t, book, by.sections, in_day))
        }
        _ => one(rules1_and_2(IA, false, f, t)),
    }
}
