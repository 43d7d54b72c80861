// The fields of a line that a rule is placed on, each judged by the kind of its record.
ghost use Rattle.std.specs.Prelude.{◌≡◌, ℕ, ◌+◌, ◌^◌, ◌≤◌, ◌<◌};
ghost use Rattle.house.specs.Text.{Text};
ghost use Rattle.rules.specs.Fields.{Bookless, line_most, Judges, JudgesFields, JudgesLine, relaxed_in, last_field, last_of, next_field};

use crate::emit::emit;
use crate::fields::{judge_ia, judge_ie, judge_in, judge_ip, judge_iv, judge_plain};
use crate::vaccine::judge_ii;
use crate::{By, Here};
use lines::{IA, IE, IF, IH, II, IN, IP, IV};
use lines_fields::{count_marked, judged};
use rules_fields::Broken;

// Whether the II with these marks is a relaxed event.
fn relaxed_of(file: &[u8], marks: &[u32]) -> bool
    ensures { result ≡ relaxed_in file.now marks.now }
{
    let t5 = judged(file, marks, 5);
    let t18 = judged(file, marks, 18);
    let t19 = judged(file, marks, 19);
    rules_forms::relaxed(t5, t18, t19, judged(file, marks, 20))
}

// Field f of a line of a kind that asks nothing of the book.
fn judge_other(file: &[u8], marks: &[u32], here: Here, by: By, f: usize) -> Broken
    requires f_bound { f ≤ 28 }
    requires bookless { Bookless here.kind }
    ensures { (book : Text) → Judges file.now marks.now here book by f result }
{
    let kind = here.kind;
    match kind {
        IV => judge_iv(file, marks, here, f),
        IP => judge_ip(file, marks, here, by, f),
        _ => judge_plain(file, marks, here, f),
    }
}

// The last field of a record of a kind that a rule is placed on.
fn last_field(kind: u8) -> usize
    ensures { result ≡ last_field kind }
{
    match kind {
        IV => 2,
        IH => 3,
        IP => 25,
        II => 15,
        IE => 5,
        IN => 8,
        IA => 4,
        IF => 3,
        _ => 0,
    }
}

// The last field that is judged of a line of a kind that has so many.
fn last_of(kind: u8, fields: usize) -> usize
    ensures { result ≡ last_of kind fields }
{
    let last = last_field(kind);
    if fields < last { fields } else { last }
}

// The field that is judged after field f: of an IP none between 3 and 25.
fn next_field(kind: u8, f: usize) -> usize
    requires { f ≤ 28 }
    ensures { result ≡ next_field kind f }
{
    match kind {
        IP => match f {
            3 => 25,
            _ => f + 1,
        },
        _ => f + 1,
    }
}

// The fields of a line up to the last that is judged, each by a function: their findings put to the others.
fn judge_fields<F: Fn(usize) -> Broken>(
    here: Here,
    last: usize,
    judge: F,
    area: &mut [u8],
    count: usize,
) -> usize
    requires callable { (f : ℕ) → f ≤ 28 → F.pre judge f }
    requires not_ip { here.kind ≡ 3 → ⊥ }
    requires last_bound { last ≤ 25 }
    requires line_most_bound { count + line_most < 2 ^ 64 }
    ensures { JudgesFields (F.post judge) here last count area.old result area.new }
{
    let mut c = count;
    for f in 2..last + 1 {
        let b = judge(f);
        c = emit(area, c, here.n, f, b);
    }
    c
}

// The fields of a line of any other kind: their findings put to the others.
fn judge_other_line(
    file: &[u8],
    marks: &[u32],
    here: Here,
    by: By,
    area: &mut [u8],
    count: usize,
) -> usize
    requires bookless { Bookless here.kind }
    requires line_most_bound { count + line_most < 2 ^ 64 }
    ensures { (book : Text) → JudgesLine file.now marks.now here book by count area.old result area.new }
{
    let last = last_of(here.kind, count_marked(marks));
    let mut c = count;
    let mut f = 2;
    // Not a `for`: of an IP the field goes from 3 on to 25.
    while f <= last {
        let b = judge_other(file, marks, here, by, f);
        c = emit(area, c, here.n, f, b);
        f = next_field(here.kind, f);
    }
    c
}

// The fields of a line that a rule is placed on: their findings put to the others.
pub(crate) fn judge_line(
    file: &[u8],
    marks: &[u32],
    here: Here,
    book: &[u8],
    by: By,
    area: &mut [u8],
    count: usize,
) -> usize
    requires { count + line_most < 2 ^ 64 }
    ensures { JudgesLine file.now marks.now here book.now by count area.old result area.new }
{
    let kind = here.kind;
    let last = last_of(kind, count_marked(marks));
    match kind {
        II => {
            let relaxed = relaxed_of(file, marks);
            judge_fields(
                here,
                last,
                |f| judge_ii(file, marks, here, book, by, relaxed, f),
                area,
                count,
            )
        }
        IE => judge_fields(
            here,
            last,
            |f| judge_ie(file, marks, here, book, by, f),
            area,
            count,
        ),
        IN => judge_fields(
            here,
            last,
            |f| judge_in(file, marks, here, book, by, f),
            area,
            count,
        ),
        IA => judge_fields(
            here,
            last,
            |f| judge_ia(file, marks, here, book, by, f),
            area,
            count,
        ),
        _ => judge_other_line(file, marks, here, by, area, count),
    }
}
