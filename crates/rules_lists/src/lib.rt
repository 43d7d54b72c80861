// What is asked of the lines of a part of the file: antigens, counts and lots given before.
#![tactic(auto)]

mod entries;

ghost use Rattle.std.specs.Prelude.{◌≡◌, Bool};
ghost use Rattle.std.specs.Fn.{FnReturnsAt};
ghost use Rattle.house.specs.Text.{any, all, same};
ghost use Rattle.lines.specs.Records.{II, Rec, rec_of, recs};
ghost use Rattle.rules_definitions.specs.Forms.{is_relaxed};
ghost use Rattle.rules_forms.specs.FieldLeaves.{sound_in};
ghost use Rattle.rules_definitions.specs.Rules.{same_count, counts_sound, sets_differ};
ghost use Rattle.rules_lists.specs.Among.{antigen_is, lot_is, dose_in, count_is, count_in, from_antigen, in_step, sound_count};
ghost use Rattle.rules_lists.specs.Inside.{Tests};

pub use entries::{ANTIGENS, COUNTED_ANTIGENS, LOTS, gather};
use lines::{IE, II};
use lines_fields::{field_start, judged_of};
use rules_forms::{is_count, relaxed, sound_text, value};

// Whether one of these lines passes a test.
fn any_line<F: Fn(&[u8]) -> bool>(text: &[u8], test: F) -> bool
    requires { F.IsAlwaysCallable test }
    ensures { (p : Rec → Bool) → Tests (FnReturnsAt F.Fn test) p → result ≡ any p (recs text.now) }
{
    let mut at = 0;
    // Not a `for`: the position goes on by the length of the line that it is at.
    while at < text.len() {
        let l = lines_fields::line_at(text, at);
        let end = l.end;
        if test(&text[at..end]) {
            return true;
        }
        at = l.next;
    }
    false
}

// Whether each of these lines passes a test.
fn all_lines<F: Fn(&[u8]) -> bool>(text: &[u8], test: F) -> bool
    requires { F.IsAlwaysCallable test }
    ensures { (p : Rec → Bool) → Tests (FnReturnsAt F.Fn test) p → result ≡ all p (recs text.now) }
{
    let mut at = 0;
    // Not a `for`: the position goes on by the length of the line that it is at.
    while at < text.len() {
        let l = lines_fields::line_at(text, at);
        let end = l.end;
        if test(&text[at..end]) {
            at = l.next;
        } else {
            return false;
        }
    }
    true
}

// Whether a line gives this antigen.
fn has_antigen(line: &[u8], t: &[u8]) -> bool
    ensures { result ≡ antigen_is t.now (rec_of line.now) }
{
    house::same(t, judged_of(line, 4))
}

// Rule 12: whether one of these lines gives this antigen.
pub fn rule12_any_antigen(t: &[u8], since: &[u8]) -> bool
    ensures { result ≡ any (antigen_is t.now) (recs since.now) }
{
    any_line(since, |line| has_antigen(line, t))
}

// Whether a line is a relaxed event.
fn is_relaxed(line: &[u8]) -> bool
    ensures { result ≡ is_relaxed (rec_of line.now) }
{
    let t5 = judged_of(line, 5);
    let t18 = judged_of(line, 18);
    let t19 = judged_of(line, 19);
    relaxed(t5, t18, t19, judged_of(line, 20))
}

// Whether this text of an II's lot is sound: an empty one is if the line is a relaxed event.
fn is_lot_sound(line: &[u8], lot: &[u8]) -> bool
    ensures { result ≡ sound_in II (is_relaxed (rec_of line.now)) 15 lot.now }
{
    if lot.len() == 0 {
        return sound_text(II, is_relaxed(line), 15, lot);
    }
    sound_text(II, false, 15, lot)
}

// Whether a line is an II with this lot.
fn has_lot(line: &[u8], t: &[u8]) -> bool
    ensures { result ≡ lot_is t.now (rec_of line.now) }
{
    if lines::kind_of(line) != II {
        return false;
    }
    let lot = judged_of(line, 15);
    if house::same(t, lot) {
        is_lot_sound(line, lot)
    } else {
        false
    }
}

// Rule 14: whether an II among the block's lines has this lot.
pub fn rule14_any_lot(t: &[u8], block: &[u8]) -> bool
    ensures { result ≡ any (lot_is t.now) (recs block.now) }
{
    any_line(block, |line| has_lot(line, t))
}

// A count as a number, 0 where it is not sound.
fn dose_of(t: &[u8]) -> u32
    ensures { result ≡ dose_in t.now }
{
    if is_count(t) { value(t) } else { 0 }
}

// Whether a line gives this antigen this often.
fn has_count(line: &[u8], t: &[u8], dose: u32) -> bool
    ensures { result ≡ count_is t.now dose (rec_of line.now) }
{
    if house::same(t, judged_of(line, 4)) {
        dose == dose_of(judged_of(line, 5))
    } else {
        false
    }
}

// Whether one of these lines gives this antigen this often.
fn any_count(t: &[u8], dose: u32, others: &[u8]) -> bool
    ensures { result ≡ any (count_is t.now dose) (recs others.now) }
{
    any_line(others, |line| has_count(line, t, dose))
}

// Whether one of these lines gives the line's antigen as often.
fn count_among(line: &[u8], others: &[u8]) -> bool
    ensures { result ≡ count_in (recs others.now) (rec_of line.now) }
{
    let dose = dose_of(judged_of(line, 5));
    any_count(judged_of(line, 4), dose, others)
}

// Whether each line's antigen is given as often among the others.
fn all_counted(ps: &[u8], others: &[u8]) -> bool
    ensures { result ≡ all (count_in (recs others.now)) (recs ps.now) }
{
    all_lines(ps, |line| count_among(line, others))
}

// Whether two lines are the same from field 4 on.
fn same_from_antigen(line: &[u8], other: &[u8]) -> bool
    ensures { result ≡ same (from_antigen line.now) (from_antigen other.now) }
{
    let a = field_start(line, 3);
    let b = field_start(other, 3);
    house::same(&line[a..], &other[b..])
}

// Whether two lines give one antigen as often. Most that do are the same from there on.
fn counts_alike(line: &[u8], other: &[u8]) -> bool
    ensures { result ≡ same_count (rec_of line.now) (rec_of other.now) }
{
    if same_from_antigen(line, other) {
        return true;
    }
    let dose = dose_of(judged_of(line, 5));
    has_count(other, judged_of(line, 4), dose)
}

// Rule 13: whether these lines and those, one by one, give the same antigens as often.
pub fn rule13_in_step(own: &[u8], first: &[u8]) -> bool
    ensures { result ≡ in_step (recs own.now) (recs first.now) }
{
    let mut at = 0;
    let mut by = 0;
    // Not a `for`: both positions go on by the lengths of the lines that they are at.
    while at < own.len() {
        if first.len() <= by {
            return false;
        }
        let l = lines_fields::line_at(own, at);
        let p = lines_fields::line_at(first, by);
        let end = l.end;
        let stop = p.end;
        if counts_alike(&own[at..end], &first[by..stop]) {
            at = l.next;
            by = p.next;
        } else {
            return false;
        }
    }
    first.len() <= by
}

// Rule 13: whether the antigens with counts of these lines are not one set. Lines in step are one set, and one walk shows it.
pub fn rule13_sets_differ(own: &[u8], first: &[u8]) -> bool
    ensures { result ≡ sets_differ (recs own.now) (recs first.now) }
{
    if rule13_in_step(own, first) {
        return false;
    }
    if all_counted(own, first) {
        if all_counted(first, own) { false } else { true }
    } else {
        true
    }
}

// Whether an IE's antigen and count are sound.
fn count_sound(line: &[u8]) -> bool
    ensures { result ≡ sound_count (rec_of line.now) }
{
    if sound_text(IE, false, 4, judged_of(line, 4)) {
        sound_text(IE, false, 5, judged_of(line, 5))
    } else {
        false
    }
}

// Rule 13: whether the antigens and counts of all these lines are sound.
#[tactic(auto, unfolding(rules_definitions::specs::Rules::counts_sound, crate::specs::Among::sound_count))]
pub fn rule13_counts_sound(ps: &[u8]) -> bool
    ensures { result ≡ counts_sound (recs ps.now) }
{
    all_lines(ps, |line| count_sound(line))
}
