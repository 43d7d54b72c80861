// The lowest rule that is broken at a field that asks neither book nor ledger, by its text; 0 for none.
#![tactic(auto)]

ghost use Rattle.std.specs.Prelude.{false, ◌&&◌, ◌≡◌, ltb, leb, length};
ghost use Rattle.house.specs.Text.{within};
ghost use Rattle.dates.specs.Dates.{is_date};
ghost use Rattle.lines.specs.Records.{IV, IP, II, IN, IA};
ghost use Rattle.rules_definitions.specs.Forms.{form_of};
ghost use Rattle.rules_forms.specs.TextLeaves.{value_of};
ghost use Rattle.rules_forms.specs.FieldLeaves.{lowest_in};
ghost use Rattle.rules_plain.specs.PlainFields.{rule7_by, rule6_by, rule8_today_by, rule8_day_by, rule8_by, rule3_by, rule14_by};

use lines::{IA, II, IN, IP, IV};
use rules_forms::{is_uli, rules1_and_2, value};

// Rule 7, of a number and its place.
fn rule7_number(n: u32, place: usize) -> u8
    ensures { result ≡ rule7_by n place }
{
    if n as usize == place { 0 } else { 7 }
}

// Whether records of a kind are numbered, and so have a number in field 2 and a ULI in field 3.
fn is_numbered(kind: u8) -> bool
    ensures { result ≡ within IP IA kind }
{
    match kind {
        IP..=IA => true,
        _ => false,
    }
}

// A number has so many digits at most.
const MOST_DIGITS: usize = 5;

// Whether n, the value of a text, is a number that field 2 may have.
fn is_number(t: &[u8], n: u32) -> bool
    ensures { result ≡ leb (length t.now) 5 && ltb 0 n }
{
    if t.len() <= MOST_DIGITS {
        return 0 < n;
    }
    false
}

// Field 2: rules 1, 2 and 7. The place is the line's among IP, II, IE, IN and IA lines, from 1. Its value is asked for once: most are numbers.
pub fn field2_number(kind: u8, t: &[u8], place: usize) -> u8
    ensures { result ≡ lowest_in kind false 2 t.now (rule7_by (value_of t.now) place) }
{
    let n = value(t);
    if is_numbered(kind) {
        if is_number(t, n) {
            return rule7_number(n, place);
        }
    }
    let r = rules1_and_2(kind, false, 2, t);
    if r != 0 {
        return r;
    }
    rule7_number(n, place)
}

// Rule 6, of a ULI and its IP's.
fn rule6_uli(t: &[u8], uli: &[u8]) -> u8
    ensures { result ≡ rule6_by t.now uli.now }
{
    if house::same(t, uli) {
        return 0;
    }
    if is_uli(uli) { 6 } else { 0 }
}

// Field 3 of a line below an IP with this ULI: rules 1, 2 and 6. Most are ULIs.
pub fn field3_uli(kind: u8, t: &[u8], uli: &[u8]) -> u8
    ensures { result ≡ lowest_in kind false 3 t.now (rule6_by t.now uli.now) }
{
    if is_numbered(kind) {
        if is_uli(t) {
            return rule6_uli(t, uli);
        }
    }
    let r = rules1_and_2(kind, false, 3, t);
    if r != 0 {
        return r;
    }
    rule6_uli(t, uli)
}

// IP 25: rules 1, 2 and 8.
pub fn ip25_birth(t: &[u8], today: u32) -> u8
    ensures { result ≡ lowest_in IP false 25 t.now (rule8_today_by t.now today) }
{
    let d = dates::Date::of(t);
    match d {
        Some(day) => { if today < day.number { 8 } else { 0 } }
        None => rules1_and_2(IP, false, 25, t),
    }
}

// Rule 8, of a day, today and the day of birth.
fn rule8_day(n: u32, today: u32, born: u32) -> u8
    ensures { result ≡ rule8_day_by n today born }
{
    if today < n {
        return 8;
    }
    if n < born { 8 } else { 0 }
}

// A field that is a date, mandatory and on which rule 8 is placed: rules 1, 2 and 8.
fn date_field(kind: u8, f: usize, t: &[u8], today: u32, born: u32) -> u8
    requires { form_of kind f t.now ≡ is_date t.now }
    ensures { result ≡ lowest_in kind false f t.now (rule8_by t.now today born) }
{
    let d = dates::Date::of(t);
    match d {
        Some(day) => rule8_day(day.number, today, born),
        None => rules1_and_2(kind, false, f, t),
    }
}

// II 6: rules 1, 2 and 8.
pub fn ii6_date(t: &[u8], today: u32, born: u32) -> u8
    ensures { result ≡ lowest_in II false 6 t.now (rule8_by t.now today born) }
{
    date_field(II, 6, t, today, born)
}

// IN 5: rules 1, 2 and 8.
pub fn in5_date(t: &[u8], today: u32, born: u32) -> u8
    ensures { result ≡ lowest_in IN false 5 t.now (rule8_by t.now today born) }
{
    date_field(IN, 5, t, today, born)
}

// Rule 3, of a version.
fn rule3_version(t: &[u8]) -> u8
    ensures { result ≡ rule3_by t.now }
{
    if house::same(t, b"7.2") { 0 } else { 3 }
}

// IV 2: rules 1 and 3.
pub fn iv2_version(t: &[u8]) -> u8
    ensures { result ≡ lowest_in IV false 2 t.now (rule3_by t.now) }
{
    let r = rules1_and_2(IV, false, 2, t);
    if r != 0 {
        return r;
    }
    rule3_version(t)
}

// Rule 14, by whether an earlier II of the block has the lot.
fn rule14_lot_again(again: bool) -> u8
    ensures { result ≡ rule14_by again }
{
    if again { 14 } else { 0 }
}

// II 15: rules 1, 2 and 14. Whether an earlier II of the block has the lot is known.
pub fn ii15_lot(relaxed: bool, t: &[u8], again: bool) -> u8
    ensures { result ≡ lowest_in II relaxed 15 t.now (rule14_by again) }
{
    let r = rules1_and_2(II, relaxed, 15, t);
    if r != 0 {
        return r;
    }
    rule14_lot_again(again)
}
