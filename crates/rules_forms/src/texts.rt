// The forms of fields, as tests on texts.
ghost use Rattle.std.specs.Prelude.{◌≡◌, ◌≤◌, length};
ghost use Rattle.house.specs.Text.{any, within};
ghost use Rattle.dates.specs.Dates.{is_date};
ghost use Rattle.rules_definitions.specs.Forms.{is_prefix, is_batch, is_total, count_form, is_number, is_uli, is_type, is_historical, is_code, is_site_text, is_method_text, is_reason, is_fraction, is_dosage, is_dosage_type, is_manufacturer, is_lot, is_count, is_reason_not, is_organization, is_grade};
ghost use Rattle.rules_forms.specs.TextLeaves.{value_of, digits_len};

use crate::classes::{
    all_in, is_digit, is_graphic, is_letter, is_letter_or_digit, is_lot_byte, run_in,
};

// The number that 1 to 9 digits write; 0 for any other text.
pub fn value(t: &[u8]) -> u32
    ensures { result ≡ value_of t.now }
{
    if 9 < t.len() {
        return 0;
    }
    let mut v: u32 = 0;
    for b in t {
        if is_digit(*b) {
            let d = (*b - b'0') as u32;
            v = v * 10 + d;
        } else {
            return 0;
        }
    }
    v
}

// Whether a text is so many digits at most, at least 1 as a number.
fn is_positive(t: &[u8], most: usize) -> bool
    requires { most ≤ 9 }
    ensures { result ≡ count_form most t.now }
{
    if most < t.len() {
        return false;
    }
    0 < value(t)
}

// IH 2: 1 to 3 letters or digits.
#[tactic(auto, unfolding(rules_definitions::specs::Forms::is_prefix))]
pub fn is_prefix(t: &[u8]) -> bool
    ensures { result ≡ is_prefix t.now }
{
    run_in(t, 1, 3, is_letter_or_digit)
}

// IH 3: 1 to 10 letters or digits.
#[tactic(auto, unfolding(rules_definitions::specs::Forms::is_batch))]
pub fn is_batch(t: &[u8]) -> bool
    ensures { result ≡ is_batch t.now }
{
    run_in(t, 1, 10, is_letter_or_digit)
}

// IF 2: 1 to 10 digits.
#[tactic(auto, unfolding(rules_definitions::specs::Forms::is_total))]
pub(crate) fn is_total(t: &[u8]) -> bool
    ensures { result ≡ is_total t.now }
{
    run_in(t, 1, 10, is_digit)
}

// Field 2 of IP, II, IE, IN, IA: 1 to 5 digits, at least 1.
#[tactic(auto, unfolding(rules_definitions::specs::Forms::is_number))]
pub(crate) fn is_number(t: &[u8]) -> bool
    ensures { result ≡ is_number t.now }
{
    is_positive(t, 5)
}

// Field 3 of IP, II, IE, IN, IA: nine digits.
pub fn is_uli(t: &[u8]) -> bool
    ensures { result ≡ is_uli t.now }
{
    if t.len() != 9 {
        return false;
    }
    house::all_digits(t)
}

// IP 25, II 6, IN 5: a date.
pub fn is_date(t: &[u8]) -> bool
    ensures { result ≡ is_date t.now }
{
    let d = dates::Date::of(t);
    match d {
        Some(_) => true,
        None => false,
    }
}

// II 4, IN 4: A, C or D.
pub fn is_type(t: &[u8]) -> bool
    ensures { result ≡ is_type t.now }
{
    if t.len() != 1 {
        return false;
    }
    let b = t[0];
    match b {
        b'A' => true,
        b'C' => true,
        b'D' => true,
        _ => false,
    }
}

// II 5: H.
#[tactic(auto, unfolding(rules_definitions::specs::Forms::is_historical))]
pub fn is_historical(t: &[u8]) -> bool
    ensures { result ≡ is_historical t.now }
{
    house::same(t, b"H")
}

// II 8, IE 4, IA 4: 1 to 20 bytes in 33..126.
#[tactic(auto, unfolding(rules_definitions::specs::Forms::is_code))]
pub fn is_code(t: &[u8]) -> bool
    ensures { result ≡ is_code t.now }
{
    run_in(t, 1, 20, is_graphic)
}

// II 9: 1 to 4 letters.
#[tactic(auto, unfolding(rules_definitions::specs::Forms::is_site_text))]
pub(crate) fn is_site_text(t: &[u8]) -> bool
    ensures { result ≡ is_site_text t.now }
{
    run_in(t, 1, 4, is_letter)
}

// II 10: 1 to 3 letters.
#[tactic(auto, unfolding(rules_definitions::specs::Forms::is_method_text))]
pub(crate) fn is_method_text(t: &[u8]) -> bool
    ensures { result ≡ is_method_text t.now }
{
    run_in(t, 1, 3, is_letter)
}

// II 11: one or two digits, or a blank and a digit.
pub(crate) fn is_reason(t: &[u8]) -> bool
    ensures { result ≡ is_reason t.now }
{
    if t.len() == 1 {
        return is_digit(t[0]);
    }
    if t.len() != 2 {
        return false;
    }
    if t[0] == b' ' {
        return is_digit(t[1]);
    }
    all_in(t, is_digit)
}

// How many digits a text starts with.
fn digits_len(t: &[u8]) -> usize
    ensures value { result ≡ digits_len t.now }
    ensures upper_bound { result ≤ length t.now }
{
    for (i, b) in t.iter().enumerate() {
        if is_digit(*b) {
            continue;
        }
        return i;
    }
    t.len()
}

// Nothing, or a point and one or two digits.
fn is_fraction(t: &[u8]) -> bool
    ensures { result ≡ is_fraction t.now }
{
    if t.len() == 0 {
        return true;
    }
    if t[0] != b'.' {
        return false;
    }
    run_in(&t[1..], 1, 2, is_digit)
}

// A digit that is not 0.
fn is_above_zero(b: u8) -> bool
    ensures { result ≡ within 49 57 b }
{
    match b {
        b'1'..=b'9' => true,
        _ => false,
    }
}

// Whether a text has such a digit.
fn any_above_zero(t: &[u8]) -> bool
    ensures { result ≡ any (within 49 57) t.now }
{
    for b in t {
        if is_above_zero(*b) {
            return true;
        }
    }
    false
}

// II 12: 1 to 6 digits, then perhaps a point and one or two digits; above 0.
pub(crate) fn is_dosage(t: &[u8]) -> bool
    ensures { result ≡ is_dosage t.now }
{
    let n = digits_len(t);
    if n < 1 {
        return false;
    }
    if 6 < n {
        return false;
    }
    if is_fraction(&t[n..]) {
        any_above_zero(t)
    } else {
        false
    }
}

// II 13: 1 to 4 letters.
#[tactic(auto, unfolding(rules_definitions::specs::Forms::is_dosage_type))]
pub(crate) fn is_dosage_type(t: &[u8]) -> bool
    ensures { result ≡ is_dosage_type t.now }
{
    run_in(t, 1, 4, is_letter)
}

// II 14: 1 to 3 letters.
#[tactic(auto, unfolding(rules_definitions::specs::Forms::is_manufacturer))]
pub(crate) fn is_manufacturer(t: &[u8]) -> bool
    ensures { result ≡ is_manufacturer t.now }
{
    run_in(t, 1, 3, is_letter)
}

// II 15: 1 to 20 letters, digits or dashes.
#[tactic(auto, unfolding(rules_definitions::specs::Forms::is_lot))]
pub(crate) fn is_lot(t: &[u8]) -> bool
    ensures { result ≡ is_lot t.now }
{
    run_in(t, 1, 20, is_lot_byte)
}

// IE 5: 1 or 2 digits, at least 1.
#[tactic(auto, unfolding(rules_definitions::specs::Forms::is_count))]
pub fn is_count(t: &[u8]) -> bool
    ensures { result ≡ is_count t.now }
{
    is_positive(t, 2)
}

// IN 6: 1 to 3 letters.
#[tactic(auto, unfolding(rules_definitions::specs::Forms::is_reason_not))]
pub(crate) fn is_reason_not(t: &[u8]) -> bool
    ensures { result ≡ is_reason_not t.now }
{
    run_in(t, 1, 3, is_letter)
}

// IN 7: 1 to 4 digits.
#[tactic(auto, unfolding(rules_definitions::specs::Forms::is_organization))]
pub(crate) fn is_organization(t: &[u8]) -> bool
    ensures { result ≡ is_organization t.now }
{
    run_in(t, 1, 4, is_digit)
}

// IN 8: 1 or 2 letters or digits.
#[tactic(auto, unfolding(rules_definitions::specs::Forms::is_grade))]
pub(crate) fn is_grade(t: &[u8]) -> bool
    ensures { result ≡ is_grade t.now }
{
    run_in(t, 1, 2, is_letter_or_digit)
}
