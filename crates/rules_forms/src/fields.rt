// The fields of a line: the form that each takes, which are mandatory, and when one is sound.
ghost use Rattle.std.specs.Prelude.{◌≡◌};
ghost use Rattle.lines.specs.Records.{IH, IP, II, IE, IN, IA, IF};
ghost use Rattle.rules_definitions.specs.Forms.{form_of, is_judged};
ghost use Rattle.rules_forms.specs.FieldLeaves.{out_of_province, relaxed_if, optional_in, lowest_in, sound_in, given_in, lacks_in};

use crate::texts::*;
use lines::{IA, IE, IF, IH, II, IN, IP, IV};

// The form of field f of an IH.
fn form_ih(f: usize, t: &[u8]) -> bool
    ensures { result ≡ form_of IH f t.now }
{
    match f {
        2 => is_prefix(t),
        3 => is_batch(t),
        _ => true,
    }
}

// The form of field f of an IP.
fn form_ip(f: usize, t: &[u8]) -> bool
    ensures { result ≡ form_of IP f t.now }
{
    match f {
        2 => is_number(t),
        3 => is_uli(t),
        25 => is_date(t),
        _ => true,
    }
}

// The form of field f of an II.
fn form_ii(f: usize, t: &[u8]) -> bool
    ensures { result ≡ form_of II f t.now }
{
    match f {
        2 => is_number(t),
        3 => is_uli(t),
        4 => is_type(t),
        5 => is_historical(t),
        6 => is_date(t),
        8 => is_code(t),
        9 => is_site_text(t),
        10 => is_method_text(t),
        11 => is_reason(t),
        12 => is_dosage(t),
        13 => is_dosage_type(t),
        14 => is_manufacturer(t),
        15 => is_lot(t),
        _ => true,
    }
}

// The form of field f of an IE.
fn form_ie(f: usize, t: &[u8]) -> bool
    ensures { result ≡ form_of IE f t.now }
{
    match f {
        2 => is_number(t),
        3 => is_uli(t),
        4 => is_code(t),
        5 => is_count(t),
        _ => true,
    }
}

// The form of field f of an IN.
fn form_in(f: usize, t: &[u8]) -> bool
    ensures { result ≡ form_of IN f t.now }
{
    match f {
        2 => is_number(t),
        3 => is_uli(t),
        4 => is_type(t),
        5 => is_date(t),
        6 => is_reason_not(t),
        7 => is_organization(t),
        8 => is_grade(t),
        _ => true,
    }
}

// The form of field f of an IA.
fn form_ia(f: usize, t: &[u8]) -> bool
    ensures { result ≡ form_of IA f t.now }
{
    match f {
        2 => is_number(t),
        3 => is_uli(t),
        4 => is_code(t),
        _ => true,
    }
}

// The form of field f of an IF.
fn form_if(f: usize, t: &[u8]) -> bool
    ensures { result ≡ form_of IF f t.now }
{
    match f {
        2 => is_total(t),
        _ => true,
    }
}

// Whether a text is of the form of field f of a record of a kind. Fields not listed, and IV 2, take any text.
fn form_of(kind: u8, f: usize, t: &[u8]) -> bool
    ensures { result ≡ form_of kind f t.now }
{
    match kind {
        IH => form_ih(f, t),
        IP => form_ip(f, t),
        II => form_ii(f, t),
        IE => form_ie(f, t),
        IN => form_in(f, t),
        IA => form_ia(f, t),
        IF => form_if(f, t),
        _ => true,
    }
}

// Whether field f of a record of a kind is judged at all.
fn is_judged(kind: u8, f: usize) -> bool
    ensures { result ≡ is_judged kind f }
{
    match kind {
        IV => match f {
            2 => true,
            _ => false,
        },
        IH | IF => match f {
            2..=3 => true,
            _ => false,
        },
        IP => match f {
            2..=3 | 25 => true,
            _ => false,
        },
        II => match f {
            2..=6 | 8..=15 => true,
            _ => false,
        },
        IE => match f {
            2..=5 => true,
            _ => false,
        },
        IN => match f {
            2..=8 => true,
            _ => false,
        },
        IA => match f {
            2..=4 => true,
            _ => false,
        },
        _ => false,
    }
}

// Whether II 18 and 19 relax an event.
fn is_out_of_province(province: &[u8], country: &[u8]) -> bool
    ensures { result ≡ out_of_province province.now country.now }
{
    if province.len() == 0 {
        if country.len() == 0 {
            return false;
        } else {
            return true;
        }
    }
    if house::same(province, b"AB") {
        false
    } else {
        true
    }
}

// Whether an II with these texts of fields 5, 18, 19 and 20 is a relaxed event.
pub fn relaxed(t5: &[u8], t18: &[u8], t19: &[u8], t20: &[u8]) -> bool
    ensures { result ≡ relaxed_if t5.now t18.now t19.now t20.now }
{
    if house::same(t5, b"H") {
        return true;
    }
    if t20.len() == 0 {
        is_out_of_province(t18, t19)
    } else {
        true
    }
}

// Whether field f of a record of a kind may be empty, an II being a relaxed event or not.
fn is_optional(kind: u8, relaxed: bool, f: usize) -> bool
    ensures { result ≡ optional_in kind relaxed f }
{
    match kind {
        II => match f {
            5 => true,
            9..=15 => relaxed,
            _ => false,
        },
        IN => match f {
            8 => true,
            _ => false,
        },
        _ => false,
    }
}

// Which of rule1 and rule2 is broken at field f of a record of a kind, by the field's text; 0 for neither.
pub fn rules1_and_2(kind: u8, relaxed: bool, f: usize, t: &[u8]) -> u8
    ensures { result ≡ lowest_in kind relaxed f t.now 0 }
{
    if t.len() != 0 {
        if form_of(kind, f, t) {
            return 0;
        } else {
            return 2;
        }
    }
    if is_judged(kind, f) {
        if is_optional(kind, relaxed, f) { 0 } else { 1 }
    } else {
        0
    }
}

// Whether field f of a record of a kind is sound if this is its text, an II being a relaxed event or not: rules 1 and 2 find nothing in it.
pub fn sound_text(kind: u8, relaxed: bool, f: usize, t: &[u8]) -> bool
    ensures { result ≡ sound_in kind relaxed f t.now }
{
    rules1_and_2(kind, relaxed, f, t) == 0
}

// Whether field f of a record of a kind is sound and not empty if this is its text.
pub fn is_given(kind: u8, f: usize, t: &[u8]) -> bool
    ensures { result ≡ given_in kind f t.now }
{
    if t.len() == 0 {
        return false;
    }
    form_of(kind, f, t)
}

// Rule 10: whether this text of a field of an II is empty and the other field, with this text, given.
pub fn rule10_lacks(t: &[u8], other: usize, u: &[u8]) -> bool
    ensures { result ≡ lacks_in t.now other u.now }
{
    if t.len() == 0 {
        is_given(II, other, u)
    } else {
        false
    }
}
