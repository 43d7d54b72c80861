// Codes of the book: whether one is known, and the rules 4, 5 and 11.
ghost use Rattle.std.specs.Prelude.{◌≡◌, false, []};
ghost use Rattle.book.specs.Book.{code_text};
ghost use Rattle.rules_definitions.specs.Codes.{book_kind, pair_kind};
ghost use Rattle.book.specs.LookUp.{known_by};
ghost use Rattle.rules_fields.specs.Fields.{rules4and5_by, is_pair_wrong, code_by, code_known_by, pair_field, unpaired_by, rule11_by};

use crate::Day;
use book::{
    ANTIGEN, DOSAGE_TYPE, MANUFACTURER, REASON, REASON_NOT, Sections, Standing, VACCINE,
    WITH_ANTIGEN, WITH_REASON,
};
use lines::{IA, IE, II, IN};

// No end is before this day.
pub const ANY_END: u32 = 0;

// Whether the book has a code of a kind.
fn is_known(book: &[u8], q: Sections, kind: u8, code: &[u8]) -> bool
    ensures { result ≡ known_by book.now q kind (code_text kind code.now []) }
{
    let s = book::look_up(book, q, kind, code, &code[..0], 0, ANY_END);
    match s {
        Standing::Unknown => false,
        Standing::InForce => true,
        Standing::OutOfForce => true,
    }
}

// Which of rule4 and rule5 is broken by a code that is given: not known, or out of force on a day that is sound.
fn rules4_and_5_code(book: &[u8], q: Sections, kind: u8, code: &[u8], day: Day) -> u8
    ensures { result ≡ rules4and5_by kind code.now book.now q day }
{
    let s = book::look_up(book, q, kind, code, &code[..0], day.number, day.until);
    match s {
        Standing::Unknown => 4,
        Standing::InForce => 0,
        Standing::OutOfForce => { if day.sound { 5 } else { 0 } }
    }
}

// Whether a pair of codes is absent, or out of force on a day that is sound.
fn pair_wrong(book: &[u8], q: Sections, kind: u8, a: &[u8], b: &[u8], day: Day) -> bool
    ensures { result ≡ is_pair_wrong kind a.now b.now book.now q day }
{
    let s = book::look_up(book, q, kind, a, b, day.number, day.until);
    match s {
        Standing::Unknown => true,
        Standing::InForce => false,
        Standing::OutOfForce => day.sound,
    }
}

// The kind of the book's entries that field f of a record of a kind names; 0 for none.
fn book_kind(kind: u8, f: usize) -> u8
    ensures { result ≡ book_kind kind f }
{
    match kind {
        II => match f {
            8 => VACCINE,
            11 => REASON,
            13 => DOSAGE_TYPE,
            14 => MANUFACTURER,
            _ => 0,
        },
        IE => match f {
            4 => ANTIGEN,
            _ => 0,
        },
        IN => match f {
            6 => REASON_NOT,
            _ => 0,
        },
        IA => match f {
            4 => ANTIGEN,
            _ => 0,
        },
        _ => 0,
    }
}

// The lowest of rules 1, 2, 4 and 5 at field f of a record of a kind, with text t, read as a code.
pub fn code_field(
    kind: u8,
    relaxed: bool,
    f: usize,
    t: &[u8],
    code: &[u8],
    book: &[u8],
    q: Sections,
    day: Day,
) -> u8
    ensures { result ≡ code_by kind relaxed f t.now code.now book.now q day }
{
    let r = rules_forms::rules1_and_2(kind, relaxed, f, t);
    if r != 0 {
        return r;
    }
    if t.len() == 0 {
        return 0;
    }
    rules4_and_5_code(book, q, book_kind(kind, f), code, day)
}

// Whether field f of a record of a kind, with text t, is given, and the book has its code.
fn is_known_at(kind: u8, f: usize, t: &[u8], code: &[u8], book: &[u8], q: Sections) -> bool
    ensures { result ≡ code_known_by kind f t.now code.now book.now q }
{
    if rules_forms::is_given(kind, f, t) {
        is_known(book, q, book_kind(kind, f), code)
    } else {
        false
    }
}

// Whether a field with text t and the verdict a on its code has no pair to ask for: the book lacks its code, or it is empty.
fn is_unpaired(a: u8, t: &[u8]) -> bool
    ensures { result ≡ unpaired_by a t.now }
{
    if a == 4 {
        return true;
    }
    t.len() == 0
}

// The kind of the pair of a vaccine and the code of a field of a record of a kind.
fn pair_kind(kind: u8) -> u8
    ensures { result ≡ pair_kind kind }
{
    if kind == II {
        WITH_REASON
    } else {
        WITH_ANTIGEN
    }
}

// The field of a record of a kind whose code goes with the vaccine.
fn pair_field(kind: u8) -> usize
    ensures { result ≡ pair_field kind }
{
    if kind == II { 11 } else { 4 }
}

// Rule 11 at II 11 or IE 4, with text t and the verdict a on its code: the pair of its code with this vaccine, where both are known. The pair
// is asked for first: most are in force.
pub(crate) fn rule11_pair(
    a: u8,
    kind: u8,
    t: &[u8],
    code: &[u8],
    vaccine: &[u8],
    book: &[u8],
    q: Sections,
    day: Day,
) -> u8
    requires { a ≡ 4 → known_by book.now q (book_kind kind (pair_field kind)) (code_text (book_kind kind (pair_field kind)) code.now []) ≡ false }
    ensures { result ≡ rule11_by kind t.now code.now vaccine.now book.now q day }
{
    if is_unpaired(a, t) {
        return 0;
    }
    if pair_wrong(book, q, pair_kind(kind), vaccine, code, day) {
        if is_known_at(II, 8, vaccine, vaccine, book, q) {
            if is_known_at(kind, pair_field(kind), t, code, book, q) {
                return 11;
            }
        }
    }
    0
}
