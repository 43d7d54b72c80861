// Forms of an entry: its code, or both codes of a pair, its start and its end.
ghost use Rattle.std.specs.Prelude.{◌≡◌, ◌+◌, length};
ghost use Rattle.book.specs.Book.{start_width, code_width, body_width, first_form, second_form, code_form, start_form, dates_form, body_form};

use crate::kinds::{VACCINE, WITH_ANTIGEN, WITH_REASON};
use crate::widths::{code_width, first_width, start_width};
use dates::Date;

// Whether a code, or the first of two, has its form: a reason two digits, any other a padded code.
fn first_ok(k: u8, t: &[u8]) -> bool
    ensures { result ≡ first_form k t.now }
{
    if k == 3 {
        house::all_digits(t)
    } else {
        house::is_padded(t)
    }
}

// Whether the second code of a pair has its form.
fn second_ok(k: u8, t: &[u8]) -> bool
    ensures { result ≡ second_form k t.now }
{
    match k {
        WITH_REASON => house::all_digits(t),
        WITH_ANTIGEN => house::is_padded(t),
        _ => true,
    }
}

// Whether the code of an entry has its form, both codes of a pair.
pub(crate) fn code_ok(k: u8, code: &[u8]) -> bool
    requires { length code.now ≡ code_width k }
    ensures { result ≡ code_form k code.now }
{
    let a = first_width(k);
    if first_ok(k, &code[..a]) {
        second_ok(k, &code[a..])
    } else {
        false
    }
}

// Whether the start of an entry is a date, where its kind has one.
fn start_ok(k: u8, t: &[u8]) -> bool
    ensures { result ≡ start_form k t.now }
{
    if k == VACCINE {
        let d = Date::of(t);
        match d {
            Some(_) => true,
            None => false,
        }
    } else {
        true
    }
}

// Whether the start and the end of an entry have their form.
fn dates_ok(k: u8, dates: &[u8]) -> bool
    requires { length dates.now ≡ start_width k + 8 }
    ensures { result ≡ dates_form k dates.now }
{
    let a = start_width(k);
    if start_ok(k, &dates[..a]) {
        Date::is_end(&dates[a..])
    } else {
        false
    }
}

// Whether the body of an entry has its form.
pub(crate) fn body_ok(k: u8, body: &[u8]) -> bool
    requires { length body.now ≡ body_width k }
    ensures { result ≡ body_form k body.now }
{
    let w = code_width(k);
    if code_ok(k, &body[..w]) {
        dates_ok(k, &body[w..])
    } else {
        false
    }
}
