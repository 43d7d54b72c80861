// The later rules of an II and of its IE lines: rules 4 of sites and methods, 9, 10, 12, 13 and 15 to 18.
ghost use Rattle.std.specs.Prelude.{◌≡◌, Bool, false, ◌&&◌};
ghost use Rattle.std.specs.Fn.{FnReturnsAt};
ghost use Rattle.house.specs.Text.{is_empty};
ghost use Rattle.lines.specs.Records.{II};
ghost use Rattle.rules_forms.specs.FieldLeaves.{lowest_in, given_in};
ghost use Rattle.rules_fields.specs.Fields.{rules4and5_of, rules16to18_at, rule9_by, rule10_by, rule12_by, rule13_by, rule15_by};

use lines::II;

// II 9 or II 10: rules 1, 2 and 4, by whether a text is one of the field's codes, which need no book.
pub(crate) fn listed_field<F: Fn(&[u8]) -> bool>(
    relaxed: bool,
    f: usize,
    t: &[u8],
    is_listed: F,
) -> u8
    requires { F.IsAlwaysCallable is_listed }
    ensures { (known : Bool) → ((x : Bool) → FnReturnsAt F.Fn is_listed t.now x → x ≡ known)
        → result ≡ lowest_in II relaxed f t.now (rules4and5_of (is_empty t.now) known false) }
{
    let r = rules_forms::rules1_and_2(II, relaxed, f, t);
    if r != 0 {
        return r;
    }
    if t.len() == 0 {
        return 0;
    }
    if is_listed(t) { 0 } else { 4 }
}

// Whether site and method are both given.
fn both_given(site: &[u8], method: &[u8]) -> bool
    ensures { result ≡ given_in II 9 site.now && given_in II 10 method.now }
{
    if rules_forms::is_given(II, 9, site) {
        rules_forms::is_given(II, 10, method)
    } else {
        false
    }
}

// Rule 9 at II 9 or II 10, by whether one of site and method is wrong for the other.
pub(crate) fn rule9_if(wrong: bool, site: &[u8], method: &[u8]) -> u8
    ensures { result ≡ rule9_by wrong site.now method.now }
{
    if wrong {
        if both_given(site, method) {
            return 9;
        }
    }
    0
}

// Rule 10: a field is empty and the other, with this text, given, in a relaxed event.
pub(crate) fn rule10_partner_missing(relaxed: bool, t: &[u8], other: usize, u: &[u8]) -> u8
    ensures { result ≡ rule10_by relaxed t.now other u.now }
{
    if rules_forms::rule10_lacks(t, other, u) {
        if relaxed {
            return 10;
        }
    }
    0
}

// Rule 12 at IE 4, by whether the antigen was given before.
pub(crate) fn rule12_antigen_again(again: bool) -> u8
    ensures { result ≡ rule12_by again }
{
    if again { 12 } else { 0 }
}

// Rule 13 at II 8, by whether the antigens differ from those of the block's first II.
pub(crate) fn rule13_antigens_differ(differ: bool) -> u8
    ensures { result ≡ rule13_by differ }
{
    if differ { 13 } else { 0 }
}

// Rule 15 at II 8, by whether an earlier block names the event.
pub(crate) fn rule15_event_again(repeated: bool) -> u8
    ensures { result ≡ rule15_by repeated }
{
    if repeated { 15 } else { 0 }
}

// Which of rule16, rule17 and rule18 is broken at II 4, by the submission type and whether the event is live.
pub(crate) fn rules16_to_18(inb: bool, t: &[u8], live: bool) -> u8
    ensures { result ≡ rules16to18_at inb t.now live }
{
    if inb {
        if live {
            if house::same(t, b"A") {
                return 16;
            } else {
                return 0;
            }
        }
        if house::same(t, b"C") {
            return 17;
        }
        if house::same(t, b"D") {
            return 18;
        }
    }
    0
}
