// The fields of an II and of an IE that have more than one rule: which are broken at each.
ghost use Rattle.std.specs.Prelude.{◌≡◌};
ghost use Rattle.rules_fields.specs.Fields.{ii4_type, ii8_vaccine, ii9_site, ii10_method, ii11_reason, ii12_dosage, ii13_dosage_type, ie4_antigen};

use crate::by_rule::{
    listed_field, rule9_if, rule10_partner_missing, rule12_antigen_again, rule13_antigens_differ,
    rule15_event_again, rules16_to_18,
};
use crate::codes::{code_field, rule11_pair};
use crate::{Broken, Day, Facts};
use book::Sections;
use lines::{IE, II};

// II 4: rules 1, 2 and 16 to 18.
pub fn ii4_type(t: &[u8], facts: Facts) -> Broken
    ensures { result ≡ ii4_type t.now facts }
{
    let a = rules_forms::rules1_and_2(II, false, 4, t);
    let b = rules16_to_18(facts.inb, t, facts.live);
    Broken { a, b, c: 0 }
}

// II 8: rules 1, 2, 4, 5, 13 and 15. Whether its antigens differ from those of its block's first II, and whether an earlier block names its
// event, is known.
pub fn ii8_vaccine(
    t: &[u8],
    differ: bool,
    book: &[u8],
    q: Sections,
    day: Day,
    repeated: bool,
) -> Broken
    ensures { result ≡ ii8_vaccine t.now differ book.now q day repeated }
{
    let a = code_field(II, false, 8, t, t, book, q, day);
    let b = rule13_antigens_differ(differ);
    let c = rule15_event_again(repeated);
    Broken { a, b, c }
}

// II 9: rules 1, 2, 4, 9 and 10.
pub fn ii9_site(relaxed: bool, site: &[u8], method: &[u8]) -> Broken
    ensures { result ≡ ii9_site relaxed site.now method.now }
{
    let a = listed_field(relaxed, 9, site, |t| rules_tables::is_site(t));
    let b = rule9_if(rules_tables::rule9_site_wrong(site, method), site, method);
    let c = rule10_partner_missing(relaxed, site, 10, method);
    Broken { a, b, c }
}

// II 10: rules 1, 2, 4, 9 and 10.
pub fn ii10_method(relaxed: bool, site: &[u8], method: &[u8]) -> Broken
    ensures { result ≡ ii10_method relaxed site.now method.now }
{
    let a = listed_field(relaxed, 10, method, |t| rules_tables::is_method(t));
    let b = rule9_if(rules_tables::rule9_method_wrong(site, method), site, method);
    let c = rule10_partner_missing(relaxed, method, 9, site);
    Broken { a, b, c }
}

// II 11: rules 1, 2, 4, 5 and 11.
pub fn ii11_reason(
    relaxed: bool,
    t: &[u8],
    vaccine: &[u8],
    book: &[u8],
    q: Sections,
    day: Day,
) -> Broken
    ensures { result ≡ ii11_reason relaxed t.now vaccine.now book.now q day }
{
    let read = rules_tables::reason_read(t);
    let a = code_field(II, relaxed, 11, t, &read, book, q, day);
    let b = rule11_pair(a, II, t, &read, vaccine, book, q, day);
    Broken { a, b, c: 0 }
}

// II 12: rules 1, 2 and 10.
pub fn ii12_dosage(relaxed: bool, t: &[u8], dosage_type: &[u8]) -> Broken
    ensures { result ≡ ii12_dosage relaxed t.now dosage_type.now }
{
    let a = rules_forms::rules1_and_2(II, relaxed, 12, t);
    let b = rule10_partner_missing(relaxed, t, 13, dosage_type);
    Broken { a, b, c: 0 }
}

// II 13: rules 1, 2, 4, 5 and 10.
pub fn ii13_dosage_type(
    relaxed: bool,
    t: &[u8],
    dosage: &[u8],
    book: &[u8],
    q: Sections,
    day: Day,
) -> Broken
    ensures { result ≡ ii13_dosage_type relaxed t.now dosage.now book.now q day }
{
    let a = code_field(II, relaxed, 13, t, t, book, q, day);
    let b = rule10_partner_missing(relaxed, t, 12, dosage);
    Broken { a, b, c: 0 }
}

// IE 4: rules 1, 2, 4, 5, 11 and 12. Whether the antigen was given before in its II is known.
pub fn ie4_antigen(
    t: &[u8],
    vaccine: &[u8],
    again: bool,
    book: &[u8],
    q: Sections,
    day: Day,
) -> Broken
    ensures { result ≡ ie4_antigen t.now vaccine.now again book.now q day }
{
    let a = code_field(IE, false, 4, t, t, book, q, day);
    let b = rule11_pair(a, IE, t, t, vaccine, book, q, day);
    let c = rule12_antigen_again(again);
    Broken { a, b, c }
}
