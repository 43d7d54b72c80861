// Sites, methods and reasons: the codes that need no book, and rule 9 between a site and a method.
#![tactic(auto)]

mod methods;
mod sites;

ghost use Rattle.std.specs.Prelude.{◌≡◌};
ghost use Rattle.house.specs.Text.{pad};
ghost use Rattle.rules_definitions.specs.Codes.{reason_read};
ghost use Rattle.rules_definitions.specs.Rules.{without, site_wrong, method_wrong};

pub use methods::is_method;
pub use sites::is_site;

// A reason read as two digits, a leading blank as zero; padded where the text is no reason.
pub fn reason_read(t: &[u8]) -> [u8; 2]
    ensures { result ≡ pad 2 (reason_read t.now) }
{
    if t.len() == 0 {
        return [b' ', b' '];
    }
    if t.len() == 1 {
        return [b'0', t[0]];
    }
    if t[0] == b' ' {
        return [b'0', t[1]];
    }
    [t[0], t[1]]
}

// Whether x is a, and y is not b.
fn without(x: &[u8], a: &[u8], y: &[u8], b: &[u8]) -> bool
    ensures { result ≡ without x.now a.now y.now b.now }
{
    if house::same(x, a) {
        if house::same(y, b) { false } else { true }
    } else {
        false
    }
}

// Rule 9 at II 9: method PO without site MO, or IN without NO.
pub fn rule9_site_wrong(site: &[u8], method: &[u8]) -> bool
    ensures { result ≡ site_wrong site.now method.now }
{
    if without(method, b"PO", site, b"MO") {
        return true;
    }
    without(method, b"IN", site, b"NO")
}

// Rule 9 at II 10: site MO without method PO, or NO without IN.
pub fn rule9_method_wrong(site: &[u8], method: &[u8]) -> bool
    ensures { result ≡ method_wrong site.now method.now }
{
    if without(site, b"MO", method, b"PO") {
        return true;
    }
    without(site, b"NO", method, b"IN")
}
