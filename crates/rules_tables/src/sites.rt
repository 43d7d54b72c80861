// The sites of Table 14 of the guideline in four lists, arm, leg, gluteal and other, 27 in all, each list in the table's order.
//
// To review them, read the codes between the quotes and pass over the rest. A site is exactly one of these, in capital letters; `|` means
// "or".
ghost use Rattle.std.specs.Prelude.{◌≡◌};
ghost use Rattle.house.specs.Text.{one_of};
ghost use Rattle.rules_definitions.specs.Codes.{arm_sites, leg_sites, gluteal_sites, other_sites, is_site};

use house::same;

// Arm: 8 sites.
fn is_arm(t: &[u8]) -> bool
    ensures { result ≡ one_of arm_sites t.now }
{
    same(t, b"LA")
        | same(t, b"LAF")
        | same(t, b"LAL")
        | same(t, b"LAU")
        | same(t, b"RA")
        | same(t, b"RAF")
        | same(t, b"RAL")
        | same(t, b"RAU")
}

// Leg: 6 sites.
fn is_leg(t: &[u8]) -> bool
    ensures { result ≡ one_of leg_sites t.now }
{
    same(t, b"LL")
        | same(t, b"LLL")
        | same(t, b"LLU")
        | same(t, b"RL")
        | same(t, b"RLL")
        | same(t, b"RLU")
}

// Gluteal: 6 sites.
fn is_gluteal(t: &[u8]) -> bool
    ensures { result ≡ one_of gluteal_sites t.now }
{
    same(t, b"LDG")
        | same(t, b"LG")
        | same(t, b"LVG")
        | same(t, b"RDG")
        | same(t, b"RG")
        | same(t, b"RVG")
}

// Other: 7 sites.
fn is_other(t: &[u8]) -> bool
    ensures { result ≡ one_of other_sites t.now }
{
    same(t, b"MO")
        | same(t, b"MS")
        | same(t, b"NO")
        | same(t, b"OTH")
        | same(t, b"VE")
        | same(t, b"WO")
        | same(t, b"UNK")
}

// Whether a text is one of the sites.
pub fn is_site(t: &[u8]) -> bool
    ensures { result ≡ is_site t.now }
{
    if is_arm(t) {
        return true;
    }
    if is_leg(t) {
        return true;
    }
    if is_gluteal(t) {
        return true;
    }
    is_other(t)
}
