// The methods: Table 15 of the guideline as a list of cases, in the table's order.
ghost use Rattle.std.specs.Prelude.{◌≡◌};
ghost use Rattle.rules_definitions.specs.Codes.{is_method};

use house::same;

// Whether a text is one of the methods.
pub fn is_method(t: &[u8]) -> bool
    ensures { result ≡ is_method t.now }
{
    same(t, b"G")
        | same(t, b"ID")
        | same(t, b"IM")
        | same(t, b"IN")
        | same(t, b"INF")
        | same(t, b"IV")
        | same(t, b"PO")
        | same(t, b"SC")
        | same(t, b"OTH")
        | same(t, b"UNK")
}
