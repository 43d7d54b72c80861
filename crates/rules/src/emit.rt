// The writer of findings: counts each, and writes those that fit.
ghost use Rattle.std.specs.Prelude.{◌≡◌, true, [], ◌+◌, ◌^◌, ◌≤◌, ◌<◌, length};
ghost use Rattle.rules_definitions.specs.Findings.{found};
ghost use Rattle.rules.specs.Inside.{kept, finding, put6, put, keep, some, listed};

use rules_fields::Broken;

// Writes the six bytes of a finding.
fn write6(area: &mut [u8], at: usize, n: usize, f: usize, r: u8)
    requires { at + 6 ≤ length area.old }
    ensures { area.new ≡ put6 area.old at (finding n f r) }
{
    area[at] = r;
    area[at + 1] = (n % 256) as u8;
    area[at + 2] = (n / 256 % 256) as u8;
    area[at + 3] = (n / 65536 % 256) as u8;
    area[at + 4] = (n / 16777216 % 256) as u8;
    area[at + 5] = (f % 256) as u8;
}

// Puts a finding to the others, where there is room, and counts it.
fn put_finding(area: &mut [u8], count: usize, n: usize, f: usize, r: u8) -> usize
    requires { count + 1 < 2 ^ 64 }
    ensures area_after { kept result area.new ≡ put (finding n f r) (kept count area.old) }
    ensures upper_bound { result ≤ count + 1 }
{
    let slots = area.len() / 6;
    if count < slots {
        write6(area, 6 * count, n, f, r);
        return count + 1;
    }
    count + 1
}

// Puts a finding of rule r to the others, if r is a rule.
fn emit_one(area: &mut [u8], count: usize, n: usize, f: usize, r: u8) -> usize
    requires { count + 1 < 2 ^ 64 }
    ensures area_after { kept result area.new ≡ keep (found n f (some r)) (kept count area.old) }
    ensures upper_bound { result ≤ count + 1 }
{
    if r == 0 {
        return count;
    }
    put_finding(area, count, n, f, r)
}

// Whether no rule is broken.
fn is_none(b: Broken) -> bool
    ensures { result ≡ true → listed b ≡ [] }
{
    if b.a == 0 {
        if b.b == 0 {
            return b.c == 0;
        }
    }
    false
}

// Puts the findings of a field to the others: of most there are none.
pub(crate) fn emit(area: &mut [u8], count: usize, n: usize, f: usize, b: Broken) -> usize
    requires { count + 3 < 2 ^ 64 }
    ensures area_after { kept result area.new ≡ keep (found n f (listed b)) (kept count area.old) }
    ensures upper_bound { result ≤ count + 3 }
{
    if is_none(b) {
        return count;
    }
    let one = emit_one(area, count, n, f, b.a);
    let two = emit_one(area, one, n, f, b.b);
    emit_one(area, two, n, f, b.c)
}
