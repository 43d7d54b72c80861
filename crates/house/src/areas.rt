// Numbers written into an area.
ghost use Rattle.std.specs.Prelude.{◌≡◌, set};

// Writes a number into an area, if there is room at n.
pub fn put(out: &mut [u32], n: usize, p: u32)
    ensures { out.new ≡ set out.old n p }
{
    if n < out.len() {
        out[n] = p;
    }
}
