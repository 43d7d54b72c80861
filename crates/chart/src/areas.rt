// Bytes, texts and numbers written into an area. Each hands back the position behind what it wrote.
ghost use Rattle.std.specs.Prelude.{◌≡◌, [], ◌∷◌, ◌+◌, ◌%◌, ◌≤◌, ◌<◌, length};
ghost use Rattle.writing.specs.Writing.{over_from, decimal};
ghost use Rattle.chart_definitions.specs.Submissions.{piped};

// A byte.
pub(crate) fn put_byte(out: &mut [u8], at: usize, b: u8) -> usize
    requires { at < length out.old }
    ensures out_after { out.new ≡ over_from at (b ∷ []) out.old }
    ensures value { result ≡ at + 1 }
{
    out[at] = b;
    at + 1
}

// A text. Not by `copy_from_slice`, of which the compiler makes a call of memmove: what C links with calls memset and memcpy and nothing else.
pub(crate) fn put_text(out: &mut [u8], at: usize, text: &[u8]) -> usize
    requires { at + length text.now ≤ length out.old }
    ensures out_after { out.new ≡ over_from at text.now out.old }
    ensures value { result ≡ at + length text.now }
{
    for i in 0..text.len() {
        out[at + i] = text[i];
    }
    at + text.len()
}

// A text and a pipe.
pub(crate) fn put_piped(out: &mut [u8], at: usize, text: &[u8]) -> usize
    requires { at + length text.now < length out.old }
    ensures out_after { out.new ≡ over_from at (piped text.now) out.old }
    ensures value { result ≡ at + length text.now + 1 }
{
    let end = put_text(out, at, text);
    put_byte(out, end, b'|')
}

// A digit of a number.
fn digit(n: usize) -> u8
    ensures { result ≡ 48 + n % 10 }
{
    48 + (n % 10) as u8
}

// The digits of a number, the last one first.
fn put_digits(out: &mut [u8], at: usize, n: usize, long: usize)
    requires long_value { long ≡ length (decimal n) }
    requires long_in_bounds { at + long ≤ length out.old }
    ensures { out.new ≡ over_from at (decimal n) out.old }
{
    let mut rest = n;
    for i in (0..long).rev() {
        out[at + i] = digit(rest);
        rest /= 10;
    }
}

// A number.
fn put_number(out: &mut [u8], at: usize, n: usize) -> usize
    requires { at + length (decimal n) ≤ length out.old }
    ensures out_after { out.new ≡ over_from at (decimal n) out.old }
    ensures value { result ≡ at + length (decimal n) }
{
    let long = writing::number_length(n);
    put_digits(out, at, n, long);
    at + long
}

// A number and a pipe.
pub(crate) fn put_piped_number(out: &mut [u8], at: usize, n: usize) -> usize
    requires { at + length (decimal n) < length out.old }
    ensures out_after { out.new ≡ over_from at (piped (decimal n)) out.old }
    ensures value { result ≡ at + length (decimal n) + 1 }
{
    let end = put_number(out, at, n);
    put_byte(out, end, b'|')
}
