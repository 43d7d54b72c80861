// Texts: the order of bytes and of padded codes, digits.
ghost use Rattle.std.specs.Prelude.{◌≡◌, ◌⊎◌, ◌≤◌, length};
ghost use Rattle.std.specs.List.{list_all};
ghost use Rattle.house.specs.Numbers.{lesser_of};
ghost use Rattle.house.specs.Text.{is_digit, digits, pad, order_of, below, same};
ghost use Rattle.house.specs.Inside.{front_order, blanks_order};

use std::cmp::Ordering;

// The lesser of two numbers.
pub fn lesser(m: usize, n: usize) -> usize
    ensures value { result ≡ lesser_of m n }
    ensures upper_bound { result ≤ m }
    ensures upper_bound_2 { result ≤ n }
    ensures fact { (result ≡ m) ⊎ (result ≡ n) }
{
    m.min(n)
}

// How two texts stand at the first place of both where they differ, if there is one.
// `cmp` of slices was tried: it takes more instructions where texts differ in their first bytes.
fn front_order(a: &[u8], b: &[u8]) -> Ordering
    ensures { result ≡ front_order a.now b.now }
{
    for i in 0..lesser(a.len(), b.len()) {
        let x = a[i];
        let y = b[i];
        if x != y {
            return if x < y {
                Ordering::Less
            } else {
                Ordering::Greater
            };
        }
    }
    Ordering::Equal
}

// How a text stands to blanks.
fn blanks_order(text: &[u8]) -> Ordering
    ensures { result ≡ blanks_order text.now }
{
    for b in text {
        if *b != b' ' {
            return if *b < b' ' {
                Ordering::Less
            } else {
                Ordering::Greater
            };
        }
    }
    Ordering::Equal
}

// How a stands to b; a text stands before those that go on from it.
pub fn compare(a: &[u8], b: &[u8]) -> Ordering
    ensures { result ≡ order_of a.now b.now }
{
    front_order(a, b).then(a.len().cmp(&b.len()))
}

// Whether a stands before b.
pub fn before(a: &[u8], b: &[u8]) -> bool
    ensures { result ≡ below a.now b.now }
{
    compare(a, b).is_lt()
}

// Whether two texts are the same, byte for byte.
pub fn same(a: &[u8], b: &[u8]) -> bool
    ensures { result ≡ same a.now b.now }
{
    a == b
}

// How a code stands to a text that is padded to the code's width, without writing the padded text.
pub fn compare_padded(code: &[u8], text: &[u8]) -> Ordering
    ensures { result ≡ order_of code.now (pad (length code.now) text.now) }
{
    match front_order(code, text) {
        Ordering::Equal => blanks_order(&code[lesser(code.len(), text.len())..]),
        o => o,
    }
}

// How two texts stand to each other, both padded to a width, without writing the padded texts.
pub fn compare_pads(w: usize, a: &[u8], b: &[u8]) -> Ordering
    ensures { result ≡ order_of (pad w a.now) (pad w b.now) }
{
    let p = &a[..lesser(a.len(), w)];
    let q = &b[..lesser(b.len(), w)];
    if q.len() <= p.len() {
        return compare_padded(p, q);
    }
    compare_padded(q, p).reverse()
}

#[tactic(auto, unfolding(crate::specs::Text::is_digit))]
fn is_digit(b: u8) -> bool
    ensures { result ≡ is_digit b }
{
    (48 <= b) & (b <= 57)
}

// Whether eight bytes are digits, without a branch for each.
fn eight_digits(c: &[u8; 8]) -> bool
    ensures { result ≡ digits c.now }
{
    is_digit(c[0])
        & is_digit(c[1])
        & is_digit(c[2])
        & is_digit(c[3])
        & is_digit(c[4])
        & is_digit(c[5])
        & is_digit(c[6])
        & is_digit(c[7])
}

// Whether each byte is a digit, byte by byte.
fn few_digits(text: &[u8]) -> bool
    ensures { result ≡ list_all is_digit text.now }
{
    text.iter().all(|b| is_digit(*b))
}

// Whether each byte is a digit, eight at a time.
pub fn all_digits(text: &[u8]) -> bool
    ensures { result ≡ digits text.now }
{
    let (eights, rest) = text.as_chunks::<8>();
    for c in eights {
        if !eight_digits(c) {
            return false;
        }
    }
    few_digits(rest)
}
