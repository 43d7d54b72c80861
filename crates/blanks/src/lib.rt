// Blanks at the ends of a text.
#![tactic(auto)]

ghost use Rattle.std.specs.Prelude.{◌≡◌, ◌≤◌, ◌<◌, length, take, drop};
ghost use Rattle.house.specs.Text.{all, after_front, is_blank};
ghost use Rattle.blanks.specs.Blanks.{without_last_blanks, trimmed};
ghost use Rattle.blanks.specs.Inside.{other_of};

// So many blanks are passed over at a time: where there are many, and where there are some.
const MANY: usize = 512;

const SOME: usize = 32;

// 0 for a blank, 1 for another byte.
fn other(b: u8) -> u8
    ensures { result ≡ other_of b }
{
    u8::from(b != b' ')
}

// Whether a text has nothing but blanks: it is looked at whole, so that many bytes are looked at together.
fn all_blank(text: &[u8]) -> bool
    ensures { result ≡ all is_blank text.now }
{
    let mut others: u8 = 0;
    for b in text {
        others = house::greater_byte(others, other(*b));
    }
    others == 0
}

// Passes over blanks at a text's end, from an end on, so many at a time; the end of what is left.
fn pass_back(text: &[u8], end: usize, stride: usize) -> usize
    requires stride_nonzero { 0 < stride }
    requires end_in_bounds { end ≤ length text.now }
    requires text_value { without_last_blanks (take end text.now) ≡ without_last_blanks text.now }
    ensures upper_bound { result ≤ length text.now }
    ensures text_value_2 { without_last_blanks (take result text.now) ≡ without_last_blanks text.now }
{
    let mut n = end;
    // Not a `for`: the end goes back by a stride.
    while stride <= n {
        if all_blank(&text[n - stride..n]) {
            n -= stride;
        } else {
            return n;
        }
    }
    n
}

// Where the blanks that a text ends with begin.
fn last_blanks(text: &[u8]) -> usize
    ensures upper_bound { result ≤ length text.now }
    ensures text_value { take result text.now ≡ without_last_blanks text.now }
{
    let m = pass_back(text, text.len(), MANY);
    let n = pass_back(text, m, SOME);
    for i in (0..n).rev() {
        if text[i] != b' ' {
            return i + 1;
        }
    }
    0
}

// Where the blanks that a text begins with end.
fn first_blanks(text: &[u8]) -> usize
    ensures upper_bound { result ≤ length text.now }
    ensures text_value { drop result text.now ≡ after_front is_blank text.now }
{
    for (i, b) in text.iter().enumerate() {
        if *b != b' ' {
            return i;
        }
    }
    text.len()
}

// A text without the blanks that it begins with.
fn without_first(text: &[u8]) -> &[u8]
    ensures { result.now ≡ after_front is_blank text.now }
{
    let i = first_blanks(text);
    &text[i..]
}

// A text without the blanks that it ends with.
pub fn trim_end(text: &[u8]) -> &[u8]
    ensures { result.now ≡ without_last_blanks text.now }
{
    let n = last_blanks(text);
    &text[0..n]
}

// A text without the blanks at both its ends.
pub fn trim(text: &[u8]) -> &[u8]
    ensures { result.now ≡ trimmed text.now }
{
    without_first(trim_end(text))
}
