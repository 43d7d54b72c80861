// The bytes of a line's text, and those of a file: whether one lies outside 32..126.
ghost use Rattle.std.specs.Prelude.{◌≡◌, true};
ghost use Rattle.lines.specs.Shape.{printable};
ghost use Rattle.lines.specs.Inside.{raised_of, plain_but, stray_at, no_stray, plain};

use house::{greater_byte, lesser_byte};
use lines_fields::line_at;

// The greatest byte.
const GREATEST: u8 = 255;

// Whether each byte of a text lies in 32..126.
fn is_printable(text: &[u8]) -> bool
    ensures { result ≡ printable text.now }
{
    house::all_within(text, 32, 126)
}

// A byte where the least is looked for: an LF and the byte end count as the greatest.
#[tactic(auto, unfolding(crate::specs::Inside::raised_of))]
fn raised(b: u8, end: u8) -> u8
    ensures { result ≡ raised_of end b }
{
    if b == b'\n' {
        return GREATEST;
    }
    if b == end {
        return GREATEST;
    }
    b
}

// Whether each byte of a file lies in 32..126, or below and is an LF or the byte end: by its least and its greatest byte, which are found many
// bytes at a time.
fn is_plain_but(file: &[u8], end: u8) -> bool
    ensures { result ≡ plain_but end file.now }
{
    let mut least: u8 = 32;
    let mut most: u8 = 126;
    for b in file {
        least = lesser_byte(least, raised(*b, end));
        most = greater_byte(most, *b);
    }
    if least < 32 {
        return false;
    }
    most <= 126
}

// 1 where a byte is a CR and the next is no LF, else 0.
#[tactic(auto, unfolding(crate::specs::Inside::stray_at))]
fn stray_at(b: u8, c: u8) -> u8
    ensures { result ≡ stray_at b c }
{
    if b == b'\r' {
        if c == b'\n' {
            return 0;
        }
        return 1;
    }
    0
}

// Whether each CR of a file stands before an LF.
fn no_stray(file: &[u8]) -> bool
    ensures { result ≡ no_stray file.now }
{
    if file.len() == 0 {
        return true;
    }
    let mut stray: u8 = 0;
    for i in 1..file.len() {
        stray = greater_byte(stray, stray_at(file[i - 1], file[i]));
    }
    if stray != 0 {
        return false;
    }
    file[file.len() - 1] != b'\r'
}

// Whether a file is found to have no byte outside 32..126 but in its lines' endings. These are looked for as the first line ends,
// in LF or in CR LF: where they vary, its lines are asked one by one.
pub(crate) fn is_plain(file: &[u8]) -> bool
    ensures { result ≡ true → plain file.now ≡ true }
{
    let end = line_at(file, 0).end;
    if file.len() <= end {
        return false;
    }
    if file[end] != b'\r' {
        return is_plain_but(file, b'\n');
    }
    if no_stray(file) {
        return is_plain_but(file, b'\r');
    }
    false
}

// Whether each byte of a line's text lies in 32..126: so where its file is plain, else by its bytes.
pub(crate) fn has_right_bytes(text: &[u8], plain: bool) -> bool
    requires { plain ≡ true → printable text.now ≡ true }
    ensures { result ≡ printable text.now }
{
    if plain {
        return true;
    }
    is_printable(text)
}
