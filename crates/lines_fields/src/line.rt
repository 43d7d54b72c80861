// The lines of a file: where each starts and ends.
ghost use Rattle.std.specs.Prelude.{◌≡◌, ◌≤◌, ◌+◌, ◌-◌, take, drop, length};
ghost use Rattle.house.specs.Text.{any};
ghost use Rattle.lines_fields.specs.Lines.{ending_of, text_len, LineIs, text_at, lines_len};
ghost use Rattle.lines_fields.specs.Inside.{is_low};

use crate::LineAt;

// How many bytes the line ending at a position has, 0 for none.
pub(crate) fn ending(file: &[u8], at: usize) -> usize
    ensures value { result ≡ ending_of (drop at file.now) }
    ensures upper_bound { result ≤ length file.now - at }
{
    if file.len() <= at {
        return 0;
    }
    let b = file[at];
    if b == b'\n' {
        return 1;
    }
    if b != b'\r' {
        return 0;
    }
    let n = at + 1;
    if file.len() <= n {
        return 0;
    }
    if file[n] != b'\n' {
        return 0;
    }
    2
}

// A byte below this one may end a line.
const LOW: u8 = 14;

// Whether one of the eight bytes at a position may end a line.
fn eight_low(file: &[u8], i: usize) -> bool
    requires { i + 8 ≤ length file.now }
    ensures { result ≡ any is_low (take 8 (drop i file.now)) }
{
    (file[i] < LOW)
        | (file[i + 1] < LOW)
        | (file[i + 2] < LOW)
        | (file[i + 3] < LOW)
        | (file[i + 4] < LOW)
        | (file[i + 5] < LOW)
        | (file[i + 6] < LOW)
        | (file[i + 7] < LOW)
}

// A position up to which no line ends that goes on at another: sixteen bytes at a time are passed over, none of which may end a line.
fn sixteens_from(file: &[u8], at: usize) -> usize
    ensures { at + text_len (drop at file.now) ≡ result + text_len (drop result file.now) }
{
    let mut i = at;
    if file.len() < 16 {
        return i;
    }
    let last = file.len() - 16;
    // Not over `chunks_exact(16)`: the answer is a position, and the one given may lie past the file's end.
    while i <= last {
        if eight_low(file, i) | eight_low(file, i + 8) {
            return i;
        }
        i += 16;
    }
    i
}

// The same, and then eight bytes once.
fn plain_from(file: &[u8], at: usize) -> usize
    ensures { at + text_len (drop at file.now) ≡ result + text_len (drop result file.now) }
{
    let i = sixteens_from(file, at);
    if file.len() <= i {
        return i;
    }
    if file.len() - i < 8 {
        return i;
    }
    if eight_low(file, i) {
        return i;
    }
    i + 8
}

// Where the text of the line that starts at a position ends.
fn text_end(file: &[u8], at: usize) -> usize
    ensures { result ≡ at + text_len (drop at file.now) }
{
    let plain = plain_from(file, at);
    for i in plain..file.len() {
        if file[i] < LOW {
            let n = ending(file, i);
            if n != 0 {
                return i;
            }
        }
    }
    file.len().max(plain)
}

// The line that starts at a position.
pub fn line_at(file: &[u8], at: usize) -> LineAt
    ensures { LineIs file.now at result }
{
    let end = text_end(file, at);
    let n = ending(file, end);
    LineAt {
        end,
        next: end + n,
        lf: n != 0,
    }
}

// Where the line after k lines from a position on starts; where there is none, the file's end, or that position if it is past it.
pub fn lines_on(file: &[u8], at: usize, k: usize) -> usize
    ensures { result ≡ at + lines_len k (drop at file.now) }
{
    let mut start = at;
    for _ in 0..k {
        if file.len() <= start {
            return start;
        }
        start = line_at(file, start).next;
    }
    start
}

// Where the line after k lines starts; the file's end where there is none.
pub(crate) fn line_start(file: &[u8], k: usize) -> usize
    ensures value { result ≡ lines_len k file.now }
    ensures upper_bound { result ≤ length file.now }
{
    lines_on(file, 0, k)
}

// The text of line n, counted from 1; empty where there is none.
pub(crate) fn line_text(file: &[u8], n: usize) -> &[u8]
    ensures { result.now ≡ text_at file.now n }
{
    if n == 0 {
        return &file[..0];
    }
    let at = line_start(file, n - 1);
    let end = line_at(file, at).end;
    &file[at..end]
}
