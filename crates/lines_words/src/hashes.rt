// The numbers of events: one number for one event.
ghost use Rattle.std.specs.Prelude.{◌≡◌, [], ◌+◌, ◌*◌, ◌%◌, ◌<◌};
ghost use Rattle.house.specs.Text.{pad};
ghost use Rattle.lines_words.specs.Words.{part_at, hash_bound, hash_from, event_hash};

use crate::events::{
    DATE, DATE_AT, SUBMISSION, SUBMISSION_AT, ULI, ULI_AT, VACCINE, VACCINE_AT, part_of, plain_from,
};

// Numbers are below this one.
const HASH_BOUND: u64 = 36028797018963968;

// The number of one byte that follows what has the number h.
fn hash_byte(h: u64, b: u8) -> u64
    requires { h < hash_bound }
    ensures value { result ≡ (h * 257 + b) % hash_bound }
    ensures upper_bound { result < hash_bound }
{
    (h * 257 + u64::from(b)) % HASH_BOUND
}

// The number of a text that follows what has the number h.
fn hash_on(h: u64, text: &[u8]) -> u64
    requires { h < hash_bound }
    ensures value { result ≡ hash_from h text.now }
    ensures upper_bound { result < hash_bound }
{
    let mut r = h;
    for b in text {
        r = hash_byte(r, *b);
    }
    r
}

// The same of n blanks.
fn hash_pad(h: u64, n: usize) -> u64
    requires { h < hash_bound }
    ensures value { result ≡ hash_from h (pad n []) }
    ensures upper_bound { result < hash_bound }
{
    let mut r = h;
    for _ in 0..n {
        r = hash_byte(r, b' ');
    }
    r
}

// The same of a field, padded again.
fn hash_padded(h: u64, chart: &[u8], at: usize, w: usize) -> u64
    requires { h < hash_bound }
    ensures value { result ≡ hash_from h (part_at chart.now at w) }
    ensures upper_bound { result < hash_bound }
{
    let t = part_of(chart, at, w);
    let g = hash_on(h, t);
    hash_pad(g, w - t.len())
}

// The same, and sooner where it need not be trimmed.
fn hash_part(h: u64, chart: &[u8], at: usize, w: usize) -> u64
    requires { h < hash_bound }
    ensures value { result ≡ hash_from h (part_at chart.now at w) }
    ensures upper_bound { result < hash_bound }
{
    let t = plain_from(chart, at, w);
    if t.len() == 0 {
        return hash_padded(h, chart, at, w);
    }
    hash_on(h, t)
}

// The number of the event of a record.
pub fn event_hash(chart: &[u8], e: u32) -> u64
    ensures value { result ≡ event_hash chart.now e }
    ensures upper_bound { result < hash_bound }
{
    let p = e as usize;
    let u = hash_part(0, chart, p + ULI_AT, ULI);
    let s = hash_part(u, chart, p + SUBMISSION_AT, SUBMISSION);
    let d = hash_part(s, chart, p + DATE_AT, DATE);
    hash_part(d, chart, p + VACCINE_AT, VACCINE)
}
