// The events of chart records, and how they stand.
ghost use Rattle.std.specs.Prelude.{◌≡◌, take, drop};
ghost use Rattle.house.specs.Text.{order_of, same};
ghost use Rattle.blanks.specs.Blanks.{trimmed};
ghost use Rattle.lines_words.specs.Words.{part_at, chart_event};
ghost use Rattle.lines_words.specs.Inside.{plain_at, given_at, submitted_at};

use std::cmp::Ordering;

// The widths of the four fields, and where they stand behind the start of a record.
pub(crate) const ULI: usize = 9;

pub(crate) const SUBMISSION: usize = 1;

pub(crate) const DATE: usize = 8;

pub(crate) const VACCINE: usize = 15;

pub(crate) const ULI_AT: usize = 1;

pub(crate) const SUBMISSION_AT: usize = 10;

pub(crate) const DATE_AT: usize = 12;

pub(crate) const VACCINE_AT: usize = 21;

// So many bytes of a chart from a place on, as far as it has them.
fn bytes_from(chart: &[u8], at: usize, w: usize) -> &[u8]
    ensures { result.now ≡ take w (drop at chart.now) }
{
    if chart.len() <= at {
        return &chart[..0];
    }
    let n = w.min(chart.len() - at);
    &chart[at..at + n]
}

// The same without the blanks at both ends.
pub(crate) fn part_of(chart: &[u8], at: usize, w: usize) -> &[u8]
    ensures { result.now ≡ trimmed (take w (drop at chart.now)) }
{
    blanks::trim(bytes_from(chart, at, w))
}

// So many bytes of a chart from a place on as they stand, where all are there and the first is no blank: without their blanks and padded again they
// are the same. Else none.
pub(crate) fn plain_from(chart: &[u8], at: usize, w: usize) -> &[u8]
    ensures { result.now ≡ plain_at chart.now at w }
{
    if chart.len() <= at {
        return &chart[..0];
    }
    if chart.len() - at < w {
        return &chart[..0];
    }
    if chart[at] == b' ' {
        return &chart[..0];
    }
    &chart[at..at + w]
}

// How the fields at two places stand, each padded again.
fn padded_order(chart: &[u8], p: usize, q: usize, w: usize) -> Ordering
    ensures { result ≡ order_of (part_at chart.now p w) (part_at chart.now q w) }
{
    let a = part_of(chart, p, w);
    let b = part_of(chart, q, w);
    house::compare_pads(w, a, b)
}

// The same, and sooner where they need not be trimmed.
fn part_order(chart: &[u8], p: usize, q: usize, w: usize) -> Ordering
    ensures { result ≡ order_of (part_at chart.now p w) (part_at chart.now q w) }
{
    let a = plain_from(chart, p, w);
    if a.len() == 0 {
        return padded_order(chart, p, q, w);
    }
    let b = plain_from(chart, q, w);
    if b.len() == 0 {
        return padded_order(chart, p, q, w);
    }
    house::compare(a, b)
}

// How the dates and vaccines of two records stand.
fn given_order(chart: &[u8], e: u32, f: u32) -> Ordering
    ensures { result ≡ order_of (given_at chart.now e) (given_at chart.now f) }
{
    let p = e as usize;
    let q = f as usize;
    let o = part_order(chart, p + DATE_AT, q + DATE_AT, DATE);
    match o {
        Ordering::Less => Ordering::Less,
        Ordering::Equal => part_order(chart, p + VACCINE_AT, q + VACCINE_AT, VACCINE),
        Ordering::Greater => Ordering::Greater,
    }
}

// How the submission types, dates and vaccines of two records stand.
fn submitted_order(chart: &[u8], e: u32, f: u32) -> Ordering
    ensures { result ≡ order_of (submitted_at chart.now e) (submitted_at chart.now f) }
{
    let p = e as usize;
    let q = f as usize;
    let o = part_order(chart, p + SUBMISSION_AT, q + SUBMISSION_AT, SUBMISSION);
    match o {
        Ordering::Less => Ordering::Less,
        Ordering::Equal => given_order(chart, e, f),
        Ordering::Greater => Ordering::Greater,
    }
}

// How the events of two records stand.
pub fn event_order(chart: &[u8], e: u32, f: u32) -> Ordering
    ensures { result ≡ order_of (chart_event chart.now e) (chart_event chart.now f) }
{
    let p = e as usize;
    let q = f as usize;
    let o = part_order(chart, p + ULI_AT, q + ULI_AT, ULI);
    match o {
        Ordering::Less => Ordering::Less,
        Ordering::Equal => submitted_order(chart, e, f),
        Ordering::Greater => Ordering::Greater,
    }
}

// Whether two records have one event.
pub(crate) fn one_event(chart: &[u8], e: u32, f: u32) -> bool
    ensures { result ≡ same (chart_event chart.now e) (chart_event chart.now f) }
{
    let o = event_order(chart, e, f);
    match o {
        Ordering::Less => false,
        Ordering::Equal => true,
        Ordering::Greater => false,
    }
}
