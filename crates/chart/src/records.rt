// The line of a record: its type, its number and its fields, each with its pipe, and an LF.
ghost use Rattle.std.specs.Prelude.{◌≡◌, true, [], ◌∷◌, ◌+◌, ◌≤◌, ◌<◌, length};
ghost use Rattle.writing.specs.Writing.{over_from};
ghost use Rattle.chart_definitions.specs.Charts.{body_width, well_formed};
ghost use Rattle.chart_definitions.specs.Submissions.{piped, type_text, record_text};
ghost use Rattle.chart_records.specs.Inside.{charted_at};
ghost use Rattle.chart.specs.Inside.{fields_text, start_text};

use crate::areas::{put_byte, put_piped, put_piped_number};
use blanks::trim;
use chart_records::{kind_at, record_end, widths_of};
use lines::{IA, IE, II, IN};

// The second letter of a record's type.
fn type_letter(kind: u8) -> u8
    requires { length (type_text kind) ≡ 2 }
    ensures { type_text kind ≡ 73 ∷ result ∷ [] }
{
    match kind {
        II => b'I',
        IE => b'E',
        IN => b'N',
        IA => b'A',
        _ => b'P',
    }
}

// The type of a record.
fn put_type(out: &mut [u8], at: usize, kind: u8) -> usize
    requires kind_len { length (type_text kind) ≡ 2 }
    requires at_in_bounds { at + 2 < length out.old }
    ensures out_after { out.new ≡ over_from at (piped (type_text kind)) out.old }
    ensures value { result ≡ at + 3 }
{
    let first = put_byte(out, at, b'I');
    let second = put_byte(out, first, type_letter(kind));
    put_byte(out, second, b'|')
}

// The type and the number of a record.
fn put_start(out: &mut [u8], at: usize, kind: u8, n: usize) -> usize
    requires kind_len { length (type_text kind) ≡ 2 }
    requires n_in_bounds { at + length (start_text kind n) ≤ length out.old }
    ensures out_after { out.new ≡ over_from at (start_text kind n) out.old }
    ensures value { result ≡ at + length (start_text kind n) }
{
    let end = put_type(out, at, kind);
    put_piped_number(out, end, n)
}

// The fields of a record.
fn put_fields(out: &mut [u8], at: usize, body: &[u8], kind: u8) -> usize
    requires body_len { length body.now ≡ body_width kind }
    requires body_in_bounds { at + length (fields_text kind body.now) ≤ length out.old }
    ensures out_after { out.new ≡ over_from at (fields_text kind body.now) out.old }
    ensures value { result ≡ at + length (fields_text kind body.now) }
{
    let widths = widths_of(kind);
    let mut from = 0;
    let mut pos = at;
    for width in widths {
        let end = from + *width;
        pos = put_piped(out, pos, trim(&body[from..end]));
        from = end;
    }
    pos
}

// The line of the record at a position of the chart, as number n.
pub(crate) fn put_record(out: &mut [u8], pos: usize, n: usize, chart: &[u8], at: usize) -> usize
    requires at_in_bounds { at < length chart.now }
    requires at_value { well_formed (charted_at chart.now at) ≡ true }
    requires at_in_bounds_2 { pos + length (record_text n (charted_at chart.now at)) ≤ length out.old }
    ensures out_after { out.new ≡ over_from pos (record_text n (charted_at chart.now at)) out.old }
    ensures value { result ≡ pos + length (record_text n (charted_at chart.now at)) }
{
    let kind = kind_at(chart, at);
    let end = record_end(chart, at);
    let from = put_start(out, pos, kind, n);
    let last = put_fields(out, from, &chart[at + 1..end], kind);
    put_byte(out, last, b'\n')
}
