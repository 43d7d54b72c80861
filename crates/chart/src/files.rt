// The whole file: IV and IH, the patients, and IF.
ghost use Rattle.std.specs.Prelude.{◌≡◌, true, [], ◌+◌, ◌≤◌, length};
ghost use Rattle.writing.specs.Writing.{over_from};
ghost use Rattle.chart_definitions.specs.Submissions.{request, file_of, is_right};
ghost use Rattle.chart.specs.Inside.{head_text, foot_text, fits_room, places_most, Fitting};

use crate::Spot;
use crate::areas::{put_byte, put_piped, put_piped_number, put_text};
use crate::patients::put_patients;

// "longer than the lent area or than 5,000,000 bytes"
const FILE_MOST: usize = 5000000;

// IV and IH without prefix and batch number.
const HEAD: usize = 14;

// So many II records are in a file at most: the line of one has 26 bytes at least.
const PLACES_MOST: usize = 192307;

// The records IV and IH.
fn put_head(out: &mut [u8], prefix: &[u8], batch: &[u8]) -> usize
    requires { 14 + length prefix.now + length batch.now ≤ length out.old }
    ensures out_after { out.new ≡ over_from 0 (head_text prefix.now batch.now) out.old }
    ensures value { result ≡ 14 + length prefix.now + length batch.now }
{
    let first = put_text(out, 0, b"IV|7.2|\nIH|");
    let second = put_piped(out, first, prefix);
    let third = put_piped(out, second, batch);
    put_byte(out, third, b'\n')
}

// The record IF.
fn put_foot(out: &mut [u8], at: usize, count: usize) -> usize
    requires { at + length (foot_text count) ≤ length out.old }
    ensures out_after { out.new ≡ over_from at (foot_text count) out.old }
    ensures value { result ≡ at + length (foot_text count) }
{
    let first = put_text(out, at, b"IF|");
    let second = put_piped_number(out, first, count);
    put_text(out, second, b"0|\n")
}

// The file; the rooms for the positions of a patient's immunizations and for what is known of them are lent.
fn put_file(
    out: &mut [u8],
    prefix: &[u8],
    batch: &[u8],
    chart: &[u8],
    places: &mut [u32],
    room: &mut [u64],
) -> usize
    requires fitting { Fitting prefix.now batch.now chart.now out.old }
    requires places_len { length places.old ≡ places_most }
    ensures out_after { out.new
        ≡ over_from 0 (file_of (request prefix.now batch.now chart.now [])) out.old }
    ensures value { result ≡ length (file_of (request prefix.now batch.now chart.now [])) }
{
    let pos = put_head(out, prefix, batch);
    let end = put_patients(
        out,
        chart,
        Spot {
            at: 0,
            number: 1,
            pos,
        },
        places,
        room,
    );
    put_foot(out, end.pos, end.number + 2)
}

// The file, with room for the positions of as many immunizations as a file can have.
pub(crate) fn put_in_room(out: &mut [u8], prefix: &[u8], batch: &[u8], chart: &[u8]) -> usize
    requires { Fitting prefix.now batch.now chart.now out.old }
    ensures out_after { out.new
        ≡ over_from 0 (file_of (request prefix.now batch.now chart.now [])) out.old }
    ensures value { result ≡ length (file_of (request prefix.now batch.now chart.now [])) }
{
    let mut places = [0u32; PLACES_MOST];
    let mut room = [0u64; PLACES_MOST];
    put_file(out, prefix, batch, chart, &mut places, &mut room)
}

// Whether the file is no longer than an area of so many bytes, nor than a file may be.
pub(crate) fn has_room(prefix: &[u8], batch: &[u8], chart: &[u8], room: usize) -> bool
    requires { is_right (request prefix.now batch.now chart.now []) ≡ true }
    ensures { result ≡ fits_room prefix.now batch.now chart.now room }
{
    let most = house::lesser(room, FILE_MOST);
    let head = HEAD + prefix.len() + batch.len();
    if most < head {
        return false;
    }
    chart_records::fits(chart, most - head)
}
