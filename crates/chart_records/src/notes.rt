// Notes of immunizations without a comment: a note is the position of one, and 1; 0 is none.
ghost use Rattle.std.specs.Prelude.{◌≡◌, ◌+◌, ◌/◌, ◌<◌, ◌≤◌, get_or, set};
ghost use Rattle.chart_records.specs.Reading.{note_width, note_bound, noted_end};
ghost use Rattle.chart_records.specs.Inside.{note_if};

use crate::kinds::record_end;

// Where the comment of an immunization starts behind its byte of kind.
pub(crate) const COMMENT_START: usize = 99;

// Two II records stand so far apart at least: an II, and its IE.
pub const NOTE_WIDTH: usize = 1727;

// A note has room for positions below this one.
const NOTE_BOUND: usize = 4294967295;

// Puts the note of a position where it belongs, if there is room for it.
fn put_note(notes: &mut [u32], at: usize)
    requires { at < note_bound }
    ensures { notes.new ≡ set notes.old (at / note_width) (at + 1) }
{
    let slot = at / NOTE_WIDTH;
    if slot < notes.len() {
        notes[slot] = (at + 1) as u32;
    }
}

// Notes the record at a position if its given fields end where the comment of an immunization starts.
pub(crate) fn note(notes: &mut [u32], at: usize, end: usize)
    requires { at < end }
    ensures { notes.new ≡ note_if at end notes.old }
{
    if end - (at + 1) == COMMENT_START {
        if at < NOTE_BOUND {
            put_note(notes, at);
        }
    }
}

// What stands where the note of a position belongs, 0 for nothing.
fn note_at(notes: &[u32], at: usize) -> usize
    ensures value { result ≡ get_or notes.now (at / note_width) 0 }
    ensures upper_bound { result ≤ note_bound }
{
    let slot = at / NOTE_WIDTH;
    if slot < notes.len() {
        return house::wide(notes[slot]);
    }
    0
}

// Where the given fields of the record at a position end, as far as notes tell.
pub fn noted_end(chart: &[u8], notes: &[u32], at: usize) -> usize
    ensures { result ≡ noted_end chart.now notes.now at }
{
    if at < chart.len() {
        if note_at(notes, at) == at + 1 {
            return at + 1 + COMMENT_START;
        }
        return record_end(chart, at);
    }
    chart.len()
}
