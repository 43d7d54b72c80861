// The entries of lines gathered: where their sound antigens or lots stand, and with an antigen how often it is given.
ghost use Rattle.std.specs.Prelude.{◌≡◌, cond, ◌+◌, ◌≤◌, length, option_to_list};
ghost use Rattle.house.specs.Over.{over};
ghost use Rattle.house.specs.Text.{is_empty};
ghost use Rattle.lines_fields.specs.Lines.{fields_len};
ghost use Rattle.lines.specs.Records.{rec_of};
ghost use Rattle.lines_words.specs.Words.{place_bound};
ghost use Rattle.rules_definitions.specs.Rules.{dose_of};
ghost use Rattle.rules_lists.specs.Entries.{antigen_entry, lot_entry, entry_of, entries_in};

use crate::{dose_of, is_lot_sound};
use lines::{IE, II};
use lines_fields::{field_start, judged_of};
use lines_words::PLACE_BOUND;
use rules_forms::sound_text;

// What is gathered.
pub const ANTIGENS: u8 = 0;

pub const COUNTED_ANTIGENS: u8 = 1;

pub const LOTS: u8 = 2;

// How often a line's antigen is given, 0 where that is not asked.
fn count_of(line: &[u8], counted: bool) -> u32
    ensures value { result ≡ cond counted (dose_of (rec_of line.now)) 0 }
    ensures upper_bound { result ≤ 99 }
{
    if counted {
        dose_of(judged_of(line, 5))
    } else {
        0
    }
}

// The antigen of a line that starts at a position.
fn antigen_entry(line: &[u8], at: usize, counted: bool) -> Option<u32>
    requires { at + length line.now ≤ place_bound }
    ensures { option_to_list result ≡ antigen_entry (cond counted (dose_of (rec_of line.now)) 0) at line.now }
{
    if sound_text(IE, false, 4, judged_of(line, 4)) {
        let count = count_of(line, counted);
        let place = at + field_start(line, 3);
        return Some(count * PLACE_BOUND + (place as u32));
    }
    None
}

// Where a line's lot stands in it, this being its text: an empty one stands at the line's end.
fn lot_start(line: &[u8], lot: &[u8]) -> usize
    ensures value { result ≡ cond (is_empty lot.now) (length line.now) (fields_len 14 line.now) }
    ensures upper_bound { result ≤ length line.now }
{
    if lot.len() == 0 {
        return line.len();
    }
    field_start(line, 14)
}

// The lot of a line that starts at a position, if it is an II.
fn lot_entry(line: &[u8], at: usize) -> Option<u32>
    requires { at + length line.now ≤ place_bound }
    ensures { option_to_list result ≡ lot_entry at line.now }
{
    if lines::kind_of(line) != II {
        return None;
    }
    let lot = judged_of(line, 15);
    if is_lot_sound(line, lot) {
        let place = at + lot_start(line, lot);
        return Some(place as u32);
    }
    None
}

// What a line that starts at a position gives. Told by a number, and not by a function that is passed: `entries_in`, which the public clauses
// name, takes a number.
fn entry_of(line: &[u8], at: usize, what: u8) -> Option<u32>
    requires { at + length line.now ≤ place_bound }
    ensures { option_to_list result ≡ entry_of what at line.now }
{
    match what {
        ANTIGENS => antigen_entry(line, at, false),
        COUNTED_ANTIGENS => antigen_entry(line, at, true),
        _ => lot_entry(line, at),
    }
}

// Gathers what the lines of a part of the file give into the front of a room, as many as fit; how many there are.
pub fn gather(file: &[u8], from: usize, to: usize, what: u8, room: &mut [u32]) -> usize
    ensures value { result ≡ length (entries_in what file.now from to) }
    ensures room_after { room.new ≡ over (entries_in what file.now from to) room.old }
{
    if (PLACE_BOUND as usize) < file.len() {
        return 0;
    }
    if file.len() < to {
        return 0;
    }
    let start = 0;
    let upto = &file[start..to];
    let mut at = from;
    let mut n: usize = 0;
    // Not a `for`: the position goes on by the length of the line that it is at.
    while at < to {
        let l = lines_fields::line_at(upto, at);
        let end = l.end;
        let e = entry_of(&upto[at..end], at, what);
        at = l.next;
        if let Some(number) = e {
            house::put(room, n, number);
            n += 1;
            continue;
        }
    }
    n
}
