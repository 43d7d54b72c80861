// Whether an earlier II of its block has the lot of an II: rule 14.
ghost use Rattle.std.specs.Prelude.{◌≡◌, true, ◌&&◌, ◌≤◌, ltb, leb};
ghost use Rattle.lines_fields.specs.Marks.{marked_count};
ghost use Rattle.rules_definitions.specs.Forms.{text};
ghost use Rattle.rules_forms.specs.FieldLeaves.{sound_in};
ghost use Rattle.rules.specs.Walk.{line_rec};
ghost use Rattle.rules.specs.Questions.{AskAt, LotAsked};
ghost use Rattle.rules.specs.Room.{ListsAre};

use crate::room::with_lots;
use crate::{Asked, FEW_LINES, Here, Lists};
use lines::II;
use lines_fields::{count_marked, judged, part};
use lines_words::{WORD, has_between};
use rules_forms::sound_text;

// The mark of field 15 of an II, its lot: where it starts.
const LOT_MARK: usize = 14;

// Whether an earlier II of its block has the lot of an II, which has the form of a lot: by the room's list, if it was made.
fn lot_found(file: &[u8], marks: &[u32], here: Here, l: Lists, room: &[u32]) -> bool
    requires ask_at { AskAt file.now marks.now here }
    requires at_value { sound_in 4 true 15 (text (line_rec file.now here.at) 15) ≡ true }
    requires bound { 15 ≤ marked_count marks.now }
    requires lists_are { ListsAre file.now room.now l }
    ensures { LotAsked file.now here result }
{
    if l.lots_made {
        let from = 0;
        let to = l.lots;
        let block = here.block as u32;
        return has_between(file, WORD, &room[from..to], block, marks[LOT_MARK]);
    }
    rules_lists::rule14_any_lot(judged(file, marks, 15), part(file, here.block, here.at))
}

// Whether an earlier II of its block has the lot of an II, where these are many.
fn ask_long_lot(file: &[u8], marks: &[u32], here: Here, l: Lists, room: &mut [u32]) -> Asked
    requires ask_at { AskAt file.now marks.now here }
    requires bound { 15 ≤ marked_count marks.now }
    requires lists_are { ListsAre file.now room.old l }
    ensures lot_asked { LotAsked file.now here result.found }
    ensures lists_are_2 { ListsAre file.now room.new result.lists }
{
    if sound_text(II, true, 15, judged(file, marks, 15)) {
        let made = with_lots(file, l, room);
        let found = lot_found(file, marks, here, made, room);
        return Asked { lists: made, found };
    }
    Asked {
        lists: l,
        found: false,
    }
}

// Whether the lots of an II's block are to be looked for in a list: it has many, and its own, as every II of a file of right shape.
fn is_lot_listed(marks: &[u32], met: usize) -> bool
    ensures { result ≡ leb 15 (marked_count marks.now) && ltb 16 met }
{
    if 15 <= count_marked(marks) {
        return FEW_LINES < met;
    }
    false
}

// Whether an earlier II of its block has the lot of an II.
pub(crate) fn ask_lot(file: &[u8], marks: &[u32], here: Here, l: Lists, room: &mut [u32]) -> Asked
    requires ask_at { AskAt file.now marks.now here }
    requires lists_are { ListsAre file.now room.old l }
    ensures lot_asked { LotAsked file.now here result.found }
    ensures lists_are_2 { ListsAre file.now room.new result.lists }
{
    if is_lot_listed(marks, l.lots_met) {
        return ask_long_lot(file, marks, here, l, room);
    }
    let found = rules_lists::rule14_any_lot(
        judged(file, marks, 15),
        part(file, here.block, here.at),
    );
    Asked { lists: l, found }
}
