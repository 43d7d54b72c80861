// Whether an antigen was given before in its II: rule 12.
ghost use Rattle.std.specs.Prelude.{◌≡◌, true, false};
ghost use Rattle.rules_definitions.specs.Forms.{text};
ghost use Rattle.rules_forms.specs.FieldLeaves.{sound_in};
ghost use Rattle.rules.specs.Walk.{line_rec};
ghost use Rattle.rules.specs.Questions.{antigen_again, AskAt, AntigenAsked};
ghost use Rattle.rules.specs.Room.{ListsAre, OwnHeld};

use crate::room::with_own;
use crate::{Asked, FEW_LINES, Here, Lists};
use lines::IE;
use lines_fields::{judged, part};
use lines_words::{WORD, has_between};
use rules_forms::sound_text;

// The mark of field 4 of an IE, its antigen: where it starts.
const ANTIGEN_MARK: usize = 3;

// Rule 12 by a scan. The lines are asked for first: most antigens are given once.
fn rule12_scanned(t: &[u8], since: &[u8]) -> bool
    ensures { result ≡ antigen_again t.now since.now }
{
    if rules_lists::rule12_any_antigen(t, since) {
        sound_text(IE, false, 4, t)
    } else {
        false
    }
}

// Whether the antigen of an IE, which is sound, was given before in its II: by the room's list, if it was made.
fn antigen_found(file: &[u8], marks: &[u32], here: Here, l: Lists, room: &[u32]) -> bool
    requires ask_at { AskAt file.now marks.now here }
    requires at_value { sound_in 5 false 4 (text (line_rec file.now here.at) 4) ≡ true }
    requires lists_are { ListsAre file.now room.now l }
    requires own_held { OwnHeld l here }
    ensures { AntigenAsked file.now here result }
{
    if l.own_made {
        let from = l.firsts;
        let to = l.owns;
        let since = here.since as u32;
        return has_between(file, WORD, &room[from..to], since, marks[ANTIGEN_MARK]);
    }
    rule12_scanned(judged(file, marks, 4), part(file, here.since, here.at))
}

// Whether rule 12 is broken at an IE. At the first of its II it is not.
pub(crate) fn ask_antigen(
    file: &[u8],
    marks: &[u32],
    here: Here,
    l: Lists,
    room: &mut [u32],
) -> Asked
    requires ask_at { AskAt file.now marks.now here }
    requires lists_are { ListsAre file.now room.old l }
    ensures antigen_asked { AntigenAsked file.now here result.found }
    ensures lists_are_2 { ListsAre file.now room.new result.lists }
{
    if here.at <= here.since {
        return Asked {
            lists: l,
            found: false,
        };
    }
    let t = judged(file, marks, 4);
    if l.antigens_met <= FEW_LINES {
        let found = rule12_scanned(t, part(file, here.since, here.at));
        return Asked { lists: l, found };
    }
    if sound_text(IE, false, 4, t) {
        let made = with_own(file, here, l, room);
        let found = antigen_found(file, marks, here, made, room);
        return Asked { lists: made, found };
    }
    Asked {
        lists: l,
        found: false,
    }
}
