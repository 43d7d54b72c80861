// The walk over a file: each line judged in turn, and the first places of its blocks gathered.
ghost use Rattle.std.specs.Prelude.{◌≡◌, not, ◌&&◌, ◌≤◌, length};
ghost use Rattle.rules_walk.specs.Firsts.{file_most};
ghost use Rattle.rules.specs.Look.{setting_by};
ghost use Rattle.rules.specs.Judged.{room_most, WalkIs};

use crate::line::judge_line;
use crate::look::look;
use crate::questions::{no_lists, with_answers};
use crate::walk::{advance, start};
use crate::{By, Judged, SHORT_FILE};
use lines_fields::MARKS;
use rules_fields::Facts;

// A file that is not long.
const MEDIUM_FILE: usize = 524288;

// Rooms for lists, of a short file, of one that is not long and of any: nine bytes of a file have an entry at most, for an antigen or a lot takes
// a line of that length.
const SMALL_ROOM: usize = 1821;

const MEDIUM_ROOM: usize = 58255;

const LARGE_ROOM: usize = 555556;

// Whether a line begins a block.
fn begins(facts: Facts) -> bool
    ensures { result ≡ facts.inb && not facts.joined }
{
    if facts.inb {
        if facts.joined { false } else { true }
    } else {
        false
    }
}

// Every line of a file, a block being one whose event is named before if a table notes its start: the findings counted, and those that fit
// written; and where each block's first II line starts is written to the front of an area, as many as fit. Long lists go to a room that is
// lent, as far as they fit.
fn walk(
    file: &[u8],
    table: &[u8],
    ledger: &[u8],
    book: &[u8],
    by: By,
    firsts: &mut [u32],
    area: &mut [u8],
    room: &mut [u32],
) -> Judged
    requires { length file.now ≤ file_most }
    ensures { WalkIs (setting_by by book.now ledger.now)
        file.now table.now area.old firsts.old result area.new firsts.new }
{
    let mut marks = [0u32; MARKS];
    let mut st = start();
    let mut lists = no_lists();
    let mut at = 0;
    let mut findings = 0;
    let mut blocks: usize = 0;
    // Not a `for`: the position goes on by the length of the line that it is at.
    while at < file.len() {
        let here = look(file, &mut marks, at, st, table, ledger, by.live);
        let answered = with_answers(file, &marks, here, lists, room);
        lists = answered.lists;
        findings = judge_line(file, &marks, answered.here, book, by, area, findings);
        st = advance(file, &marks, st, here);
        let first = at as u32;
        at = here.next;
        if begins(here.facts) {
            house::put(firsts, blocks, first);
            blocks += 1;
            continue;
        }
    }
    let not_immunized = st.not_immunized;
    Judged {
        blocks,
        findings,
        not_immunized,
    }
}

// The same in a room of so many places. Each room has a frame of its own, so that the check of a short file reserves no larger one. The size is a
// parameter, since a room as large as the largest is too long a list to be counted out in a proof.
#[inline(never)]
fn walk_in_room_of<const ROOM: usize>(
    file: &[u8],
    table: &[u8],
    ledger: &[u8],
    book: &[u8],
    by: By,
    firsts: &mut [u32],
    area: &mut [u8],
) -> Judged
    requires file_bound { length file.now ≤ file_most }
    requires room_bound { ROOM ≤ room_most }
    ensures { WalkIs (setting_by by book.now ledger.now)
        file.now table.now area.old firsts.old result area.new firsts.new }
{
    let mut room = [0u32; ROOM];
    walk(file, table, ledger, book, by, firsts, area, &mut room)
}

// The same in a room for the lists of a file of this length. The less room there is, the less is to be cleared.
pub(crate) fn walk_in_room(
    file: &[u8],
    table: &[u8],
    ledger: &[u8],
    book: &[u8],
    by: By,
    firsts: &mut [u32],
    area: &mut [u8],
) -> Judged
    requires { length file.now ≤ file_most }
    ensures { WalkIs (setting_by by book.now ledger.now)
        file.now table.now area.old firsts.old result area.new firsts.new }
{
    if file.len() <= SHORT_FILE {
        return walk_in_room_of::<SMALL_ROOM>(file, table, ledger, book, by, firsts, area);
    }
    if file.len() <= MEDIUM_FILE {
        return walk_in_room_of::<MEDIUM_ROOM>(file, table, ledger, book, by, firsts, area);
    }
    walk_in_room_of::<LARGE_ROOM>(file, table, ledger, book, by, firsts, area)
}
