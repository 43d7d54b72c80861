// What rules 12, 13 and 14 ask of the lines before or after a line.
ghost use Rattle.std.specs.Prelude.{◌≡◌, false, ◌+◌, ◌≤◌};
ghost use Rattle.rules.specs.Questions.{AnswersAre, answered, AnsweredIs, AskAt};
ghost use Rattle.rules.specs.Room.{no_lists, with_met, ListsAre};

use crate::antigens::ask_antigen;
use crate::lots::ask_lot;
use crate::sets::ask_sets;
use crate::{Answered, Answers, Here, Lists};
use lines::{IE, II};
use lines_fields::Span;

// Nothing is in the room, and no line was met.
pub(crate) fn no_lists() -> Lists
    ensures { result ≡ no_lists }
{
    let none = Span { start: 0, end: 0 };
    Lists {
        lots: 0,
        lots_made: false,
        first: none,
        firsts: 0,
        first_made: false,
        first_sound: false,
        own: none,
        owns: 0,
        own_made: false,
        antigens_met: 0,
        lots_met: 0,
    }
}

// So many are counted, and no more: a list is long before that.
const MOST_MET: usize = 1000;

// One more of the lines that are counted.
fn one_more(n: usize) -> usize
    ensures { result ≤ n + 1 }
{
    if n < MOST_MET { n + 1 } else { n }
}

// How many IE lines have come one after the other when a line of kind k has come.
fn next_antigens_met(n: usize, k: u8) -> usize
    ensures { result ≤ n + 1 }
{
    if k == IE { one_more(n) } else { 0 }
}

// How many II lines of one block have come after its first, IE lines aside.
fn next_lots_met(n: usize, k: u8, joined: bool) -> usize
    ensures { result ≤ n + 1 }
{
    if k == IE {
        return n;
    }
    if joined { one_more(n) } else { 0 }
}

// A line has come.
fn meet(l: Lists, here: Here) -> Lists
    ensures { result ≡ with_met l result.antigens_met result.lots_met }
{
    let facts = here.facts;
    Lists {
        antigens_met: next_antigens_met(l.antigens_met, here.kind),
        lots_met: next_lots_met(l.lots_met, here.kind, facts.joined),
        ..l
    }
}

// Nothing that a line other than an IE and a joining II asks is so.
fn nothing_asked(l: Lists) -> Answers
    ensures lists_value { result.lists ≡ l }
    ensures again_value { result.again ≡ false }
    ensures differ_value { result.differ ≡ false }
{
    Answers {
        lists: l,
        again: false,
        differ: false,
    }
}

// The answers for an IE.
fn ask_ie(file: &[u8], marks: &[u32], here: Here, l: Lists, room: &mut [u32]) -> Answers
    requires ask_at { AskAt file.now marks.now here }
    requires kind_value { here.kind ≡ 5 }
    requires lists_are { ListsAre file.now room.old l }
    ensures answers_are { AnswersAre file.now here result.again result.differ }
    ensures lists_are_2 { ListsAre file.now room.new result.lists }
{
    let a = ask_antigen(file, marks, here, l, room);
    let lists = a.lists;
    Answers {
        lists,
        again: a.found,
        differ: false,
    }
}

// The answers for an II.
fn ask_ii(file: &[u8], marks: &[u32], here: Here, l: Lists, room: &mut [u32]) -> Answers
    requires ask_at { AskAt file.now marks.now here }
    requires kind_value { here.kind ≡ 4 }
    requires lists_are { ListsAre file.now room.old l }
    ensures answers_are { AnswersAre file.now here result.again result.differ }
    ensures lists_are_2 { ListsAre file.now room.new result.lists }
{
    let facts = here.facts;
    if facts.joined {
        let a = ask_sets(file, marks, here, l, room);
        let b = ask_lot(file, marks, here, a.lists, room);
        let lists = b.lists;
        return Answers {
            lists,
            again: b.found,
            differ: a.found,
        };
    }
    nothing_asked(l)
}

// The answers for a line.
fn ask(file: &[u8], marks: &[u32], here: Here, l: Lists, room: &mut [u32]) -> Answers
    requires ask_at { AskAt file.now marks.now here }
    requires lists_are { ListsAre file.now room.old l }
    ensures answers_are { AnswersAre file.now here result.again result.differ }
    ensures lists_are_2 { ListsAre file.now room.new result.lists }
{
    let met = meet(l, here);
    let kind = here.kind;
    match kind {
        IE => ask_ie(file, marks, here, met, room),
        II => ask_ii(file, marks, here, met, room),
        _ => nothing_asked(met),
    }
}

// What is known of a line, with these answers.
fn answer(h: Here, again: bool, differ: bool) -> Here
    ensures { result ≡ answered h again differ }
{
    Here { again, differ, ..h }
}

// What is known of a line, with what rules 12 to 14 ask of other lines.
pub(crate) fn with_answers(
    file: &[u8],
    marks: &[u32],
    here: Here,
    l: Lists,
    room: &mut [u32],
) -> Answered
    requires ask_at { AskAt file.now marks.now here }
    requires lists_are { ListsAre file.now room.old l }
    ensures answered_is { AnsweredIs file.now here result.here }
    ensures lists_are_2 { ListsAre file.now room.new result.lists }
{
    let a = ask(file, marks, here, l, room);
    let lists = a.lists;
    let told = answer(here, a.again, a.differ);
    Answered { lists, here: told }
}
