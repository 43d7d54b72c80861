// The places of an index whose event the place just before names, noted in a table by position: no line is looked up again.
ghost use Rattle.std.specs.Prelude.{◌≡◌, cond};
ghost use Rattle.house.specs.Text.{same};
ghost use Rattle.lines_places.specs.Events.{event_at};
ghost use Rattle.rules_walk.specs.Repeats.{repeats_in, note_at, note_all, is_noted};

use house::{Key, wide};

// A table has an entry for so many bytes of the file.
const ENTRY: usize = 16;

// An entry where a position is noted.
const NOTED: u8 = 1;

// Whether a table notes a position.
pub fn is_noted(table: &[u8], p: usize) -> bool
    ensures { result ≡ is_noted table.now p }
{
    let i = p / ENTRY;
    if i < table.len() {
        return table[i] == NOTED;
    }
    false
}

// Notes a position in a table, if the table goes so far.
fn note(table: &mut [u8], p: usize)
    ensures { table.new ≡ note_at table.old p }
{
    let at = p / ENTRY;
    if at < table.len() {
        table[at] = NOTED;
    }
}

// Notes a place in a table, if it is to be noted.
fn note_if(table: &mut [u8], p: u32, again: bool)
    ensures { table.new ≡ cond again (note_at table.old p) table.old }
{
    if again {
        note(table, wide(p));
    }
}

// Notes a place in a table if its event is the one before it; its event.
fn note_again(file: &[u8], p: u32, last: [u8; Key::WIDTH], table: &mut [u8]) -> [u8; Key::WIDTH]
    ensures value { result ≡ event_at file.now p }
    ensures table_after { table.new ≡ cond (same last result) (note_at table.old p) table.old }
{
    let key = lines_places::key_at(file, wide(p));
    note_if(table, p, house::same(&last, &key));
    key
}

// Notes those places of an index in a table whose event the place just before names. The line at each is read once.
pub fn note_repeats(file: &[u8], index: &[u32], table: &mut [u8])
    ensures { table.new ≡ note_all (repeats_in file.now index.now) table.old }
{
    if let Some((first, rest)) = index.split_first() {
        let mut last = lines_places::key_at(file, wide(*first));
        for p in rest {
            let key = note_again(file, *p, last, table);
            last = key;
        }
    }
}
