// The block of a line: whether the line is in one, whether it joins the open one, and what a table of repeats and the ledger say of its event.
ghost use Rattle.std.specs.Prelude.{◌≡◌, ◌≤◌};
ghost use Rattle.rules_definitions.specs.Forms.{text};
ghost use Rattle.rules_definitions.specs.Blocks.{event_of, is_in_block};
ghost use Rattle.house.specs.Text.{same};
ghost use Rattle.rules.specs.Walk.{ReadIn, rec_in, part_of, joins_open_by, block_by, facts_by};

use crate::{BlockAt, Open};
use house::Key;
use lines::II;
use lines_fields::{Span, judged, part};
use rules_fields::Facts;

// The event that a line names.
fn event_of(file: &[u8], marks: &[u32]) -> [u8; Key::WIDTH]
    requires { ReadIn file.now marks.now }
    ensures { result ≡ event_of (rec_in file.now marks.now) }
{
    let key = Key::of(
        judged(file, marks, 3),
        judged(file, marks, 6),
        judged(file, marks, 8),
    );
    key.bytes
}

// Whether a line is an II in a block: its fields 3, 4, 6 and 8 are sound.
fn in_block(file: &[u8], marks: &[u32], k: u8) -> bool
    requires read_in { ReadIn file.now marks.now }
    requires k_value { k ≡ (rec_in file.now marks.now).kind }
    ensures { result ≡ is_in_block (rec_in file.now marks.now) }
{
    if k != II {
        return false;
    }
    rules_walk::four_sound(
        judged(file, marks, 3),
        judged(file, marks, 4),
        judged(file, marks, 6),
        judged(file, marks, 8),
    )
}

// Whether field f of a line is what stands at a part of the file.
fn same_at(file: &[u8], marks: &[u32], f: usize, p: Span) -> bool
    requires read_in { ReadIn file.now marks.now }
    requires f_bound { f ≤ 28 }
    ensures { result ≡ same (text (rec_in file.now marks.now) f) (part_of file.now p) }
{
    let start = p.start;
    let end = p.end;
    house::same(judged(file, marks, f), part(file, start, end))
}

// Whether a line is of one event and one type with the nearest II of the open block.
fn joins_open(file: &[u8], marks: &[u32], last: Open) -> bool
    requires { ReadIn file.now marks.now }
    ensures { result ≡ joins_open_by file.now (rec_in file.now marks.now) last }
{
    let kind = last.kind;
    if same_at(file, marks, 4, kind) {
        let uli = last.uli;
        if same_at(file, marks, 3, uli) {
            let date = last.date;
            if same_at(file, marks, 6, date) {
                let vaccine = last.vaccine;
                return same_at(file, marks, 8, vaccine);
            }
            return false;
        }
        return false;
    }
    false
}

// Whether a line that starts at a position is in a block, whether it joins the open one, and where its block starts.
pub(crate) fn block_of(
    file: &[u8],
    marks: &[u32],
    k: u8,
    at: usize,
    last: Open,
    run: usize,
) -> BlockAt
    requires read_in { ReadIn file.now marks.now }
    requires k_value { k ≡ (rec_in file.now marks.now).kind }
    ensures { result ≡ block_by file.now (rec_in file.now marks.now) at last run }
{
    if in_block(file, marks, k) {
        if joins_open(file, marks, last) {
            return BlockAt {
                inb: true,
                joined: true,
                from: run,
            };
        }
        return BlockAt {
            inb: true,
            joined: false,
            from: at,
        };
    }
    BlockAt {
        inb: false,
        joined: false,
        from: at,
    }
}

// What is known of a line, by its block.
pub(crate) fn facts_of(
    file: &[u8],
    marks: &[u32],
    table: &[u8],
    ledger: &[u8],
    live: usize,
    b: BlockAt,
) -> Facts
    requires { ReadIn file.now marks.now }
    ensures { result ≡ facts_by (rec_in file.now marks.now) table.now ledger.now live b }
{
    let joined = b.joined;
    if b.inb {
        let key = event_of(file, marks);
        let repeated = rules_walk::is_noted(table, b.from);
        let alive = ledger::is_live(ledger, live, key);
        return Facts {
            inb: true,
            joined,
            repeated,
            live: alive,
        };
    }
    Facts {
        inb: false,
        joined,
        repeated: false,
        live: false,
    }
}
