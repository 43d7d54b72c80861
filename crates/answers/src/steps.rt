// The steps of the check, in the order of document 01's answers: each function answers from one of them on.
ghost use Rattle.std.specs.Prelude.{◌≡◌, [], ◌*◌, ◌≤◌, length, take};
ghost use Rattle.lines.specs.Shape.{shape_of};
ghost use Rattle.book.specs.Book.{Sound};
ghost use Rattle.rules.specs.Findings.{area_after};
ghost use Rattle.rules.specs.Look.{book_in};
ghost use Rattle.answers.specs.Answers.{file_most, lent, left, findings, roomed, judged, Gives};
ghost use Rattle.answers.specs.Inside.{book_buffer, block_least, short_file, after_book, after_ledger, as_lent, judged_of, Ready, Settling, Judges};

use crate::settle::settle;
use crate::{Accepted, FEW_PLACES, Refusal};
use book::Sections;
use dates::Date;
use lines::MOST_PLACES;
use rules::{By, Judged, MOST_BYTES};

// Room for a book, which has 262,144 bytes at most, and its hash table, which has 65,536.
const BOOK_BUFFER: usize = 327680;

// A file so short that neither a hash table nor a large buffer is worth its clearing.
const SHORT_FILE: usize = 16384;

// Judges a file of right shape, by a book and what follows it, be that its hash table or nothing: the findings go to their area, and the index
// of the blocks to the front of a buffer.
fn judge_into(
    file: &[u8],
    hashed: &[u8],
    by: By,
    ledger: &[u8],
    area: &mut [u8],
    buffer: &mut [u32],
) -> Judged
    requires ready { Ready (as_lent by file.now (book_in by hashed.now) ledger.now area.old) by }
    requires file_value { shape_of file.now ≡ Ok tt }
    requires file_len_bound { length file.now ≤ block_least * length buffer.old }
    ensures value { result ≡ judged_of (as_lent by file.now (book_in by hashed.now) ledger.now area.old) }
    ensures area_after { area.new ≡ area_after area.old
        (findings (as_lent by file.now (book_in by hashed.now) ledger.now area.old)) }
    ensures judges { Judges file.now ledger.now by.live result buffer.new }
{
    match rules::judge(file, hashed, by, ledger, buffer, area) {
        Some(judged) => judged,
        None => unreachable!(),
    }
}

// From FULL on, of a file without findings, by the index of its blocks at the front of a buffer. What the buffer holds is lost.
fn settle_blocks(
    file: &[u8],
    ledger: &mut [u8],
    live: usize,
    buffer: &mut [u32],
    blocks: usize,
    not_immunized: usize,
) -> Result<Accepted, Refusal>
    requires settling { Settling file.now ledger.old live (take blocks buffer.old) not_immunized }
    requires blocks_in_bounds { blocks ≤ length buffer.old }
    ensures { left result ledger.new [] ≡ roomed (lent 0 file.now [] ledger.old []) }
{
    let counts = settle(file, ledger, live, &mut buffer[..blocks]).ok_or(Refusal::Full)?;
    Ok(Accepted {
        added: counts.added,
        changed: counts.changed,
        deleted: counts.deleted,
        not_immunized,
    })
}

// From FINDINGS on, by a book and what follows it, in a buffer for the index.
fn judge_and_settle(
    file: &[u8],
    hashed: &[u8],
    by: By,
    ledger: &mut [u8],
    area: &mut [u8],
    buffer: &mut [u32],
) -> Result<Accepted, Refusal>
    requires ready { Ready (as_lent by file.now (book_in by hashed.now) ledger.old area.old) by }
    requires file_value { shape_of file.now ≡ Ok tt }
    requires file_len_bound { length file.now ≤ block_least * length buffer.old }
    ensures { left result ledger.new area.new
        ≡ judged (as_lent by file.now (book_in by hashed.now) ledger.old area.old) }
{
    let n = judge_into(file, hashed, by, ledger, area, buffer);
    let findings = n.findings;
    if findings == 0 {
        settle_blocks(file, ledger, by.live, buffer, n.blocks, n.not_immunized)
    } else {
        Err(Refusal::Findings(findings))
    }
}

// From FINDINGS on, by a book with its hash table. A file of right shape has no more blocks than can be sorted.
fn lend_index_buffer(
    file: &[u8],
    hashed: &[u8],
    by: By,
    ledger: &mut [u8],
    area: &mut [u8],
) -> Result<Accepted, Refusal>
    requires ready { Ready (as_lent by file.now (book_in by hashed.now) ledger.old area.old) by }
    requires file_value { shape_of file.now ≡ Ok tt }
    ensures { left result ledger.new area.new
        ≡ judged (as_lent by file.now (book_in by hashed.now) ledger.old area.old) }
{
    let mut buffer = [0u32; MOST_PLACES];
    judge_and_settle(file, hashed, by, ledger, area, &mut buffer)
}

// From FINDINGS on, in a buffer for the book with its hash table.
fn judge_by_hash(
    file: &[u8],
    book: &[u8],
    by: By,
    ledger: &mut [u8],
    area: &mut [u8],
    buffer: &mut [u8],
) -> Result<Accepted, Refusal>
    requires ready { Ready (as_lent by file.now book.now ledger.old area.old) by }
    requires file_value { shape_of file.now ≡ Ok tt }
    requires buffer_len { length buffer.old ≡ book_buffer }
    ensures { left result ledger.new area.new
        ≡ judged (as_lent by file.now book.now ledger.old area.old) }
{
    book::hash_book(book, by.sections, buffer);
    lend_index_buffer(file, buffer, by, ledger, area)
}

// From FINDINGS on, of any file: by a copy of the book with its hash table.
fn lend_book_buffer(
    file: &[u8],
    book: &[u8],
    by: By,
    ledger: &mut [u8],
    area: &mut [u8],
) -> Result<Accepted, Refusal>
    requires ready { Ready (as_lent by file.now book.now ledger.old area.old) by }
    requires file_value { shape_of file.now ≡ Ok tt }
    ensures { left result ledger.new area.new
        ≡ judged (as_lent by file.now book.now ledger.old area.old) }
{
    let mut buffer = [0u8; BOOK_BUFFER];
    judge_by_hash(file, book, by, ledger, area, &mut buffer)
}

// From FINDINGS on, of a short file: by the book as it is, without a hash table.
fn judge_short(
    file: &[u8],
    book: &[u8],
    by: By,
    ledger: &mut [u8],
    area: &mut [u8],
) -> Result<Accepted, Refusal>
    requires ready { Ready (as_lent by file.now book.now ledger.old area.old) by }
    requires file_value { shape_of file.now ≡ Ok tt }
    requires file_len_bound { length file.now ≤ short_file }
    ensures { left result ledger.new area.new
        ≡ judged (as_lent by file.now book.now ledger.old area.old) }
{
    let mut buffer = [0u32; FEW_PLACES];
    judge_and_settle(file, book, by, ledger, area, &mut buffer)
}

// From FINDINGS on.
fn from_findings(
    file: &[u8],
    book: &[u8],
    by: By,
    ledger: &mut [u8],
    area: &mut [u8],
) -> Result<Accepted, Refusal>
    requires ready { Ready (as_lent by file.now book.now ledger.old area.old) by }
    requires file_value { shape_of file.now ≡ Ok tt }
    ensures { left result ledger.new area.new
        ≡ judged (as_lent by file.now book.now ledger.old area.old) }
{
    if file.len() <= SHORT_FILE {
        judge_short(file, book, by, ledger, area)
    } else {
        lend_book_buffer(file, book, by, ledger, area)
    }
}

// From SHAPE on.
fn from_shape(
    file: &[u8],
    book: &[u8],
    by: By,
    ledger: &mut [u8],
    area: &mut [u8],
) -> Result<Accepted, Refusal>
    requires { Ready (as_lent by file.now book.now ledger.old area.old) by }
    ensures { left result ledger.new area.new
        ≡ after_ledger (as_lent by file.now book.now ledger.old area.old) }
{
    lines::shape_of(file)?;
    from_findings(file, book, by, ledger, area)
}

// From LEDGER on.
fn from_ledger(
    today: u32,
    file: &[u8],
    book: &[u8],
    sections: Sections,
    ledger: &mut [u8],
    area: &mut [u8],
) -> Result<Accepted, Refusal>
    requires sound { Sound book.now sections }
    requires file_len_bound { length file.now ≤ file_most }
    ensures { left result ledger.new area.new
        ≡ after_book (lent today file.now book.now ledger.old area.old) }
{
    let live = ledger::valid(ledger).ok_or(Refusal::Ledger)?;
    let by = By {
        today,
        sections,
        live,
    };
    from_shape(file, book, by, ledger, area)
}

// The check. The ledger alters only at ACCEPTED, the findings area only at FINDINGS.
pub fn check(
    today: u32,
    file: &[u8],
    book: &[u8],
    ledger: &mut [u8],
    area: &mut [u8],
) -> Result<Accepted, Refusal>
    ensures { Gives (lent today file.now book.now ledger.old area.old)
        result ledger.new area.new }
{
    if !Date::is_day(today) {
        return Err(Refusal::Date);
    }
    if MOST_BYTES < file.len() {
        return Err(Refusal::Long);
    }
    let sections = book::valid(book).ok_or(Refusal::Book)?;
    from_ledger(today, file, book, sections, ledger, area)
}
