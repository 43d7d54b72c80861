// What the program answers of what it reads.
ghost use Rattle.std.specs.Prelude.{◌≡◌};
ghost use Rattle.answers.specs.Answers.{left};
ghost use Rattle.console.specs.Program.{today_in, over_long, answer_of};

use answers::{Accepted, Refusal};
use dates::Date;

// Eight digits of today and LF.
const TODAY_LINE: usize = 9;

// "the submission (at most 32,000 bytes)"
const MOST_SUBMISSION: usize = 32000;

const MOST_INPUT: usize = TODAY_LINE + MOST_SUBMISSION;

// "`codes.bin` (16,000) and `ledger.bin` (7,600)"
const MOST_CODES: usize = 16000;

const MOST_LEDGER: usize = 7600;

// Today, where the first line is a date: eight digits and LF; 0, which is no date, for any other first line.
fn today_in(input: &[u8]) -> u32
    ensures { result ≡ today_in input.now }
{
    if input.len() < TODAY_LINE {
        return 0;
    }
    if input[8] != b'\n' {
        return 0;
    }
    let d = Date::of(&input[..8]);
    match d {
        Some(date) => date.number,
        None => 0,
    }
}

// A ledger that is too long is LEDGER, unless the book is malformed.
fn over_long(book: &[u8]) -> Refusal
    ensures { result ≡ over_long book.now }
{
    match book::valid(book) {
        Some(_) => Refusal::Ledger,
        None => Refusal::Book,
    }
}

// The answer to what was read.
pub fn answer(
    input: &[u8],
    book: &[u8],
    ledger: &mut [u8],
    area: &mut [u8],
) -> Result<Accepted, Refusal>
    ensures { left result ledger.new area.new
        ≡ answer_of input.now book.now ledger.old area.old }
{
    let today = today_in(input);
    if today == 0 {
        return Err(Refusal::Date);
    }
    if MOST_INPUT < input.len() {
        return Err(Refusal::Long);
    }
    if MOST_CODES < book.len() {
        return Err(Refusal::Book);
    }
    if MOST_LEDGER < ledger.len() {
        return Err(over_long(book));
    }
    answers::check(today, &input[TODAY_LINE..], book, ledger, area)
}
