// What C is given: include/tuulveski.h declares it, and the static library tuulveski_c exports it.
ghost use Rattle.std.specs.Prelude.{◌≡◌, ◌<◌};
ghost use Rattle.answers.specs.Answers.{lent, numbers_of};
ghost use Rattle.chart_definitions.specs.Submissions.{request, Writes};
ghost use Rattle.tuulveski.specs.Interface.{numbers, numbers_in, GivesNumbers, field_at, field_from, line_from};
ghost use Rattle.tuulveski.specs.Inside.{Narrow};

use answers::{Accepted, Refusal};

// The numbers of an answer, those that it does not name being 0.
#[repr(C)]
#[derive(Clone, Copy)]
pub struct Numbers {
    pub answer: u32,
    pub line: u32,
    pub cause: u32,
    pub findings: u32,
    pub added: u32,
    pub changed: u32,
    pub deleted: u32,
    pub not_immunized: u32,
}

// A field: whether it is there, where its text starts in the file, and how long it is. A flag beside two numbers: so C has it.
#[repr(C)]
#[derive(Clone, Copy)]
pub struct FieldAt {
    pub present: bool,
    pub start: usize,
    pub length: usize,
}

// A line: its number, counted from 1, and where it starts in the file.
#[repr(C)]
#[derive(Clone, Copy)]
pub struct LineFrom {
    pub line: usize,
    pub start: usize,
}

// What writing answers, and the length of the file, 0 where it is refused.
#[repr(C)]
#[derive(Clone, Copy)]
pub struct Written {
    pub answer: u32,
    pub length: u32,
}

// A number of 32 bits.
fn narrow(n: usize) -> u32
    requires { n < 4294967296 }
    ensures { result ≡ n }
{
    n as u32
}

// A refusal, with the numbers that it names.
fn refused(answer: u32, line: u32, cause: u32, findings: u32) -> Numbers
    ensures { result ≡ numbers answer line cause findings 0 0 0 0 }
{
    Numbers {
        answer,
        line,
        cause,
        findings,
        added: 0,
        changed: 0,
        deleted: 0,
        not_immunized: 0,
    }
}

// The numbers of an answer.
fn numbers_of(a: Result<Accepted, Refusal>) -> Numbers
    requires { Narrow a }
    ensures { numbers_in result ≡ numbers_of a }
{
    match a {
        Ok(accepted) => Numbers {
            answer: 0,
            line: 0,
            cause: 0,
            findings: 0,
            added: narrow(accepted.added),
            changed: narrow(accepted.changed),
            deleted: narrow(accepted.deleted),
            not_immunized: narrow(accepted.not_immunized),
        },
        Err(Refusal::Date) => refused(1, 0, 0, 0),
        Err(Refusal::Long) => refused(2, 0, 0, 0),
        Err(Refusal::Book) => refused(3, 0, 0, 0),
        Err(Refusal::Ledger) => refused(4, 0, 0, 0),
        Err(Refusal::Shape(fault)) => refused(
            5,
            narrow(fault.line),
            fault.cause.number() as u32,
            0,
        ),
        Err(Refusal::Findings(n)) => refused(6, 0, 0, narrow(n)),
        Err(Refusal::Full) => refused(7, 0, 0, 0),
    }
}

// The check, its answer as numbers.
pub fn tuulveski_check(
    today: u32,
    file: &[u8],
    book: &[u8],
    ledger: &mut [u8],
    findings: &mut [u8],
) -> Numbers
    ensures { GivesNumbers (lent today file.now book.now ledger.old findings.old)
        result ledger.new findings.new }
{
    let a = answers::check(today, file, book, ledger, findings);
    numbers_of(a)
}

// Field `field` of line `line`, both counted from 1, in a file of any shape.
pub fn tuulveski_field(file: &[u8], line: usize, field: usize) -> FieldAt
    ensures { result ≡ field_at file.now line field }
{
    let present = lines::has_field(file, line, field);
    let start = lines::field_position(file, line, field);
    let text = lines::field(file, line, field);
    FieldAt {
        present,
        start,
        length: text.len(),
    }
}

// Line `line`, found by going on from line `number`, which starts at a position.
pub fn tuulveski_line_from(file: &[u8], start: usize, number: usize, line: usize) -> LineFrom
    ensures { result ≡ line_from file.now start number line }
{
    if line <= number {
        return LineFrom {
            line: number,
            start,
        };
    }
    let start = lines::lines_on(file, start, line - number);
    LineFrom { line, start }
}

// Field `field`, counted from 1, of the line that starts at a position.
pub fn tuulveski_field_from(file: &[u8], start: usize, field: usize) -> FieldAt
    ensures { result ≡ field_from file.now start field }
{
    let place = lines::find_field(file, start, field);
    FieldAt {
        present: place.there,
        start: place.start,
        length: place.length,
    }
}

// Writes a submission from a chart into an area.
pub fn tuulveski_write(prefix: &[u8], batch: &[u8], chart: &[u8], out: &mut [u8]) -> Written
    ensures { Writes (request prefix.now batch.now chart.now out.old)
        result.answer result.length out.new }
{
    match chart::write(prefix, batch, chart, out) {
        Ok(length) => Written { answer: 0, length },
        Err(refusal) => Written {
            answer: refusal.number(),
            length: 0,
        },
    }
}
