// The C interface, exported: include/tuulveski.h declares it. Each function is the library's of its name.
#![tactic(auto)]

ghost use Rattle.std.specs.Prelude.{◌≡◌};
ghost use Rattle.answers.specs.Answers.{lent};
ghost use Rattle.chart_definitions.specs.Submissions.{request, Writes};
ghost use Rattle.tuulveski.specs.Interface.{GivesNumbers, field_at, field_from, line_from};

use tuulveski::{FieldAt, LineFrom, Numbers, Written};

// The check, its answer as numbers.
#[unsafe(no_mangle)]
pub extern "C" fn tuulveski_check(
    today: u32,
    file: &[u8],
    book: &[u8],
    ledger: &mut [u8],
    findings: &mut [u8],
) -> Numbers
    ensures { GivesNumbers (lent today file.now book.now ledger.old findings.old)
        result ledger.new findings.new }
{
    tuulveski::tuulveski_check(today, file, book, ledger, findings)
}

// Field `field` of line `line`, both counted from 1, in a file of any shape.
#[unsafe(no_mangle)]
pub extern "C" fn tuulveski_field(file: &[u8], line: usize, field: usize) -> FieldAt
    ensures { result ≡ field_at file.now line field }
{
    tuulveski::tuulveski_field(file, line, field)
}

// Line `line`, found by going on from line `number`, which starts at a position.
#[unsafe(no_mangle)]
pub extern "C" fn tuulveski_line_from(
    file: &[u8],
    start: usize,
    number: usize,
    line: usize,
) -> LineFrom
    ensures { result ≡ line_from file.now start number line }
{
    tuulveski::tuulveski_line_from(file, start, number, line)
}

// Field `field`, counted from 1, of the line that starts at a position.
#[unsafe(no_mangle)]
pub extern "C" fn tuulveski_field_from(file: &[u8], start: usize, field: usize) -> FieldAt
    ensures { result ≡ field_from file.now start field }
{
    tuulveski::tuulveski_field_from(file, start, field)
}

// Writes a submission from a chart into an area.
#[unsafe(no_mangle)]
pub extern "C" fn tuulveski_write(
    prefix: &[u8],
    batch: &[u8],
    chart: &[u8],
    out: &mut [u8],
) -> Written
    ensures { Writes (request prefix.now batch.now chart.now out.old)
        result.answer result.length out.new }
{
    tuulveski::tuulveski_write(prefix, batch, chart, out)
}
