// A submission written from a chart.
#![tactic(auto)]

mod areas;
mod arrange;
mod files;
mod hints;
mod lots;
mod patients;
mod records;
mod runs;

ghost use Rattle.std.specs.Prelude.{◌≡◌, []};
ghost use Rattle.chart_definitions.specs.Submissions.{request, is_right, Writes};
ghost use Rattle.chart.specs.Written.{number_of, answer_of, length_of};

use chart_records::{RECORD, ROOM};
use rules_forms::{is_batch, is_prefix};

// Where writing stands: the position in the chart of the next record, the number that it gets, and the position of its line in the area.
#[derive(Clone, Copy)]
struct Spot {
    at: usize,
    number: usize,
    pos: usize,
}

// Why nothing is written, by document 02's names.
#[derive(Clone, Copy)]
pub enum Refusal {
    Record,
    Room,
}

impl Refusal {
    // The number that document 02 gives a refusal.
    pub fn number(self) -> u32
        ensures { result ≡ number_of self }
    {
        match self {
            Refusal::Record => RECORD,
            Refusal::Room => ROOM,
        }
    }
}

// Whether prefix, batch number and chart are of their forms.
fn is_right(prefix: &[u8], batch: &[u8], chart: &[u8]) -> bool
    ensures { result ≡ is_right (request prefix.now batch.now chart.now []) }
{
    if is_prefix(prefix) {
        if is_batch(batch) {
            return chart_records::is_chart(chart);
        }
    }
    false
}

// Writes a submission from a chart into an area; how long the file is.
pub fn write(prefix: &[u8], batch: &[u8], chart: &[u8], out: &mut [u8]) -> Result<u32, Refusal>
    ensures { Writes (request prefix.now batch.now chart.now out.old)
        (answer_of result) (length_of result) out.new }
{
    if !is_right(prefix, batch, chart) {
        return Err(Refusal::Record);
    }
    if !files::has_room(prefix, batch, chart, out.len()) {
        return Err(Refusal::Room);
    }
    Ok(files::put_in_room(out, prefix, batch, chart) as u32)
}
