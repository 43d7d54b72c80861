// Charts as they are read: kinds, widths, form, how long the written lines are, and what is noted of records.
#![tactic(auto)]

mod form;
mod given;
mod kinds;
mod lengths;
mod measures;
mod notes;
mod widths;

pub use form::is_chart;
pub use kinds::{body_width, kind_at, record_end};
pub use lengths::fits;
pub use measures::{RECORD, ROOM, measure};
pub use notes::{NOTE_WIDTH, noted_end};
pub use widths::widths_of;
