// The check of a submission, and the writing of one, as C calls them.
#![tactic(auto)]

mod interface;

pub use interface::{
    FieldAt, LineFrom, Numbers, Written, tuulveski_check, tuulveski_field, tuulveski_field_from,
    tuulveski_line_from, tuulveski_write,
};
