// The line reader: the kinds of records, their order, and a file's shape; and, of the crates below, the field of a line.
#![tactic(auto)]

mod bytes;
mod faults;
mod kinds;

pub use faults::shape_of;
pub use kinds::{IA, IE, IF, IH, II, IN, IP, IV, kind_of, may_follow};
pub use lines_fields::{field, field_position, find_field, has_field, lines_on};
pub use lines_places::MOST_PLACES;

// The causes of a fault of shape, in document 01's order.
#[derive(Clone, Copy)]
pub enum Cause {
    NoLineFeed,
    WrongByte,
    NoPipe,
    UnknownType,
    FieldCount,
    Order,
    NoEnd,
}

// A fault of shape: the first line that has one, and its lowest cause.
#[derive(Clone, Copy)]
pub struct Fault {
    pub line: usize,
    pub cause: Cause,
}
