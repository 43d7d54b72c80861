// The code book: a reader of its entries, whether it is well formed, and what it says of a code on a day.
#![tactic(auto)]

mod codes;
mod days;
mod forms;
mod hash_table;
mod kinds;
mod layouts;
mod reader;
mod search;
mod well_formed;
mod widths;

pub use days::look_up;
pub use hash_table::hash_book;
pub use kinds::{
    ANTIGEN, DOSAGE_TYPE, MANUFACTURER, REASON, REASON_NOT, VACCINE, WITH_ANTIGEN, WITH_REASON,
};
pub use search::find;
pub use well_formed::valid;

// A position in a book.
#[derive(Clone, Copy)]
pub struct Position {
    pub at: usize,
}

// What stands at a position: a whole entry of a known kind, with where its body starts and the next position; the end; or neither.
// No `Option` and no `Result`: there are three ways, and `Option<Result<Entry, Malformed>>` says them in two constructors each.
#[derive(Clone, Copy)]
pub enum Read {
    Entry {
        kind: u8,
        body: usize,
        next: Position,
    },
    End,
    Malformed,
}

// Where the entries of each kind start, and where the last end. Those of kind 1 start the book.
#[derive(Clone, Copy)]
pub struct Sections {
    antigens: usize,
    reasons: usize,
    manufacturers: usize,
    dosage_types: usize,
    reasons_not: usize,
    with_reason: usize,
    with_antigen: usize,
    end: usize,
}

// Where the entries of a kind lie, and the bytes of a code or the first of two, of the second, and of a whole entry.
#[derive(Clone, Copy)]
pub(crate) struct Layout {
    pub(crate) from: usize,
    pub(crate) to: usize,
    pub(crate) first: usize,
    pub(crate) second: usize,
    pub(crate) entry: usize,
}

// What a book says of a code on a day.
#[derive(Clone, Copy)]
pub enum Standing {
    Unknown,
    OutOfForce,
    InForce,
}
