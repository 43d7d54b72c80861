// The ledger: its form, the look-up of an event, and what an accepted file does to it.
#![tactic(auto)]

mod find;
mod form;
mod slots;
mod updates;

pub use find::is_live;
pub use form::valid;
pub use updates::update;

// "slots of 38 bytes"
pub const SLOT: usize = 38;

// "at most 100,000 slots"
pub(crate) const MOST_SLOTS: usize = 100000;
