// Words of a file, or records of a chart, by their places: entries put in the order of a key, and what is asked of them then.
#![tactic(auto)]

mod asked;
mod events;
mod hashes;
mod keys;
mod search;
mod sorting;

pub use asked::{find_entry, has_between, keep_apart, keys_among, one_key};
pub use events::event_order;
pub use hashes::event_hash;
pub use sorting::sort;

// The key that is a count and a word, and the key that is the event of a chart record behind its number; any other number is for the word alone.
// No enum: `sort` and what is asked of entries answer for every number, and an enum would ask more of their callers.
pub const COUNT_AND_WORD: u8 = 1;

pub const EVENT: u8 = 2;

pub const WORD: u8 = 0;

// Places are below this number; what an entry has over it is a count.
pub const PLACE_BOUND: u32 = 8388608;
