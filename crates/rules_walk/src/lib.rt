// Blocks of II lines, and their index: where the first II line of each block starts, by event; those of them whose event an
// earlier block names, and its parts by submission type.
#![tactic(auto)]

mod blocks;
mod index;
mod parts;
mod repeats;

pub use blocks::four_sound;
pub use index::sort_index;
pub use parts::{count_of, keep, part_of};
pub use repeats::{is_noted, note_repeats};

// The longest file whose index is built.
pub const MOST_BYTES: usize = 5000000;

// An index in order: of so many blocks, and whether no two of them name one event.
#[derive(Clone, Copy)]
pub struct Built {
    pub blocks: usize,
    pub distinct: bool,
}
