// The forms of texts and fields: what one text decides alone, which form each field takes, which are mandatory, when one is sound, and when an
// event is relaxed.
#![tactic(auto)]

mod classes;
mod fields;
mod texts;

pub use fields::{is_given, relaxed, rule10_lacks, rules1_and_2, sound_text};
pub use texts::{
    is_batch, is_code, is_count, is_date, is_historical, is_prefix, is_type, is_uli, value,
};
