// Which rules are broken at a field, by its text, where there is more than one or the book is asked.
#![tactic(auto)]

mod by_field;
mod by_rule;
mod codes;

pub use by_field::{
    ie4_antigen, ii4_type, ii8_vaccine, ii9_site, ii10_method, ii11_reason, ii12_dosage,
    ii13_dosage_type,
};
pub use codes::{ANY_END, code_field};

// Up to three rules that are broken at a field, 0 for none.
#[derive(Clone, Copy)]
pub struct Broken {
    pub a: u8,
    pub b: u8,
    pub c: u8,
}

// The day of a record, which its codes are asked about: whether its field is sound, the number that it writes, and the day that a code is not
// to have ended before.
#[derive(Clone, Copy)]
pub struct Day {
    pub sound: bool,
    pub number: u32,
    pub until: u32,
}

// What is known of an II: whether it is in a block, whether it joins the open one, whether an earlier block names its event, and whether
// its event is live.
#[derive(Clone, Copy)]
pub struct Facts {
    pub inb: bool,
    pub joined: bool,
    pub repeated: bool,
    pub live: bool,
}
