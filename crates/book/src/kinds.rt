// The kinds of entry, by number. No enum: `find` and `look_up` answer for every number, and an enum would ask more of their callers.

pub const VACCINE: u8 = 1;

pub const ANTIGEN: u8 = 2;

pub const REASON: u8 = 3;

pub const MANUFACTURER: u8 = 4;

pub const DOSAGE_TYPE: u8 = 5;

pub const REASON_NOT: u8 = 6;

pub const WITH_REASON: u8 = 7;

pub const WITH_ANTIGEN: u8 = 8;
