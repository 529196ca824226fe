// The largest numbers that a call may pass.
pub const SUBJECT: u32 = 63;

pub const WEIGHT: u32 = 255;

pub const MARKS: u32 = 65535;

pub const KIND: u32 = 1;
