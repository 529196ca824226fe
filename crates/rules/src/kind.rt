// The kinds of a delegation.
pub const ORDINARY: u8 = 0;

// Its receiver may pass the right on and not use it.
pub const PASS_ONLY: u8 = 1;
