// The sizes and offsets of the block of 2,188 bytes.
pub const BLOCK_SIZE: usize = 2188;

// The bytes of a block of the layout before, which has no bits of retired subjects.
pub const OLD_BLOCK_SIZE: usize = BLOCK_SIZE - RETIRED_SIZE;

// The most subjects and the most records.
pub const MOST_SUBJECTS: u8 = 64;

pub const SUBJECTS: usize = MOST_SUBJECTS as usize;

pub const MOST_RECORDS: usize = 256;

// The bytes of a subject's marks, of a record, of all marks, and of the bits of the retired subjects.
pub const MARK_SIZE: usize = 2;

pub const RECORD_SIZE: usize = 8;

pub const MARKS_SIZE: usize = MARK_SIZE * SUBJECTS;

pub const RETIRED_SIZE: usize = 8;

// Where each part begins; the bits of the retired subjects begin where the marks end.
pub const FREE_AT: usize = 1;

pub const COUNT_AT: usize = 2;

pub const MARKS_AT: usize = 4;

pub const RETIRED_AT: usize = MARKS_AT + MARKS_SIZE;

pub const RECORDS_AT: usize = RETIRED_AT + RETIRED_SIZE;

// Where each field of a record begins.
pub const GIVER: usize = 0;

pub const RECEIVER: usize = 1;

pub const WEIGHT: usize = 2;

pub const KIND: usize = 3;

pub const NEED: usize = 4;

pub const BAR: usize = 6;
