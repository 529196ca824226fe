// Writing what a call left.
use std::fmt;

// Where a slip has its cut and the block after it; also in `slips`, but this crate is of text alone and stands on no crate of the library.
const CUT_AT: usize = 2188;

const AFTER_AT: usize = 2193;

// The length, `:` and the bytes without the zeros at the end, each `.` for zero or else two hex digits.
#[derive(Drop)]
struct Block<'a> {
    bytes: &'a [u8],
}

impl fmt::Display for Block<'_> {
    fn fmt<W: fmt::Write>(&self, f: &mut fmt::Formatter<W>) -> fmt::Result {
        let bytes = self.bytes;
        let length = bytes.len();
        write!(f, "{length}:")?;
        for byte in without_zeros(bytes) {
            match byte {
                0 => f.write_str(".")?,
                _ => write!(f, "{byte:02x}")?,
            }
        }
        Ok(())
    }
}

// The bytes up to the last that is not zero.
fn without_zeros(bytes: &[u8]) -> &[u8] {
    match bytes.iter().rposition(|byte| *byte != 0) {
        Some(last) => &bytes[..last + 1],
        None => &[],
    }
}

// The bytes that a call left, or `=` if none has changed; `before` may be longer by zeros.
#[derive(Drop)]
pub struct Left<'a> {
    pub before: &'a [u8],
    pub bytes: &'a [u8],
}

impl fmt::Display for Left<'_> {
    fn fmt<W: fmt::Write>(&self, f: &mut fmt::Formatter<W>) -> fmt::Result {
        let bytes = self.bytes;
        if is_same(self.before, bytes) {
            return f.write_str("=");
        }
        let block = Block { bytes };
        write!(f, "{block}")
    }
}

// Whether the bytes are those of before, which may be longer by zeros.
fn is_same(before: &[u8], bytes: &[u8]) -> bool {
    before
        .strip_prefix(bytes)
        .is_some_and(|rest| rest.iter().all(|byte| *byte == 0))
}

// The slip that a call left: `=` if no byte of it has changed, else BEFORE/CUT/AFTER, the first `=` if it is the block before the
// call, which may be longer by zeros, as the slip before may, and the last if it is the block after it.
#[derive(Drop)]
pub struct LeftSlip<'a> {
    pub slip_before: &'a [u8],
    pub slip: &'a [u8],
    pub before: &'a [u8],
    pub after: &'a [u8],
}

impl fmt::Display for LeftSlip<'_> {
    fn fmt<W: fmt::Write>(&self, f: &mut fmt::Formatter<W>) -> fmt::Result {
        let slip = self.slip;
        if is_same(self.slip_before, slip) {
            return f.write_str("=");
        }
        let n = AFTER_AT.min(slip.len());
        let (front, bytes) = slip.split_at(n);
        let after = Left {
            before: self.after,
            bytes,
        };
        let n = CUT_AT.min(n);
        let (bytes, cut) = front.split_at(n);
        let before = Left {
            before: self.before,
            bytes,
        };
        let cut = Block { bytes: cut };
        write!(f, "{before}/{cut}/{after}")
    }
}
