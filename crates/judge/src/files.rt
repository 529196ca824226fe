// The calls that leave what they fill in the place of a file, a write and an order, and a judge of the bytes.
use crate::{Asked, Counted, FILL, Outcome};
use casefile::blocks::MOST_FILE;

// What stands for the count of the bytes where it is wrong, or where bytes past them changed.
const NOT_KEPT: i32 = -1;

// The call by each of its two functions. What is written is left in `file`, whose first `length` bytes are the file before; with the
// answer comes how many bytes the file has then. The first answer is of the function that counts its bytes, the others are of the one
// that hands back its part: the second of the whole buffer, the third of the part. Accepted, these are 1 where the bytes are those that
// were counted; refused, where something was written.
pub fn judge_fill(asked: Asked, file: &mut [u8], length: usize) -> (Outcome, usize) {
    let mut space = [FILL; MOST_FILE];
    let buf = crate::front(&mut space, asked.size);
    let counted = asked.count(buf);
    let first = count(counted, buf);
    let n = put_filled(counted, buf, file, length).min(file.len());
    let text = &file[..n];
    let is_right = |bytes: &[u8]| bytes == text;
    let answer = asked.judge_both(counted.refusal, first, &is_right);
    (answer, n)
}

// How many bytes were written, where those past them are kept.
fn count(counted: Counted, buf: &[u8]) -> i32 {
    let n = counted.length;
    let Some(rest) = buf.get(n..) else {
        return NOT_KEPT;
    };
    if !crate::is_kept(rest, FILL) || (counted.refusal != 0 && n > 0) {
        return NOT_KEPT;
    }
    i32::try_from(n).unwrap_or(NOT_KEPT)
}

// Puts the bytes that were written into the file, which is left as it is where the call was refused; how many bytes it has then.
fn put_filled(counted: Counted, buf: &[u8], file: &mut [u8], length: usize) -> usize {
    if counted.refusal != 0 {
        return length;
    }
    let n = counted.length.min(buf.len()).min(file.len());
    file[..n].copy_from_slice(&buf[..n]);
    n
}
