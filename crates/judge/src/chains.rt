// A judge of the links of a chain: document 01's definition, link by link, by the step table of a text or by ours.
use crate::{Asked, Call, FILL, LINK_SIZE, Outcome};
use casefile::blocks::MOST_FILE;
use casefile::reading::Line;

// No chain has more links: each receiver is another subject.
const MOST_LINKS: usize = 63;

// The block, as document 01 lays it out, with the eight bytes of the retired before the records. The library has these places, the
// table and the test of conditions too: this judge of the library keeps its own.
const COUNT_AT: usize = 2;

const MARKS_AT: usize = 4;

const MARK_SIZE: usize = 2;

const RECORDS_AT: usize = 140;

const RECORD_SIZE: usize = 8;

// The unlimited weight, which is also the limit at the owner.
const UNLIMITED: u8 = 255;

const OWNER: u8 = 0;

// A link: its giver and its receiver.
type Link = [u8; LINK_SIZE];

#[derive(Clone, Copy)]
struct Record {
    giver: u8,
    receiver: u8,
    weight: u8,
    need: u16,
    bar: u16,
}

impl From<[u8; RECORD_SIZE]> for Record {
    fn from(bytes: [u8; RECORD_SIZE]) -> Record {
        let [
            giver,
            receiver,
            weight,
            _,
            need_low,
            need_high,
            bar_low,
            bar_high,
        ] = bytes;
        Record {
            giver,
            receiver,
            weight,
            need: u16::from_le_bytes([need_low, need_high]),
            bar: u16::from_le_bytes([bar_low, bar_high]),
        }
    }
}

// A block, and the text that its chains are judged by: our step table where none is lent or that is empty.
#[derive(Clone, Copy)]
struct Register<'a> {
    block: &'a [u8],
    table: Option<&'a [u8]>,
}

// The call by each of its two functions, each on a lent buffer of `size` bytes, at most MOST_FILE. Accepted, an answer is 1 where the
// chain is right; refused, it is 1 where something was written. The first is of the function that counts the links, the others are of
// the one that hands back its part: the second of the whole buffer, the third of the part.
pub fn judge_chain(
    block: &[u8],
    giver: u32,
    receiver: u32,
    table: Option<&[u8]>,
    size: usize,
) -> Outcome {
    let call = Call::Chain {
        giver,
        receiver,
        table,
    };
    let asked = Asked { call, block, size };
    let register = Register { block, table };
    let is_right = |bytes: &[u8]| register.has_chain(giver, receiver, bytes);
    let mut space = [FILL; MOST_FILE];
    let buf = crate::front(&mut space, size);
    let counted = asked.count(buf);
    let first = crate::judge(counted, buf, FILL, &is_right);
    asked.judge_both(counted.refusal, first, &is_right)
}

impl Register<'_> {
    // Whether the bytes are the links of a chain of the standing pair that carries its weight.
    fn has_chain(self, giver: u32, receiver: u32, bytes: &[u8]) -> bool {
        let (links, half) = bytes.as_chunks::<LINK_SIZE>();
        if !half.is_empty() || links.len() > MOST_LINKS {
            return false;
        }
        let (Ok(giver), Ok(receiver)) = (u8::try_from(giver), u8::try_from(receiver)) else {
            return false;
        };
        let Some(own) = self.standing(giver, receiver) else {
            return false;
        };
        let Some(limit) = self.limit_of(links, self.marks_of(receiver)) else {
            return false;
        };
        end_of(links) == giver && limit >= own.weight
    }

    // The limit of the links for a receiver with these marks.
    fn limit_of(self, links: &[Link], marks: u16) -> Option<u8> {
        let mut limit = UNLIMITED;
        for (i, link) in links.iter().enumerate() {
            limit = self.limit_after(&links[..i], *link, marks, limit)?;
        }
        Some(limit)
    }

    // The limit after a link, where it was `limit` after those before: none where the link does not stand, does not go on from the link
    // before it, goes to a subject that is on the chain, or has a condition that the marks do not meet.
    fn limit_after(self, before: &[Link], link: Link, marks: u16, limit: u8) -> Option<u8> {
        let [giver, receiver] = link;
        if giver != end_of(before) || is_on(before, receiver) {
            return None;
        }
        let record = self.standing(giver, receiver)?;
        if !meets(marks, record) {
            return None;
        }
        self.entry(limit.min(record.weight))
    }

    // The step table's entry for a weight, none for -1.
    fn entry(self, weight: u8) -> Option<u8> {
        match self.table {
            None | Some([]) => our_entry(weight),
            Some(text) => entry_of(text, weight),
        }
    }

    fn marks_of(self, subject: u8) -> u16 {
        number_at(self.block, MARKS_AT + MARK_SIZE * usize::from(subject))
    }

    // The pair's record among those that the block counts.
    fn standing(self, giver: u8, receiver: u8) -> Option<Record> {
        let count = usize::from(number_at(self.block, COUNT_AT));
        let (records, _) = self.block.get(RECORDS_AT..)?.as_chunks::<RECORD_SIZE>();
        records
            .iter()
            .take(count)
            .map(|bytes| Record::from(*bytes))
            .find(|record| record.giver == giver && record.receiver == receiver)
    }
}

// The next on the weight's line, after the line of names and those of the weights below. The sign of -1 is no digit.
fn entry_of(text: &[u8], weight: u8) -> Option<u8> {
    let line = text
        .split_inclusive(|byte| *byte == b'\n')
        .nth(1 + usize::from(weight))?;
    let mut line = Line::new(line);
    if line.number(b' ')? != u32::from(weight) {
        return None;
    }
    u8::try_from(line.number(b'\n')?).ok()
}

// Unlimited stays, and any other weight goes one step down, from 0 to -1.
fn our_entry(weight: u8) -> Option<u8> {
    if weight == UNLIMITED {
        return Some(UNLIMITED);
    }
    weight.checked_sub(1)
}

// Whether the marks include all of need and none of bar.
fn meets(marks: u16, record: Record) -> bool {
    marks & record.need == record.need && marks & record.bar == 0
}

// Whether the subject is the owner or the receiver of one of the links.
fn is_on(links: &[Link], subject: u8) -> bool {
    subject == OWNER || links.iter().any(|link| link[1] == subject)
}

// Where the links end: the owner where there is none.
fn end_of(links: &[Link]) -> u8 {
    match links {
        [.., [_, receiver]] => *receiver,
        [] => OWNER,
    }
}

// The number of two bytes.
fn number_at(block: &[u8], at: usize) -> u16 {
    match block.get(at..) {
        Some([low, high, ..]) => u16::from_le_bytes([*low, *high]),
        _ => 0,
    }
}
