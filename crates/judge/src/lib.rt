// The calls that fill the front of a lent buffer, each by its two functions, and judges of the bytes that they leave. The judges have
// their own constants, their own reading of a block and of a table's text, and their own rules: they ask nothing of the library that they judge.
#![tactic(auto)]

pub mod chains;
pub mod files;

use casefile::blocks::MOST_FILE;
use register::Answers;
use rules::Refusal;

// Every byte of a lent buffer before the call. The function that hands back its part is called on a buffer of each, so that
// no byte that it writes past the part passes for one that it left.
const FILL: u8 = 170;

const OTHER_FILL: u8 = 85;

// The bytes of a link, and of a subject in an order; also in the library, but the judges keep their own.
const LINK_SIZE: usize = 2;

const ITEM_SIZE: usize = 2;

// What stands for the refusal where two calls tell different ones, and for what is judged of them where that differs.
const DIFFERENT: u32 = 99;

const UNLIKE: i32 = 2;

// A call that fills the front of a lent buffer.
#[derive(Clone, Copy)]
pub enum Call<'a> {
    // The chain of a pair, by a lent table's text or by our step table.
    Chain {
        giver: u32,
        receiver: u32,
        table: Option<&'a [u8]>,
    },
    // The order for a receiver, by a table's text.
    Order {
        receiver: u32,
        table: &'a [u8],
    },
    // The block's file.
    Write,
}

// What comes out of a call, as numbers: the refusal, 0 when accepted, and three answers.
#[derive(Clone, Copy)]
pub struct Outcome {
    pub refusal: u32,
    pub first: i32,
    pub second: i32,
    pub third: i32,
}

impl From<Result<Answers, Refusal>> for Outcome {
    fn from(returned: Result<Answers, Refusal>) -> Outcome {
        match returned {
            Ok(answers) => Outcome {
                refusal: 0,
                first: answers.first,
                second: answers.second,
                third: answers.third,
            },
            Err(refusal) => Outcome {
                refusal: refusal as u32,
                first: 0,
                second: 0,
                third: 0,
            },
        }
    }
}

// The refusal, and how many bytes were filled.
#[derive(Clone, Copy)]
struct Counted {
    refusal: u32,
    length: usize,
}

impl Counted {
    // Of a call that filled items of this size, or none.
    fn of(filled: Result<usize, Refusal>, size: usize) -> Counted {
        match filled {
            Ok(n) => Counted {
                refusal: 0,
                length: n.saturating_mul(size),
            },
            Err(refusal) => Counted {
                refusal: refusal as u32,
                length: 0,
            },
        }
    }
}

// A call on a block, which is lent a buffer of `size` bytes, at most MOST_FILE.
#[derive(Clone, Copy)]
pub struct Asked<'a> {
    pub call: Call<'a>,
    pub block: &'a [u8],
    pub size: usize,
}

impl Asked<'_> {
    // By the function that counts what it fills.
    fn count(self, buf: &mut [u8]) -> Counted {
        let block = self.block;
        match self.call {
            Call::Chain {
                giver,
                receiver,
                table: Some(table),
            } => Counted::of(
                chain::write_chain_table(block, giver, receiver, table, buf),
                LINK_SIZE,
            ),
            Call::Chain {
                giver,
                receiver,
                table: None,
            } => Counted::of(chain::write_chain(block, giver, receiver, buf), LINK_SIZE),
            Call::Order { receiver, table } => {
                Counted::of(order::write_order(block, receiver, table, buf), ITEM_SIZE)
            }
            Call::Write => Counted::of(transfer::write_file(block, buf), 1),
        }
    }

    // By the function that hands back its part.
    fn hand_back<'b>(self, buf: &'b mut [u8]) -> Result<&'b mut [u8], Refusal> {
        let block = self.block;
        match self.call {
            Call::Chain {
                giver,
                receiver,
                table: Some(table),
            } => chain::chain_table(block, giver, receiver, table, buf),
            Call::Chain {
                giver,
                receiver,
                table: None,
            } => chain::chain(block, giver, receiver, buf),
            Call::Order { receiver, table } => order::order(block, receiver, table, buf),
            Call::Write => transfer::file(block, buf),
        }
    }

    // What is judged of the function that counts, with what is judged of the one that hands back its part, on a buffer of each fill.
    fn judge_both<F: Fn(&[u8]) -> bool>(self, refusal: u32, first: i32, is_right: F) -> Outcome
        requires { F.IsAlwaysCallable is_right }
    {
        let handed = self.judge_handed(FILL, &is_right);
        let again = self.judge_handed(OTHER_FILL, &is_right);
        let both = agreed(handed.refusal, again.refusal, DIFFERENT);
        Outcome {
            refusal: agreed(refusal, both, DIFFERENT),
            first,
            second: agreed(handed.second, again.second, UNLIKE),
            third: agreed(handed.third, again.third, UNLIKE),
        }
    }

    // The whole buffer is judged once its part is given back.
    fn judge_handed<F: Fn(&[u8]) -> bool>(self, fill: u8, is_right: F) -> Outcome
        requires { F.IsAlwaysCallable is_right }
    {
        let mut space = [fill; MOST_FILE];
        let buf = front(&mut space, self.size);
        let (handed, third) = match self.hand_back(buf) {
            Ok(part) => {
                let handed = Counted::of(Ok(part.len()), 1);
                (handed, judge(handed, part, fill, &is_right))
            }
            Err(refusal) => (Counted::of(Err(refusal), 1), 0),
        };
        let second = judge(handed, buf, fill, &is_right);
        Outcome {
            refusal: handed.refusal,
            first: 0,
            second,
            third,
        }
    }
}

// The first `size` bytes of a buffer, or all where it has fewer.
fn front(space: &mut [u8], size: usize) -> &mut [u8] {
    let n = size.min(space.len());
    &mut space[..n]
}

// What two calls both tell, or what stands for the two where they differ.
fn agreed<T: PartialEq + Copy>(a: T, b: T, differing: T) -> T {
    if a == b { a } else { differing }
}

// What is judged of a buffer of which so many bytes were filled. Accepted, 1 where these are right and those past them are as
// they were before the call; refused, 1 where something was written.
fn judge<F: Fn(&[u8]) -> bool>(counted: Counted, buf: &[u8], fill: u8, is_right: F) -> i32
    requires { F.IsAlwaysCallable is_right }
{
    if counted.refusal != 0 {
        return i32::from(counted.length > 0 || !is_kept(buf, fill));
    }
    match buf.split_at_checked(counted.length) {
        Some((filled, rest)) => i32::from(is_right(filled) && is_kept(rest, fill)),
        None => 0,
    }
}

// Whether the bytes are as they were before the call.
fn is_kept(bytes: &[u8], fill: u8) -> bool {
    bytes.iter().all(|byte| *byte == fill)
}
