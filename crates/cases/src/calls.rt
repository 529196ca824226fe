// The columns of a line, and the register's calls that they ask for.
use casefile::reading::Line;
use judge::Outcome;
use register::Answers;
use rules::Refusal;

// The seven numbers of a line.
#[derive(Clone, Copy)]
pub struct Columns {
    pub call: u32,
    pub by: u32,
    pub giver: u32,
    pub receiver: u32,
    pub weight: u32,
    pub need: u32,
    pub bar: u32,
}

pub fn read_columns(line: &mut Line) -> Option<Columns> {
    Some(Columns {
        call: line.number(b' ')?,
        by: line.number(b' ')?,
        giver: line.number(b' ')?,
        receiver: line.number(b' ')?,
        weight: line.number(b' ')?,
        need: line.number(b' ')?,
        bar: line.number(b' ')?,
    })
}

// A call, by what is lent to it beside the block: a table's text or a file, a buffer that it fills, or a slip.
#[derive(Clone, Copy)]
pub enum Call {
    Plain(Plain),
    Fill(Fill),
    Slip(Slip),
}

#[derive(Clone, Copy)]
pub enum Plain {
    Enrol,
    Grant,
    Revoke,
    Downgrade,
    Reach,
    UseRight,
    Open,
    Chain,
    Read,
    SetMarks,
    Retire,
    BringOver,
    GrantKind,
}

#[derive(Clone, Copy)]
pub enum Fill {
    Write,
    Order,
}

#[derive(Clone, Copy)]
pub enum Slip {
    Revoke,
    Downgrade,
    TakeBack,
}

// The number of no call.
#[derive(Clone, Copy)]
pub struct NoCall;

// By the call's number in the files.
impl TryFrom<u32> for Call {
    type Error = NoCall;

    fn try_from(number: u32) -> Result<Call, NoCall> {
        match number {
            0 => Ok(Call::Plain(Plain::Enrol)),
            1 => Ok(Call::Plain(Plain::Grant)),
            2 => Ok(Call::Plain(Plain::Revoke)),
            3 => Ok(Call::Plain(Plain::Downgrade)),
            4 => Ok(Call::Plain(Plain::Reach)),
            5 => Ok(Call::Plain(Plain::UseRight)),
            6 => Ok(Call::Plain(Plain::Open)),
            7 => Ok(Call::Plain(Plain::Chain)),
            8 => Ok(Call::Fill(Fill::Write)),
            9 => Ok(Call::Plain(Plain::Read)),
            10 => Ok(Call::Fill(Fill::Order)),
            11 => Ok(Call::Plain(Plain::SetMarks)),
            12 => Ok(Call::Plain(Plain::Retire)),
            13 => Ok(Call::Plain(Plain::BringOver)),
            14 => Ok(Call::Slip(Slip::Revoke)),
            15 => Ok(Call::Slip(Slip::Downgrade)),
            16 => Ok(Call::Slip(Slip::TakeBack)),
            17 => Ok(Call::Plain(Plain::GrantKind)),
            _ => Err(NoCall),
        }
    }
}

// Lent the table's text where the line has one. Only read takes a file. To bring an old block over, it stands in the table's place.
// Marks has its subject under receiver, the marks under need; retire has its subject under receiver; a grant with a kind has that under by.
pub fn make(
    call: Plain,
    c: Columns,
    file: &[u8],
    table: Option<&[u8]>,
    block: &mut [u8],
) -> Outcome {
    let text = or_empty(table);
    let returned = match call {
        Plain::Enrol => register::enrol(block, c.need),
        Plain::Grant => grant(c, table, block),
        Plain::Revoke => revoke(c, table, block),
        Plain::Downgrade => downgrade(c, table, block),
        Plain::Reach => reach(c, table, block),
        Plain::UseRight => register::use_right(block, c.receiver),
        Plain::Open => register::open(block),
        Plain::Chain => return chain(c, table, block),
        Plain::Read => transfer::read_file(block, file, text),
        Plain::SetMarks => register::set_marks(block, c.by, c.receiver, c.need, text),
        Plain::Retire => register::retire(block, c.by, c.receiver, text),
        Plain::BringOver => register::bring_over(text, block),
        Plain::GrantKind => grant_kind(c, text, block),
    };
    Outcome::from(returned)
}

// The text that is lent, empty where the line has none.
pub fn or_empty(table: Option<&[u8]>) -> &[u8] {
    table.unwrap_or(&[])
}

// Each is lent a slip: the first two write it, the last reads it.
pub fn make_slip(
    call: Slip,
    c: Columns,
    slip: &mut [u8],
    table: &[u8],
    block: &mut [u8],
) -> Outcome {
    let returned = match call {
        Slip::Revoke => slips::revoke_slip(block, c.by, c.giver, c.receiver, table, slip),
        Slip::Downgrade => {
            slips::downgrade_slip(block, c.by, c.giver, c.receiver, c.weight, table, slip)
        }
        Slip::TakeBack => slips::take_back(block, c.by, table, slip),
    };
    Outcome::from(returned)
}

fn grant(c: Columns, table: Option<&[u8]>, block: &mut [u8]) -> Result<Answers, Refusal> {
    match table {
        Some(text) => {
            register::grant_table(block, c.giver, c.receiver, c.weight, c.need, c.bar, text)
        }
        None => register::grant(block, c.giver, c.receiver, c.weight, c.need, c.bar),
    }
}

fn grant_kind(c: Columns, text: &[u8], block: &mut [u8]) -> Result<Answers, Refusal> {
    register::grant_kind(
        block, c.giver, c.receiver, c.weight, c.need, c.bar, c.by, text,
    )
}

fn revoke(c: Columns, table: Option<&[u8]>, block: &mut [u8]) -> Result<Answers, Refusal> {
    match table {
        Some(text) => register::revoke_table(block, c.by, c.giver, c.receiver, text),
        None => register::revoke(block, c.by, c.giver, c.receiver),
    }
}

fn downgrade(c: Columns, table: Option<&[u8]>, block: &mut [u8]) -> Result<Answers, Refusal> {
    match table {
        Some(text) => register::downgrade_table(block, c.by, c.giver, c.receiver, c.weight, text),
        None => register::downgrade(block, c.by, c.giver, c.receiver, c.weight),
    }
}

fn reach(c: Columns, table: Option<&[u8]>, block: &[u8]) -> Result<Answers, Refusal> {
    match table {
        Some(text) => register::reach_table(block, c.giver, c.receiver, text),
        None => register::reach(block, c.giver, c.receiver),
    }
}

// The lent buffer has as many bytes as the weight says.
fn chain(c: Columns, table: Option<&[u8]>, block: &[u8]) -> Outcome {
    judge::chains::judge_chain(block, c.giver, c.receiver, table, c.weight as usize)
}
