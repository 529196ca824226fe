// The text of a register: written from a block, and read into one.
#![tactic(auto)]

mod read;
mod write;

ghost use Rattle.std.specs.Prelude.{◌≡◌};
ghost use Rattle.regfile.specs.Faults.{fault_of};

pub use read::parse;
use rules::Refusal;
pub use write::render;

// Why a text gives no register: it is of another form, or its lines make no well-formed block.
#[derive(Clone, Copy, Debug, PartialEq, Eq)]
pub enum FileFault {
    Malformed,
    NotWellFormed,
}

impl From<FileFault> for Refusal {
    ghost from_gives = { λ f r. r ≡ fault_of f };

    fn from(fault: FileFault) -> Refusal {
        match fault {
            FileFault::Malformed => Refusal::Malformed,
            FileFault::NotWellFormed => Refusal::NotWellFormed,
        }
    }
}

// Where the text goes on after rows, and whether all of them have room in a block.
#[derive(Drop)]
pub struct Rows {
    pub next: usize,
    pub fits: bool,
}

// The two parts of the text: the rows of the subjects, and those of the delegations.
#[derive(Clone, Copy)]
enum Part {
    Subjects,
    Delegations,
}

// The columns of a subject's line and of a delegation's.
pub const SUBJECT_COLUMNS: usize = 3;

pub const DELEGATION_COLUMNS: usize = 6;
