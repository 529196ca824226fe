// The refusals of documents 01 and 02, in the order in which they apply, each with its number.
ghost use Rattle.std.specs.Prelude.{◌≡◌};
ghost use Rattle.rules.specs.Refused.{refusal_number};

#[derive(Clone, Copy, Debug, PartialEq, Eq)]
pub enum Refusal {
    WrongLength = 1,
    NoSubject = 2,
    NoWeight = 3,
    NoMarks = 4,
    EqualPair = 5,
    ToOwner = 6,
    NoKind = 21,
    Malformed = 7,
    BadTable = 17,
    NotWellFormed = 8,
    NotEnrolled = 9,
    Retired = 19,
    AllEnrolled = 10,
    PairStands = 11,
    AllStand = 12,
    NoPair = 13,
    MayNot = 14,
    OtherSlip = 20,
    NotBelow = 15,
    Overweight = 16,
    Unsupported = 18,
}

impl Refusal {
    // The number that the documents give it.
    pub fn number(self) -> u32
        ensures { result ≡ refusal_number self }
    {
        self as u32
    }
}
