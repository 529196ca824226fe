// A delegation as its record holds it.
ghost use Rattle.std.specs.Prelude.{◌≡◌};
ghost use Rattle.block.specs.Records.{HasRecord, delegation_at};
ghost use Rattle.change.specs.Record.{delegation_of};

#[derive(Clone, Copy)]
pub struct Record {
    pub giver: u8,
    pub receiver: u8,
    pub weight: u8,
    pub kind: u8,
    pub need: u16,
    pub bar: u16,
}

impl Record {
    // The record at place `k`.
    pub fn at(b: &[u8], k: usize) -> Record
        requires { HasRecord b.now k }
        ensures { delegation_of result ≡ delegation_at b.now k }
    {
        Record {
            giver: block::giver(b, k),
            receiver: block::receiver(b, k),
            weight: block::weight(b, k),
            kind: block::kind(b, k),
            need: block::need(b, k),
            bar: block::bar(b, k),
        }
    }
}
