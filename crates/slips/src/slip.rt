// The slip of 4,381 bytes: its layout, its writing, and two tests.
ghost use Rattle.std.specs.Prelude.{◌≡◌, ◌++◌, length};
ghost use Rattle.rules.specs.Round.{equal};
ghost use Rattle.block.specs.Layout.{block_size};
ghost use Rattle.slips.specs.Slip.{slip_size, is_cut};

use block::layout::BLOCK_SIZE;

// Where the bytes of the cut and the block after begin; the block before begins the slip.
pub const NUMBER_AT: usize = BLOCK_SIZE;

pub const BY_AT: usize = BLOCK_SIZE + 1;

pub const GIVER_AT: usize = BLOCK_SIZE + 2;

pub const RECEIVER_AT: usize = BLOCK_SIZE + 3;

pub const WEIGHT_AT: usize = BLOCK_SIZE + 4;

pub const AFTER_AT: usize = BLOCK_SIZE + 5;

pub const SLIP_SIZE: usize = AFTER_AT + BLOCK_SIZE;

// The numbers of the cuts.
pub const REVOKE: u8 = 2;

pub const DOWNGRADE: u8 = 3;

// The block before, the five bytes of the cut, the block after.
pub fn write_slip(slip: &mut [u8], before: &[u8], cut: &[u8], after: &[u8])
    requires { (length slip.old ≡ slip_size) × (length before.now ≡ block_size) × (length cut.now ≡ 5) × (length after.now ≡ block_size) }
    ensures { slip.new ≡ before.now ++ (cut.now ++ after.now) }
{
    change::copy(before, &mut slip[..BLOCK_SIZE]);
    change::copy(cut, &mut slip[BLOCK_SIZE..AFTER_AT]);
    change::copy(after, &mut slip[AFTER_AT..]);
}

// The number is a cut's, and a revocation has no weight.
pub fn is_cut(number: u8, weight: u8) -> bool
    ensures { result ≡ is_cut number weight }
{
    if number == REVOKE {
        return weight == 0;
    }
    number == DOWNGRADE
}

// Two slices hold the same bytes.
pub fn equal(a: &[u8], b: &[u8]) -> bool
    ensures { result ≡ equal a.now b.now }
{
    a == b
}
