// The register as a file: written as text into a lent buffer, and read from text into a block of any content.
#![tactic(auto)]

ghost use Rattle.std.specs.Prelude.{◌≡◌, [], IfOk};
ghost use Rattle.std.specs.Option.{unwrap_or, option_copied_mut};
ghost use Rattle.std.specs.Result.{result_ok};
ghost use Rattle.rules.specs.Refused.{refused_with};
ghost use Rattle.register.specs.Answer.{answer_of};
ghost use Rattle.transfer.specs.Filled.{filled_of};
ghost use Rattle.transfer.specs.FileOn.{write_refusal, WriteMade, WriteFront, ReadMade};

use block::layout;
use regfile::FileFault;
use register::Answers;
use rules::Refusal;

// The least length of the lent buffer.
pub const TEXT_SIZE: usize = 8192;

// Writes the text of a well-formed register into `buf`, supported or not; how many bytes.
pub fn write_file(block: &[u8], buf: &mut [u8]) -> Result<usize, Refusal>
    ensures { WriteMade block.now buf.old (filled_of result) buf.new }
{
    if block.len() != layout::BLOCK_SIZE {
        return Err(Refusal::WrongLength);
    }
    if buf.len() < TEXT_SIZE {
        return Err(Refusal::WrongLength);
    }
    if !block::well_formed(block) {
        return Err(Refusal::NotWellFormed);
    }
    Ok(regfile::render(block, buf))
}

// The same: hands back the filled front of `buf`, nothing where refused.
pub fn file<'a>(block: &[u8], buf: &'a mut [u8]) -> Result<&'a mut [u8], Refusal>
    ensures refusal { refused_with result ≡ write_refusal block.now buf.old }
    ensures front { IfOk result (λ part. WriteFront block.now buf.old 0 part.now × (part.ref_ptr ≡ buf.entry.ref_ptr)) }
    ensures outcome { WriteFront block.now buf.old (refused_with result) (unwrap_or (option_copied_mut (result_ok result)) []) }
{
    let length = write_file(block, buf)?;
    Ok(&mut buf[..length])
}

// Reads the register of a text into a block of any content, by the step table of a text, ours where it is empty. The block changes only at the end.
pub fn read_file(block: &mut [u8], text: &[u8], table: &[u8]) -> Result<Answers, Refusal>
    ensures { ReadMade text.now table.now block.old (answer_of result) block.new }
{
    if block.len() != layout::BLOCK_SIZE {
        return Err(Refusal::WrongLength);
    }
    let mut read = [0u8; layout::BLOCK_SIZE];
    let parsed = regfile::parse(text, &mut read);
    if parsed == Err(FileFault::Malformed) {
        return Err(Refusal::Malformed);
    }
    let steps = steptable::read_table(table)?;
    parsed?;
    if !rounds::supports(&mut read, &steps) {
        return Err(Refusal::Unsupported);
    }
    change::copy(&read, block);
    Ok(Answers::new(0, 0, 0))
}
