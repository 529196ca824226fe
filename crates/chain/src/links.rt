// The chain by which a subject is reached, read off the parents.
ghost use Rattle.std.specs.Prelude.{◌≡◌, ◌++◌, ◌*◌, ◌≤◌, length, drop};
ghost use Rattle.chain.specs.Links.{Traceable, links_of, link_bytes};

use block::layout;

// At most `left` links up to a subject, the owner's end first, two bytes each; how many.
pub fn write_links(
    records: &[u8],
    parents: &[u16],
    subject: usize,
    left: usize,
    buf: &mut [u8],
) -> usize
    requires { Traceable records.now parents.now subject × (2 * left ≤ length buf.old) }
    ensures { (result ≡ length (links_of records.now parents.now left subject)) × (buf.new ≡ link_bytes (links_of records.now parents.now left subject) ++ drop (2 * result) buf.old) }
{
    if left == 0 {
        return 0;
    }
    if subject == 0 {
        return 0;
    }
    let at = layout::RECORD_SIZE * (parents[subject] as usize);
    let giver = records[at];
    let receiver = records[at + layout::RECEIVER];
    let n = write_links(records, parents, giver as usize, left - 1, buf);
    buf[2 * n] = giver;
    buf[2 * n + 1] = receiver;
    n + 1
}
