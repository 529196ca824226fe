// Writing: the text of the register that a block holds.
ghost use Rattle.std.specs.Prelude.{◌≡◌, true, [], ◌∷◌, map, ◌<◌, pos, length, get_or};
ghost use Rattle.rules.specs.Bits.{bit};
ghost use Rattle.rules.specs.List.{concat_map};
ghost use Rattle.text.specs.Text.{line};
ghost use Rattle.text.specs.Write.{Room, Written};
ghost use Rattle.block.specs.Layout.{most_subjects};
ghost use Rattle.block.specs.Block.{retired_in, decode};
ghost use Rattle.block.specs.Records.{HasRetired, HasRecord, marks_for, delegation_at};
ghost use Rattle.block.specs.WellFormed.{well_formed};
ghost use Rattle.regfile.specs.Parsed.{columns};
ghost use Rattle.regfile.specs.FileText.{delegation_row, rows_of, file_text};

use crate::Part;

// Writes the line of subject `s` at `at`; the place after it.
fn write_subject(b: &[u8], s: usize, buf: &mut [u8], at: usize) -> usize
    requires { HasRetired b.now × (s < most_subjects) × Room at (line (map pos (s ∷ marks_for b.now s ∷ bit (retired_in b.now) s ∷ []))) buf.old }
    ensures { Written at (line (map pos (s ∷ marks_for b.now s ∷ bit (retired_in b.now) s ∷ []))) buf.old result buf.new }
{
    let marks = i64::from(block::marks(b, s));
    let retired = i64::from(block::is_retired(block::retired(b), s as u32));
    let row = [s as i64, marks, retired];
    text::write_line(buf, at, &row)
}

// Writes the line of record `k` at `at`; the place after it.
fn write_delegation(b: &[u8], k: usize, buf: &mut [u8], at: usize) -> usize
    requires { HasRecord b.now k × Room at (line (delegation_row (delegation_at b.now k))) buf.old }
    ensures { Written at (line (delegation_row (delegation_at b.now k))) buf.old result buf.new }
{
    let giver = i64::from(block::giver(b, k));
    let receiver = i64::from(block::receiver(b, k));
    let weight = i64::from(block::weight(b, k));
    let need = i64::from(block::need(b, k));
    let bar = i64::from(block::bar(b, k));
    let kind = i64::from(block::kind(b, k));
    let row = [giver, receiver, weight, need, bar, kind];
    text::write_line(buf, at, &row)
}

// Writes row `k` of a part at `at`; the place after it.
fn write_row(b: &[u8], part: Part, k: usize, buf: &mut [u8], at: usize) -> usize
    requires { (well_formed b.now ≡ true) × (k < length (rows_of (columns part) (decode b.now))) × Room at (line (get_or (rows_of (columns part) (decode b.now)) k [])) buf.old }
    ensures { Written at (line (get_or (rows_of (columns part) (decode b.now)) k [])) buf.old result buf.new }
{
    match part {
        Part::Subjects => write_subject(b, k, buf, at),
        Part::Delegations => write_delegation(b, k, buf, at),
    }
}

// Writes all `n` rows of a part at `at`; the place after them.
fn write_rows(b: &[u8], part: Part, n: usize, buf: &mut [u8], at: usize) -> usize
    requires { (well_formed b.now ≡ true) × (n ≡ length (rows_of (columns part) (decode b.now))) × Room at (concat_map line (rows_of (columns part) (decode b.now))) buf.old }
    ensures { Written at (concat_map line (rows_of (columns part) (decode b.now))) buf.old result buf.new }
{
    let mut next = at;
    for k in 0..n {
        next = write_row(b, part, k, buf, next);
    }
    next
}

// Writes the text of a well-formed block's register from the start of `buf` on; how many bytes.
pub fn render(b: &[u8], buf: &mut [u8]) -> usize
    requires { (well_formed b.now ≡ true) × Room 0 (file_text (decode b.now)) buf.old }
    ensures { Written 0 (file_text (decode b.now)) buf.old result buf.new }
{
    let subjects = text::write_bytes(buf, 0, b"subject marks retired\n");
    let enrolled = usize::from(block::subjects(b));
    let names = write_rows(b, Part::Subjects, enrolled, buf, subjects);
    let delegations = text::write_bytes(buf, names, b"\ngiver receiver weight need bar pass\n");
    write_rows(b, Part::Delegations, block::count(b), buf, delegations)
}
