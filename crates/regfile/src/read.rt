// Reading: a text is read exactly where it is the text of a well-formed register.
ghost use Rattle.std.specs.Prelude.{◌≡◌, true, false, length, MatchOption};
ghost use Rattle.text.specs.Text.{AllAllowed};
ghost use Rattle.block.specs.Layout.{block_size};
ghost use Rattle.block.specs.Block.{decode};
ghost use Rattle.block.specs.Fits.{DelegationFits, Fitting};
ghost use Rattle.regfile.specs.FileText.{subject_columns, delegation_columns, delegation_of};
ghost use Rattle.regfile.specs.Faults.{number_in};
ghost use Rattle.regfile.specs.Parsed.{columns, delegation_in, RowPut, RowsRead, Parsed};

use crate::{DELEGATION_COLUMNS, FileFault, Part, Rows, SUBJECT_COLUMNS};
use block::layout;

// The numbers of a delegation, as wide as a record holds them.
#[derive(Clone, Copy)]
struct Record {
    giver: u8,
    receiver: u8,
    weight: u8,
    need: u16,
    bar: u16,
    kind: u8,
}

// One more subject, where the line is the next one's and there is room.
fn put_subject(b: &mut [u8], row: &[i64]) -> bool
    requires { Fitting b.old × (length row.now ≡ subject_columns) × AllAllowed false row.now }
    ensures { RowPut subject_columns (decode b.old) row.now result b.new }
{
    let n = block::subjects(b);
    if n >= layout::MOST_SUBJECTS {
        return false;
    }
    let subject = text::unsigned(row[0]);
    if subject != u32::from(n) {
        return false;
    }
    let Ok(marks) = u16::try_from(row[1]) else {
        return false;
    };
    let retired = text::unsigned(row[2]);
    if retired > 1 {
        return false;
    }
    change::add_subject(b, marks);
    if retired == 1 {
        change::set_retired(b, n);
    }
    true
}

// The numbers of a row, where each has room in a record.
fn record_of(row: &[i64]) -> Option<Record>
    requires { (length row.now ≡ delegation_columns) × AllAllowed false row.now }
    ensures { MatchOption result (¬ DelegationFits (delegation_of row.now)) (λ r. DelegationFits (delegation_of row.now) × (delegation_in r ≡ delegation_of row.now)) }
{
    let giver = u8::try_from(row[0]).ok()?;
    let receiver = u8::try_from(row[1]).ok()?;
    let weight = u8::try_from(row[2]).ok()?;
    let need = u16::try_from(row[3]).ok()?;
    let bar = u16::try_from(row[4]).ok()?;
    let kind = u8::try_from(row[5]).ok()?;
    Some(Record {
        giver,
        receiver,
        weight,
        need,
        bar,
        kind,
    })
}

// One more delegation, where there is room.
fn put_delegation(b: &mut [u8], row: &[i64]) -> bool
    requires { Fitting b.old × (length row.now ≡ delegation_columns) × AllAllowed false row.now }
    ensures { RowPut delegation_columns (decode b.old) row.now result b.new }
{
    if block::count(b) >= layout::MOST_RECORDS {
        return false;
    }
    let Some(r) = record_of(row) else {
        return false;
    };
    change::append(b, r.giver, r.receiver, r.weight, r.need, r.bar, r.kind);
    true
}

// One more row of a part.
fn put_row(part: Part, b: &mut [u8], row: &[i64]) -> bool
    requires { Fitting b.old × (length row.now ≡ columns part) × AllAllowed false row.now }
    ensures { RowPut (columns part) (decode b.old) row.now result b.new }
{
    match part {
        Part::Subjects => put_subject(b, row),
        Part::Delegations => put_delegation(b, row),
    }
}

// The rows of a part from the text's start on, as many as there are, each read into `row`: stored in the block as long as all before them were.
fn read_rows(text: &[u8], part: Part, row: &mut [i64], b: &mut [u8], fits: bool) -> Rows
    requires { (length row.old ≡ columns part) × (fits ≡ true → Fitting b.old) }
    ensures { RowsRead text.now (columns part) (decode b.old) fits result b.new }
{
    let mut next = 0;
    let mut kept = fits;
    while let Some(end) = text::read_line(text, next, false, row) {
        if kept {
            kept = put_row(part, b, row);
        }
        next = end;
    }
    Rows { next, fits: kept }
}

// The register of a text, written into a block of any content.
pub fn parse(text: &[u8], b: &mut [u8]) -> Result<(), FileFault>
    requires { length b.old ≡ block_size }
    ensures { Parsed text.now (number_in result) b.new }
{
    let Some(lines) = text.strip_prefix(b"subject marks retired\n") else {
        return Err(FileFault::Malformed);
    };
    change::write_empty(b);
    let mut subject = [0i64; SUBJECT_COLUMNS];
    let subjects = read_rows(lines, Part::Subjects, &mut subject, b, true);
    let rest = &lines[subjects.next..];
    let Some(last) = rest.strip_prefix(b"\ngiver receiver weight need bar pass\n") else {
        return Err(FileFault::Malformed);
    };
    let mut delegation = [0i64; DELEGATION_COLUMNS];
    let delegations = read_rows(last, Part::Delegations, &mut delegation, b, subjects.fits);
    if delegations.next < last.len() {
        return Err(FileFault::Malformed);
    }
    if !delegations.fits {
        return Err(FileFault::NotWellFormed);
    }
    if !block::well_formed(b) {
        return Err(FileFault::NotWellFormed);
    }
    Ok(())
}
