// The step table that a host lends as text.
#![tactic(auto)]

ghost use Rattle.std.specs.Prelude.{◌≡◌, ◌≤◌, length};
ghost use Rattle.rules.specs.Table.{fits};
ghost use Rattle.steptable.specs.TableText.{IsNext, AreNexts, given};
ghost use Rattle.steptable.specs.Lent.{fault_of, given_by};
ghost use Rattle.steptable.specs.Read.{EntryRead, EntriesRead, TableMade};

use rules::Refusal;

// Why a text gives no table: it is of another form, or its table breaks a rule.
#[derive(Clone, Copy, Debug, PartialEq, Eq)]
pub enum TableFault {
    Malformed,
    BadTable,
}

impl From<TableFault> for Refusal {
    ghost from_gives = { λ f r. r ≡ fault_of f };

    fn from(fault: TableFault) -> Refusal {
        match fault {
            TableFault::Malformed => Refusal::Malformed,
            TableFault::BadTable => Refusal::BadTable,
        }
    }
}

// What is lent as text: a step table, or why there is none.
pub type Table = Result<[i16; 256], TableFault>;

// The number with which a text is refused, 0 where it gives a table.
pub fn fault(table: &Table) -> u32
    ensures { result ≡ (given_by table.now).refusal }
{
    match table {
        Ok(_) => 0,
        Err(fault) => Refusal::from(*fault).number(),
    }
}

// The next of a weight, from the line at `at`. Only -1 has a sign.
fn read_entry(text: &[u8], at: usize, weight: u32) -> Option<text::Found<i64>>
    requires { weight ≤ 255 }
    ensures { EntryRead text.now at weight result }
{
    let w = text::read_number(text, at, text::SPACE)?;
    if w.value != weight {
        return None;
    }
    let next = text::read_value(text, w.next, text::LINE_END, true)?;
    if next.value < -1 {
        return None;
    }
    Some(next)
}

// The entries of the table whose text this is: the names, a line for each weight in order, and nothing after them.
fn read_entries(text: &[u8], entries: &mut [i64]) -> bool
    requires { length entries.old ≡ 256 }
    ensures { EntriesRead text.now result entries.new }
{
    let Some(lines) = text.strip_prefix(b"weight next\n") else {
        return false;
    };
    let mut at = 0;
    for (w, entry) in entries.iter_mut().enumerate() {
        let Some(next) = read_entry(lines, at, w as u32) else {
            return false;
        };
        *entry = next.value;
        at = next.next;
    }
    at >= lines.len()
}

// A next may stand at a weight: not below the next before it, and below the weight, but 255 may keep 255.
fn keeps(weight: usize, before: i64, next: i64) -> bool
    requires { (weight ≤ 255) × IsNext before × IsNext next }
    ensures { result ≡ fits weight before next }
{
    if next < before {
        return false;
    }
    if weight == 255 {
        return next <= 255;
    }
    next < weight as i64
}

// The table of these entries, where they keep the rule.
fn table_of(entries: &[i64], table: &mut [i16]) -> bool
    requires { (length entries.now ≡ 256) × (length table.old ≡ 256) × AreNexts entries.now }
    ensures { TableMade entries.now result table.new }
{
    let mut before: i64 = -1;
    for (w, next) in entries.iter().enumerate() {
        if !keeps(w, before, *next) {
            return false;
        }
        table[w] = *next as i16;
        before = *next;
    }
    true
}

// The table of a text, ours for an empty one.
pub fn read_table(text: &[u8]) -> Table
    ensures { given_by result ≡ given text.now }
{
    if text.is_empty() {
        return Ok(rules::steps());
    }
    let mut entries = [0i64; 256];
    if !read_entries(text, &mut entries) {
        return Err(TableFault::Malformed);
    }
    let mut steps = [0i16; 256];
    if !table_of(&entries, &mut steps) {
        return Err(TableFault::BadTable);
    }
    Ok(steps)
}
