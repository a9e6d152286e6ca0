// The entry that six numbers of a sheet's records are, and a table of entries for a program: a local array that is filled from such records, and whose first
// entries are lent. It is made where it is lent, since an array by value is copied whole on its way. A count above the table's length counts as that length.
#![tactic(auto)]

ghost use Rattle.std.specs.Prelude.{◌≡◌, ◌*◌, ◌<◌, min, length, get_or, drop};
ghost use Rattle.store.specs.Store.{store_of, restore, no_entry};
ghost use Rattle.restore.specs.Restored.{restored_says, answered};
ghost use Rattle.sheet_entries.specs.Table.{in_field, entry_from, entries_from, overlaid};
ghost use Rattle.sheet_entries.specs.Table as tables;

use restore::Granted;
use sheet::RECORD;
use store::{Entry, Refusal, StoreRef};

// How many entries a table has.
pub const ENTRIES: usize = 512;

// The highest number of 32 bits.
const HIGHEST_32: u64 = 0xFFFFFFFF;

// ---- the entry of a line

// The i-th number, 0 where there is none.
pub fn number_at(records: &[u64], i: usize) -> u64
    ensures { result ≡ get_or records.now i 0 }
{
    records.get(i).copied().unwrap_or(0)
}

// The i-th number in a field of 32 bits.
// Kept: here and below, the new form is no plainer: std has no `From` for a narrower type, nor between u64 and usize, and `try_from` would refuse what the clauses answer.
pub fn field_at(records: &[u64], i: usize) -> u32
    ensures { result ≡ in_field (get_or records.now i 0) }
{
    number_at(records, i).min(HIGHEST_32) as u32
}

// The entry of the i-th line, from the six numbers that a sheet's reader left of it. A number that is wider than its field counts as the field's highest: a
// sheet that was read leaves none.
pub fn entry_from(records: &[u64], i: usize) -> Entry
    requires { i < tables.ENTRIES }
    ensures { result ≡ entry_from (drop (6 * i) records.now) }
{
    let at = RECORD * i;
    let kind = field_at(records, at);
    let id = number_at(records, at + 1);
    let start = number_at(records, at + 2) as usize;
    let len = number_at(records, at + 3) as usize;
    let msgno = field_at(records, at + 4);
    let version = field_at(records, at + 5);
    Entry {
        id,
        start,
        len,
        msgno,
        version,
        kind,
    }
}

// What a table holds before it is filled.
pub fn no_entry() -> Entry
    ensures { result ≡ no_entry }
{
    Entry {
        id: 0,
        start: 0,
        len: 0,
        msgno: 0,
        version: 0,
        kind: 0,
    }
}

// ---- a table is filled

// Stores the entries of so many lines to the front of the table, as many as there is room for, and answers how many.
pub fn fill(records: &[u64], lines: usize, table: &mut [Entry]) -> usize
    ensures { (result ≡ min (min lines tables.ENTRIES) (length table.old))
        × (table.new ≡ overlaid table.old (entries_from (min lines tables.ENTRIES) records.now)) }
{
    let n = lines.min(ENTRIES).min(table.len());
    for i in 0..n {
        table[i] = entry_from(records, i);
    }
    n
}

// ---- restore

// What restore answers of the entries of so many lines.
pub fn restore(run: &[u8], records: &[u64], lines: usize) -> Result<Granted, Refusal>
    ensures { restored_says result ≡ answered (restore (store_of run.now (entries_from (min lines tables.ENTRIES) records.now))) }
{
    // Kept: fixed memory, so the entries are a local array
    let mut table = [no_entry(); ENTRIES];
    let count = fill(records, lines, &mut table[..]);
    restore::restore(StoreRef {
        run,
        entries: &table[..count],
    })
}
