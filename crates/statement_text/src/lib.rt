// The text of a store: the S line of each contact, and the T line. Entries stand as six numbers each, as the sheet leaves them (`table`). A text is measured first and then written, so that nothing is written where the output is too short.
#![tactic(auto)]

ghost use Rattle.std.specs.Prelude.{◌≡◌, ◌∷◌, [], ◌++◌, ◌+◌, ◌*◌, ◌≤◌, ◌<◌, length, drop};
ghost use Rattle.layout.specs.Layout.{read_row, group};
ghost use Rattle.layout.specs.Write.{stored};
ghost use Rattle.layout.specs.Says.{leaves};
ghost use Rattle.rows.specs.Rows as layouts;
ghost use Rattle.rows.specs.Rows.{range};
ghost use Rattle.contact_lists.specs.Lists.{items, Stands};
ghost use Rattle.put.specs.Put.{Wrote};
ghost use Rattle.numbers.specs.Sets.{size_from};
ghost use Rattle.store.specs.Store.{is_of};
ghost use Rattle.store.specs.Kinds.{QUEUED};
ghost use Rattle.store.specs.Line.{queued_of};
ghost use Rattle.sheet_entries.specs.Table.{entry_from, entries_from};
ghost use Rattle.statement_text.specs.Text.{how_many, last_line};
ghost use Rattle.statement_text.specs.Lines.{row_text, row_count, entry_text, entry_count, lines_from, count_from, fields_of, Lined, Measures};
ghost use Rattle.statement_text.specs.Lines as texts;

use layout::Question;
use rows::ContactId;
use store::Entry;

const LETTER_T: u8 = 0x54;

// The most bytes that a text has.
pub const TEXT_BYTES: usize = 76949;

// The numbers of a T line.
const LAST_FIELDS: usize = 4;

// The length of the lines of all contacts, and how many these are.
#[derive(Clone, Copy)]
pub struct Measured {
    pub len: usize,
    pub contacts: u64,
}

// ---- entries

// Kept: no heap: the table is lent, longer than its n entries, here and below.
// How many of the first n entries are of this kind.
// Kept: the new form is no plainer: queued_in asks another question of each entry; a closure for it would need the contract that is_queued has. The loop goes by index, since an entry is made of six numbers.
fn how_many(records: &[u64], n: usize, kind: u32) -> u64
    requires { n ≤ 512 }
    ensures { result ≡ how_many kind (entries_from n records.now) }
{
    let mut found: u64 = 0;
    for i in 0..n {
        let e = sheet_entries::entry_from(records, i);
        found += u64::from(e.kind == kind);
    }
    found
}

fn is_queued(e: Entry, id: ContactId) -> bool
    ensures { result ≡ is_of QUEUED id.0 e }
{
    e.kind == store::QUEUED && e.id == id.0
}

// How many of the first n entries are queued rows of this contact.
fn queued_in(records: &[u64], n: usize, id: ContactId) -> u64
    requires { n ≤ 512 }
    ensures { result ≡ queued_of id.0 (entries_from n records.now) }
{
    let mut found: u64 = 0;
    for i in 0..n {
        let e = sheet_entries::entry_from(records, i);
        found += u64::from(is_queued(e, id));
    }
    found
}

// ---- a line's numbers

// How many numbers from `lowest` on the ranges hold that stand in the row from `first` on.
fn numbers_in_row(row: &[u8], first: usize, count: usize, lowest: u64) -> u64
    requires { Stands (group range) row.now first count × (length row.now ≤ 61440) }
    ensures { result ≡ size_from lowest (items (group range) count (drop first row.now)) }
{
    let mut sum: u64 = 0;
    for i in 0..count {
        let p = first + 8 * i;
        let a = fields::be32(row, p);
        let b = fields::be32(row, p + 4);
        // Kept: each is a number of 4 bytes (be32), so a TryFrom would have an error that cannot come.
        sum += statement_line::size_from(a as u32, b as u32, lowest);
    }
    sum
}

// The numbers of a contact's line; none where its row is refused.
fn row_line(row: &[u8], version: u32, id: ContactId, queued: u64) -> Option<[u64; 7]>
    requires { length row.now ≤ 61440 }
    ensures { Lined (row_text id.0 queued (read_row (layouts.contact version) row.now)) (row_count (read_row (layouts.contact version) row.now)) result }
{
    let Ok(at) = contact::check_contact(version, row) else {
        return None;
    };
    let sent = u64::from(at.keys.sent_msgno);
    let numbers = at.numbers;
    let acked = u64::from(numbers.peer_acked);
    let contiguous = u64::from(numbers.contiguous);
    let above = numbers.above;
    let beyond = numbers_in_row(row, above.first, above.count, 0);
    let gone = numbers.expired;
    let expired = numbers_in_row(row, gone.first, gone.count, acked + 1);
    Some([id.0, sent, acked, contiguous, beyond, queued, expired])
}

// The numbers of an entry's line, if it has one.
fn entry_line(run: &[u8], e: Entry, queued: u64) -> Option<[u64; 7]>
    requires { length run.now ≤ 61440 }
    ensures { Lined (entry_text run.now queued e) (entry_count run.now e) result }
{
    if e.kind == store::CONTACT {
        let row = store::part_of(run, e);
        return row_line(row, e.version, ContactId(e.id), queued);
    }
    None
}

// ---- lines measured and written

// The numbers of the line of the i-th entry, of n, if it has one.
fn line_at(run: &[u8], records: &[u64], n: usize, i: usize) -> Option<[u64; 7]>
    requires { (length run.now ≤ 61440) × (i < n) × (n ≤ 512) }
    ensures { Lined (entry_text run.now (queued_of (entry_from (drop (6 * i) records.now)).id (entries_from n records.now)) (entry_from (drop (6 * i) records.now)))
        (entry_count run.now (entry_from (drop (6 * i) records.now))) result }
{
    let e = sheet_entries::entry_from(records, i);
    if e.kind == store::CONTACT {
        let queued = queued_in(records, n, ContactId(e.id));
        return entry_line(run, e, queued);
    }
    None
}

// The lines of all entries.
// Kept: no plainer: a struct of run, records and n with these bounds would be made in write_granted and handed to functions that need records and n alone.
fn measure(run: &[u8], records: &[u64], n: usize) -> Measured
    requires { (length run.now ≤ 61440) × (n ≤ 512) }
    ensures { Measures run.now (entries_from n records.now) result }
{
    let mut len: usize = 0;
    let mut contacts: u64 = 0;
    for i in 0..n {
        if let Some(fields) = line_at(run, records, n, i) {
            len += 1 + ascii::fields_len(fields, statement_line::FIELDS);
            contacts += 1;
        }
    }
    Measured { len, contacts }
}

// Writes the lines of all entries from the front of the output on.
fn put_lines(run: &[u8], records: &[u64], n: usize, out: &mut [u8]) -> usize
    requires { (length run.now ≤ 61440) × (n ≤ 512) × (length (lines_from run.now (entries_from n records.now) (entries_from n records.now)) ≤ length out.old) }
    ensures { Wrote out.old 0 (lines_from run.now (entries_from n records.now) (entries_from n records.now)) out.new result }
{
    let mut here = 0;
    for i in 0..n {
        if let Some(fields) = line_at(run, records, n, i) {
            here = ascii::put_line(
                out,
                here,
                statement_line::LETTER_S,
                fields,
                statement_line::FIELDS,
            );
        }
    }
    here
}

// The text of a granted store.
pub fn write_granted(
    run: &[u8],
    records: &[u64],
    n: usize,
    next_slot: u64,
    out: &mut [u8],
) -> Result<usize, Question>
    requires { (length run.now ≤ 61440) × (n ≤ 512) }
    ensures out_after { leaves result out.new ≡ stored (lines_from run.now (entries_from n records.now) (entries_from n records.now)
        ++ last_line (count_from run.now (entries_from n records.now)) (entries_from n records.now) next_slot) out.old }
    ensures next_slot_len_bound { length (lines_from run.now (entries_from n records.now) (entries_from n records.now)
        ++ last_line (count_from run.now (entries_from n records.now)) (entries_from n records.now) next_slot) ≤ texts.TEXT_BYTES }
{
    let measured = measure(run, records, n);
    let queued = how_many(records, n, store::QUEUED);
    let held = how_many(records, n, store::COURIER);
    let fields = [measured.contacts, queued, held, next_slot, 0, 0, 0];
    let len = measured.len + 1 + ascii::fields_len(fields, LAST_FIELDS);
    if out.len() < len {
        return Err(Question::Output);
    }
    let at = put_lines(run, records, n, out);
    ascii::put_line(out, at, LETTER_T, fields, LAST_FIELDS);
    Ok(len)
}

// A letter and two numbers: of a refusal.
pub fn write_refused(letter: u8, number: u64, place: u64, out: &mut [u8]) -> Result<usize, Question>
    ensures out_after { leaves result out.new ≡ stored (letter ∷ fields_of (number ∷ place ∷ []) 2) out.old }
    ensures place_len_bound { length (letter ∷ fields_of (number ∷ place ∷ []) 2) ≤ texts.TEXT_BYTES }
{
    let fields = [number, place, 0, 0, 0, 0, 0];
    let len = 1 + ascii::fields_len(fields, 2);
    if out.len() < len {
        return Err(Question::Output);
    }
    ascii::put_line(out, 0, letter, fields, 2);
    Ok(len)
}
