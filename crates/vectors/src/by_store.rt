// Cases of stores, and of sheets.
ghost use Rattle.std.specs.Prelude.{◌≡◌, ◌*◌, ◌<◌, ◌≤◌, length};
ghost use Rattle.sheet_entries.specs.Table as tables;

use super::expected::{is_bytes, is_number, is_question};
use layout::Question;
use restore::Granted;
use sheet::RECORD;
use sheet_entries::ENTRIES;
use store::Refusal;

// ---- stores

// How many bytes an entry has in a case.
const ENTRY: usize = 36;

// How many numbers the records of a full table have.
const RECORDS: usize = 3072;

// A big-endian number of four bytes; 0 where they are not all there.
// Kept: the new form is no plainer: these two differ in the type, as fields::u32_at and u64_at do.
fn number_32(bytes: &[u8], at: usize) -> u32 {
    match fields::u32_at(bytes, at) {
        Ok((number, _)) => number,
        Err(_) => 0,
    }
}

// The same of eight bytes.
fn number_64(bytes: &[u8], at: usize) -> u64 {
    match fields::u64_at(bytes, at) {
        Ok((number, _)) => number,
        Err(_) => 0,
    }
}

// The k-th place of the entries, six to each: kind, contact or slot, start, length, msgno, version. In bytes msgno and version stand before start and length.
fn place(bytes: &[u8], k: usize) -> u64
    requires { k < 6 * tables.ENTRIES }
{
    let at = ENTRY * (k / RECORD);
    match k % RECORD {
        0 => u64::from(number_32(bytes, at)),
        1 => number_64(bytes, at + 4),
        2 => number_64(bytes, at + 20),
        3 => number_64(bytes, at + 28),
        4 => u64::from(number_32(bytes, at + 12)),
        _ => u64::from(number_32(bytes, at + 16)),
    }
}

// The records of so many entries.
fn records_of(bytes: &[u8], count: usize) -> [u64; RECORDS]
    requires { count ≤ tables.ENTRIES }
{
    // Kept: fixed memory, so the records are a local array
    let mut records = [0u64; RECORDS];
    for k in 0..RECORD * count {
        records[k] = place(bytes, k);
    }
    records
}

// Whether the text is these two numbers, of eight bytes each.
fn is_pair(text: &[u8], one: u64, other: u64) -> bool {
    // Kept: fixed memory: sixteen bytes, so a local array.
    let mut pair = [0u8; 16];
    let Ok(n) = ascii::bytes(text, &mut pair) else {
        return false;
    };
    n == 16 && number_64(&pair, 0) == one && number_64(&pair, 8) == other
}

// `0 NEXT`, next_contact and next_slot; or `NUMBER INDEX`.
// Kept: the new form is no plainer: std has no `From` from `usize` to `u64`, and try_from has an error that never comes.
fn is_restored(text: &[u8], answer: Result<Granted, Refusal>) -> bool {
    match answer {
        Ok(granted) => {
            is_number(ascii::field(text), 0)
                && is_pair(ascii::rest(text), granted.next_contact, granted.next_slot)
        }
        Err(refusal) => {
            is_question(ascii::field(text), refusal.question)
                && is_number(ascii::rest(text), refusal.place as u64)
        }
    }
}

// `RUN ANSWER`: the run of a store with these entries, and what restore answers.
fn restored(case: &[u8], records: &[u64], count: usize, bytes: &mut [u8]) -> bool {
    let Ok(n) = ascii::bytes(ascii::field(case), bytes) else {
        return false;
    };
    let answer = sheet_entries::restore(ascii::first(bytes, n), records, count);
    is_restored(ascii::rest(case), answer)
}

// `ENTRIES RUN ANSWER`.
pub(super) fn store(case: &[u8], bytes: &mut [u8], again: &mut [u8]) -> bool {
    let Ok(n) = ascii::bytes(ascii::field(case), bytes) else {
        return false;
    };
    let count = n / ENTRY;
    if ENTRIES < count {
        return false;
    }
    if n % ENTRY == 0 {
        let records = records_of(ascii::first(bytes, n), count);
        return restored(ascii::rest(case), &records, count, again);
    }
    false
}

// ---- sheets

// Zeros for the blob bytes of a sheet. Kept: also below, fixed memory, so what a sheet leaves stands in local arrays.
fn run_bytes() -> [u8; 61440]
    ensures { 61440 ≡ length result }
{
    [0; 61440]
}

// Zeros for the six numbers of each of 512 lines.
fn no_records() -> [u64; 3072]
    ensures { 3072 ≡ length result }
{
    [0; 3072]
}

// Writes the text that a statement of the sheet is.
fn statement(sheet: &[u8], out: &mut [u8]) -> Result<usize, Question> {
    let mut run = run_bytes();
    let mut records = no_records();
    let state = sheet::read_chunk(sheet::begin(), sheet, &mut run, &mut records);
    statement_report::report(state, &run, &records, out)
}

// `SHEET TEXT`: a sheet, and the text of its statement.
pub(super) fn sheet(case: &[u8], bytes: &mut [u8], again: &mut [u8]) -> bool {
    let Ok(n) = ascii::bytes(ascii::field(case), bytes) else {
        return false;
    };
    let Ok(size) = statement(ascii::first(bytes, n), again) else {
        return false;
    };
    is_bytes(ascii::rest(case), ascii::first(again, size), bytes)
}
