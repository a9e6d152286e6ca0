// Prints the statement of the sheet on standard input, which may be of any length and come in any pieces: it is read to its end before anything is printed.
// A line of any length takes the same memory.
#![tactic(auto)]

ghost use Rattle.std.specs.Prelude.{◌≡◌, true, false, ◌*◌, ◌≤◌, length};
ghost use Rattle.sheet.specs.Machine.{at_line, held};
ghost use Rattle.statement.specs.Pieces.{Moved, Taken, ReadOne, ReadAll, Reports};
ghost use Rattle.sheet.specs.Sheet as sheets;

use failure::fail;
use layout::Question;
use sheet::{BLOB_BYTES, LINES, RECORD, State};
use statement_text::TEXT_BYTES;
use std::io::Read;

// How many numbers the records have.
const RECORDS: usize = RECORD * LINES;

// What was read so far. After the last piece, or after a read that failed, there is no more.
// Kept: what may not change: Taken and ReadOne (specs/Pieces) say state, more and failed of each reading, ReadAll state and failed, also of a failed one.
#[derive(Drop)]
struct Reading {
    state: State,
    more: bool,
    failed: bool,
}

fn begin() -> Reading
    ensures { (result.state ≡ at_line 0 0) × (result.more ≡ true) × (result.failed ≡ false) }
{
    let state = sheet::begin();
    Reading {
        state,
        more: true,
        failed: false,
    }
}

// The buffer of a read.
fn chunk_bytes() -> [u8; 65536]
    ensures { 65536 ≡ length result }
{
    // Kept: fixed memory and no heap, here and below.
    [0; 65536]
}

fn run_bytes() -> [u8; BLOB_BYTES]
    ensures { 61440 ≡ length result }
{
    [0; BLOB_BYTES]
}

fn line_places() -> [u64; RECORDS]
    ensures { 3072 ≡ length result }
{
    [0; RECORDS]
}

fn text_bytes() -> [u8; TEXT_BYTES]
    ensures { 76949 ≡ length result }
{
    [0; TEXT_BYTES]
}

// One read: how many bytes it put at the start of the buffer; none where it failed, which is said.
fn read_once<R: Read>(rt: &(impl Eprint + Alloc), input: &mut R, chunk: &mut [u8]) -> Option<usize>
    ensures { Moved (length chunk.new) result }
{
    match input.read(chunk) {
        Ok(n) => Some(n),
        Err(error) => {
            fail(rt, "standard input", error);
            None
        }
    }
}

// One piece more: what a read answered, and the buffer as it left it.
fn take_piece(
    got: Option<usize>,
    chunk: &[u8],
    state: State,
    run: &mut [u8],
    records: &mut [u64],
) -> Reading
    ensures { Taken (record { got = got; buffer = chunk.now }) (held state run.old records.old) result run.new records.new }
{
    let n = got.unwrap_or(0).min(chunk.len());
    let next = sheet::read_chunk(state, &chunk[..n], run, records);
    Reading {
        state: next,
        more: 0 < n,
        failed: got.is_none(),
    }
}

fn read_some<R: Read>(
    rt: &(impl Eprint + Alloc),
    input: &mut R,
    state: State,
    chunk: &mut [u8],
    run: &mut [u8],
    records: &mut [u64],
) -> Reading
    ensures { ReadOne chunk.new (held state run.old records.old) result run.new records.new }
{
    let got = read_once(rt, input, chunk);
    take_piece(got, chunk, state, run, records)
}

// A proved loop has to end, and nothing says that the input does: the turns have a number that no run uses up.
fn read_all<R: Read>(
    rt: &(impl Eprint + Alloc),
    input: &mut R,
    chunk: &mut [u8],
    run: &mut [u8],
    records: &mut [u64],
) -> Reading
    ensures { ReadAll run.old records.old result run.new records.new }
{
    let mut reading = begin();
    for _ in 0..u64::MAX {
        if reading.more {
            let state = reading.state;
            reading = read_some(rt, input, state, chunk, run, records);
        } else {
            return reading;
        }
    }
    reading
}

// A text that could not be written whole is said to be so.
fn write_out(rt: &(impl Print + Eprint + Alloc), text: &[u8]) {
    if let Err(error) = rt.write_all(text) {
        fail(rt, "standard output", error);
    }
}

// The output is long enough for every text, so there is no refusal.
fn print(rt: &(impl Print + Eprint + Alloc), text: &[u8], written: Result<usize, Question>) {
    if let Ok(n) = written {
        if n <= text.len() {
            write_out(rt, &text[..n]);
        }
    }
}

// Reads the input and writes its text: lists with the full room hold every sheet. Where a read failed there is none.
fn report_input<R: Read>(
    rt: &(impl Eprint + Alloc),
    input: &mut R,
    chunk: &mut [u8],
    run: &mut [u8],
    records: &mut [u64],
    text: &mut [u8],
) -> Option<Result<usize, Question>>
    requires { (sheets.BLOB_BYTES ≤ length run.old) × (6 * sheets.LINES ≤ length records.old) }
    ensures { Reports run.old records.old text.old result run.new records.new text.new }
{
    let reading = read_all(rt, input, chunk, run, records);
    if reading.failed {
        return None;
    }
    let state = reading.state;
    Some(statement_report::report(state, run, records, text))
}

fn statement<R: Read>(
    rt: &(impl Print + Eprint + Alloc),
    input: &mut R,
    chunk: &mut [u8],
    run: &mut [u8],
    records: &mut [u64],
    text: &mut [u8],
)
    requires { (sheets.BLOB_BYTES ≤ length run.old) × (6 * sheets.LINES ≤ length records.old) }
{
    if let Some(written) = report_input(rt, input, chunk, run, records, text) {
        print(rt, text, written);
    }
}

fn main(rt: HostRuntime) {
    let mut input = rt.stdin();
    let mut chunk = chunk_bytes();
    let mut run = run_bytes();
    let mut records = line_places();
    let mut text = text_bytes();
    statement(
        &rt,
        &mut input,
        &mut chunk,
        &mut run,
        &mut records,
        &mut text,
    );
}
