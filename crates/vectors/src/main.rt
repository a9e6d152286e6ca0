// Replays stored cases without Rust: reads standard input, one case a line, computes our answer to each with the proved libraries, and compares it with the stored one.
// Prints `different: LINE` for each case that comes out different or cannot be read, and at the end a line for each letter.
#![tactic(auto)]

mod by_row;
mod by_store;
mod expected;
mod tally;

ghost use Rattle.std.specs.Prelude.{◌≡◌, ◌≤◌, length};

use by_row::RowKind;
use std::io::Read;
use tally::{Kind, Tallies};

// Whether our answer to a case is the stored one.
fn same(kind: Kind, case: &[u8], bytes: &mut [u8], again: &mut [u8]) -> bool {
    match kind {
        Kind::Leb128Read => by_row::leb128_read(case, bytes),
        Kind::Leb128Written => by_row::leb128_written(case, bytes, again),
        Kind::Name => by_row::name(case, bytes),
        Kind::Card => by_row::card(case, bytes, again),
        Kind::Device => by_row::row(RowKind::Device, case, bytes, again),
        Kind::Queued => by_row::row(RowKind::Queued, case, bytes, again),
        Kind::Courier => by_row::row(RowKind::Courier, case, bytes, again),
        Kind::Contact => by_row::row(RowKind::Contact, case, bytes, again),
        Kind::Store => by_store::store(case, bytes, again),
        Kind::Sheet => by_store::sheet(case, bytes, again),
    }
}

// Counts the case of a line; an empty line, and one that starts with #, has none. One of no kind comes out different, and is counted nowhere.
fn count(
    rt: &impl Print,
    tallies: Tallies,
    number: u64,
    line: &[u8],
    bytes: &mut [u8],
    again: &mut [u8],
) -> Tallies {
    if line.is_empty() || line[0] == b'#' {
        return tallies;
    }
    let kind = Kind::from_letter(ascii::field(line));
    let is_same = match kind {
        Some(kind) => same(kind, ascii::rest(line), bytes, again),
        None => false,
    };
    if !is_same {
        let _ = println!(rt; "different: {number}");
    }
    match kind {
        Some(kind) => tallies.with(kind, is_same),
        None => tallies,
    }
}

fn lines(rt: &impl Print, text: &[u8], bytes: &mut [u8], again: &mut [u8]) -> Tallies {
    let mut tallies = Tallies::new();
    let mut number: u64 = 0;
    for line in text.split(|b| *b == b'\n') {
        number = number.saturating_add(1);
        tallies = count(rt, tallies, number, line, bytes, again);
    }
    tallies
}

// ---- the memory. Kept: fixed memory and no heap, so `main` has it in local arrays

// 524,288 zeros, to read the input into.
fn text_bytes() -> [u8; 524288]
    ensures { 524288 ≡ length result }
{
    [0; 524288]
}

// 65,536 zeros.
fn large_buffer() -> [u8; 65536]
    ensures { 65536 ≡ length result }
{
    [0; 65536]
}

// Reads until text is full, the input ends or a read fails, and returns how many bytes it put at the start of text.
fn read_full<R: Read>(input: &mut R, text: &mut [u8]) -> usize
    ensures { result ≤ length text.new }
{
    let mut done = 0;
    // Kept: the new form is no plainer: a turn goes on by as many bytes as the read answers, which neither `for` nor an iterator counts
    while done < text.len() {
        let Ok(n) = input.read(&mut text[done..]) else {
            break;
        };
        if n == 0 {
            break;
        }
        done += n;
    }
    done
}

fn replay<R: Read>(
    rt: &impl Print,
    input: &mut R,
    text: &mut [u8],
    bytes: &mut [u8],
    again: &mut [u8],
) {
    let n = read_full(input, text);
    if n == text.len() {
        let _ = println!(rt; "input too long");
        return;
    }
    lines(rt, &text[..n], bytes, again).print(rt);
}

fn main(rt: HostRuntime) {
    let mut input = rt.stdin();
    let mut text = text_bytes();
    let mut bytes = large_buffer();
    let mut again = large_buffer();
    replay(&rt, &mut input, &mut text, &mut bytes, &mut again);
}
