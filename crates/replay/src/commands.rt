// What a line of a script asks for: a command, or a line behind a restore.
ghost use Rattle.std.specs.Prelude.{◌≤◌};

use super::{ABOVE, Asked, CHAINS, EXPIRED, SKIPPED, Script, UNACKED, at_most};
use ascii::first;
use contact::ListsMut;
use layout::Question;
use replay_script::Command;
use sheet::State;

// ---- lines of a restore

// Where the numbers of an entry stand, of a store whose entries start with this one.
fn place_of(first: usize, entry: usize) -> usize
    ensures { result ≤ 6144 }
{
    (first.min(sheet::LINES) + entry.min(sheet::LINES)) * sheet::RECORD
}

fn put_number(records: &mut [u64], at: usize, n: u64) {
    if at < records.len() {
        records[at] = n;
    }
}

fn put_entry(line: &[u8], records: &mut [u64], first: usize, entry: usize) {
    let at = place_of(first, entry);
    put_number(records, at, ascii::number(line, b' ', 0));
    put_number(records, at + 1, ascii::number(line, b' ', 1));
    put_number(records, at + 2, ascii::number(line, b' ', 4));
    put_number(records, at + 3, ascii::number(line, b' ', 5));
    put_number(records, at + 4, ascii::number(line, b' ', 2));
    put_number(records, at + 5, ascii::number(line, b' ', 3));
}

// Feeds a part of a line to the sheet's reader, which writes to the free half.
fn fed(s: Script, part: &[u8], run: &mut [u8], records: &mut [u64]) -> State {
    let start = s.start.min(run.len());
    let place = place_of(s.first, 0).min(records.len());
    let before = s.sheet;
    sheet::read_chunk(before, part, &mut run[start..], &mut records[place..])
}

// What a sheet's line leaves: the restore, where it is the last, or nothing to do.
fn line_read(s: Script) -> Script {
    let sheet = s.sheet;
    match sheet::finish(sheet) {
        Err(_) => s.unknown(),
        Ok(read) if s.left == 0 => s.restores(read.bytes, read.lines),
        Ok(_) => s,
    }
}

// One line of a sheet, its LF with it.
fn sheet_line(s: Script, line: &[u8], run: &mut [u8], records: &mut [u64]) -> Script {
    let mut next = s;
    let read = fed(s, line, run, records);
    next.sheet = read;
    let ended = fed(next, b"\n", run, records);
    next.sheet = ended;
    line_read(next)
}

fn entry_line(s: Script, line: &[u8], records: &mut [u64]) -> Script {
    if replay_script::is_entry(line) {
        put_entry(line, records, s.first, s.entries);
        let mut next = s;
        next.entries = std::num::wrapping_add_usize(s.entries, 1);
        if next.left == 0 {
            return next.restores(next.len, next.entries);
        }
        return next;
    }
    s.unknown()
}

// A line behind a restore.
fn restore_line(s: Script, line: &[u8], run: &mut [u8], records: &mut [u64]) -> Script {
    let mut next = s;
    next.left = std::num::wrapping_sub_u64(s.left, 1);
    if next.raw {
        return entry_line(next, line, records);
    }
    sheet_line(next, line, run, records)
}

// ---- commands

fn restore_of(s: Script, count: u64) -> Script {
    // Kept: the new form is no plainer: std has no From<usize> for u64, and try_from has an error that never comes.
    if (sheet::LINES as u64) < count {
        return s.unknown();
    }
    let mut next = s;
    let sheet = sheet::begin();
    next.sheet = sheet;
    next.raw = false;
    next.left = count;
    if count == 0 {
        return next.restores(0, 0);
    }
    next
}

// The bytes that a word is, at the front of the free half of the run.
fn bytes_of(s: Script, word: &[u8], run: &mut [u8]) -> Result<usize, Question> {
    let start = s.start.min(run.len());
    let room = (run.len() - start).min(sheet::BLOB_BYTES);
    let end = start + room;
    ascii::bytes(word, &mut run[start..end])
}

// The row that bytes_of left.
fn row_in(s: Script, run: &[u8], n: usize) -> &[u8] {
    let start = s.start.min(run.len());
    first(&run[start..], n)
}

fn raw_restore_of(s: Script, line: &[u8], run: &mut [u8]) -> Script {
    let count = ascii::number(line, b' ', 1);
    if (sheet::LINES as u64) < count {
        return s.unknown();
    }
    let Ok(n) = bytes_of(s, ascii::word(line, b' ', 2), run) else {
        return s.unknown();
    };
    let mut next = s;
    next.raw = true;
    next.left = count;
    next.len = n;
    next.entries = 0;
    if count == 0 {
        return next.restores(n, 0);
    }
    next
}

fn lend(s: Script, line: &[u8]) -> Script {
    s.lends(
        ascii::number(line, b' ', 1),
        ascii::number(line, b' ', 2),
        ascii::number(line, b' ', 3),
        ascii::number(line, b' ', 4),
        ascii::number(line, b' ', 5),
        ascii::number(line, b' ', 6),
    )
}

fn veil_row(
    s: Script,
    line: &[u8],
    run: &[u8],
    n: usize,
    out: &mut [u8],
) -> Result<usize, Question> {
    let kind = narrow(ascii::number(line, b' ', 1));
    let version = narrow(ascii::number(line, b' ', 2));
    let room = at_most(ascii::number(line, b' ', 3), out.len());
    veil::veil(kind, version, row_in(s, run, n), &mut out[0..room])
}

fn veil_line(s: Script, line: &[u8], run: &mut [u8], out: &mut [u8]) -> Script {
    let Ok(n) = bytes_of(s, ascii::word(line, b' ', 4), run) else {
        return s.unknown();
    };
    s.shows(veil_row(s, line, run, n, out))
}

// What reading a contact row and writing it again answers, with lists of these lengths, which a word has with commas.
fn read_contact(version: u32, word: &[u8], row: &[u8], out: &mut [u8]) -> Result<usize, Question> {
    // Kept: fixed memory, so the lists are local arrays, which the word's lengths cut
    let mut chains = [0u8; 13056];
    let mut skipped = [0u8; 23000];
    let mut above = [0u32; 15360];
    let mut unacked = [0u32; 15360];
    let mut expired = [0u32; 15360];
    let c = contact_lent::CHAIN_PLACE * at_most(ascii::number(word, b',', 0), CHAINS);
    let k = contact_lent::SKIPPED_PLACE * at_most(ascii::number(word, b',', 1), SKIPPED);
    let a = 2 * at_most(ascii::number(word, b',', 2), ABOVE);
    let u = at_most(ascii::number(word, b',', 3), UNACKED);
    let e = 2 * at_most(ascii::number(word, b',', 4), EXPIRED);
    let mut lists = ListsMut {
        chains: &mut chains[0..c],
        skipped: &mut skipped[0..k],
        above: &mut above[0..a],
        unacked: &mut unacked[0..u],
        expired: &mut expired[0..e],
    };
    rewrite::rewrite_contact(version, row, &mut lists, out)
}

// What reading a row and writing it again answers.
fn read_row(
    kind: u64,
    version: u32,
    word: &[u8],
    row: &[u8],
    out: &mut [u8],
) -> Result<usize, Question> {
    // Kept: a kind is a number of a script.
    if kind == u64::from(store::DEVICE) {
        return rewrite::rewrite_device(version, row, out);
    }
    if kind == u64::from(store::QUEUED) {
        return rewrite::rewrite_queued(version, row, out);
    }
    if kind == u64::from(store::CONTACT) {
        return read_contact(version, word, row, out);
    }
    rewrite::rewrite_courier(version, row, out)
}

fn read_bytes(s: Script, line: &[u8], run: &[u8], n: usize, out: &mut [u8]) -> Script {
    let kind = ascii::number(line, b' ', 1);
    let version = narrow(ascii::number(line, b' ', 2));
    let word = ascii::word(line, b' ', 3);
    s.shows(read_row(kind, version, word, row_in(s, run, n), out))
}

fn read_line(s: Script, line: &[u8], run: &mut [u8], out: &mut [u8]) -> Script {
    let kind = ascii::number(line, b' ', 1);
    if !replay_script::lengths_for(kind, ascii::word(line, b' ', 3)) {
        return s.unknown();
    }
    let Ok(n) = bytes_of(s, ascii::word(line, b' ', 4), run) else {
        return s.unknown();
    };
    read_bytes(s, line, run, n, out)
}

// The number in 32 bits: a word that is one fits.
// Kept: the new form is no plainer: `try_from` has a refusal, which no line of a command meets.
fn narrow(n: u64) -> u32 {
    (n % 4294967296) as u32
}

// A call with this code, and the numbers behind the command's name.
fn call(s: Script, code: u64, line: &[u8]) -> Script {
    let a = ascii::number(line, b' ', 1);
    let b = ascii::number(line, b' ', 2);
    s.asks(Asked::Call([code, a, b, 0, 0, 0]))
}

fn command_line(s: Script, line: &[u8], run: &mut [u8], out: &mut [u8]) -> Script {
    let Some(command) = Command::from_line(line) else {
        return s.unknown();
    };
    match command {
        Command::Script => s.begins(),
        Command::Restore => restore_of(s, ascii::number(line, b' ', 1)),
        Command::RawRestore => raw_restore_of(s, line, run),
        Command::Lend => lend(s, line),
        Command::Open => call(s, calls_code::OPEN, line),
        Command::Cover => call(s, calls_code::COVER, line),
        Command::Contains => call(s, calls_code::CONTAINS, line),
        Command::Covers => call(s, calls_code::COVERS, line),
        Command::Take => call(s, calls_code::TAKE, line),
        Command::Statement => call(s, calls_code::STATEMENT, line),
        Command::Write => call(s, calls_code::WRITE, line),
        Command::Veil => veil_line(s, line, run, out),
        Command::Read => read_line(s, line, run, out),
        Command::State => s.asks(Asked::State),
    }
}

// Lines that start so are passed over.
fn is_passed(b: u8) -> bool {
    b == b'#' || b == b'='
}

pub(super) fn one_line(
    s: Script,
    line: &[u8],
    run: &mut [u8],
    records: &mut [u64],
    out: &mut [u8],
) -> Script {
    let mut next = s.asks(Asked::Nothing);
    next.number = std::num::wrapping_add_u64(s.number, 1);
    if 0 < next.left {
        return restore_line(next, line, run, records);
    }
    if line.len() == 0 {
        return next;
    }
    if is_passed(line[0]) {
        return next;
    }
    command_line(next, line, run, out)
}
