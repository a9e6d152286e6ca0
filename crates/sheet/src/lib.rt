// The sheet, read byte by byte (questions 41 to 44): lines `D,version,blob`, `C,contact,version,blob`, `Q,contact,msgno,version,blob`,
// `K,slot,version,blob`, each with its LF. A chunk of any length may be handed in at a time; the state is all that is kept between chunks.
// Blob bytes go to a lent run, and of each line six numbers, its record, go to a lent list: kind, id, start, length, msgno, version. A run shorter than
// 61,440 bytes, or a list for fewer than 512 records, lower the limits of 44; no number and no byte past them is touched.
// 41 is answered as soon as it is sure. 42 and 43 wait for the line's end, since its later bytes can still make it 41.
#![tactic(auto)]

ghost use Rattle.std.specs.Prelude.{◌≡◌, List, [], ◌∷◌, true, cond, ℕ, ◌+◌, ◌-◌, ◌*◌, ◌%◌, ◌<◌, ◌≤◌, length, take, eqb};
ghost use Rattle.rows.specs.Checks.{all};
ghost use Rattle.ascii.specs.Hex.{is_hex, hex_pairs};
ghost use Rattle.put.specs.Put.{put};
ghost use Rattle.sheet.specs.Sheet.{shape_of};
ghost use Rattle.sheet.specs.Machine.{at_line, waiting, stopped, begun, begun_as, highest_at, digit_step, number_step, taken, comma_step, high_step, room_for};
ghost use Rattle.sheet.specs.Machine.{bytes_in, lines_in, low_step, low_run, id_in, msgno_in, six, closed, closed_records, end_step, end_records, other_step, held, stepped, fed, answer_of};
ghost use Rattle.sheet.specs.Machine as machine;
ghost use Rattle.sheet.specs.Sheet as sheets;

use layout::Question;

const LF: u8 = b'\n';

const COMMA: u8 = b',';

// The most blob bytes and lines of a sheet.
pub const BLOB_BYTES: usize = 61440;

pub const LINES: usize = 512;

// How many numbers a record has.
pub const RECORD: usize = 6;

// The highest number of 32 bits.
const HIGHEST_32: u64 = 0xFFFFFFFF;

// Where in a line the reader stands: before its letter and behind it, before a decimal and in it, in the blob between pairs and within one, in a line
// that 42 or 43 refuses unless 41 does, behind a refusal.
// Kept: `step`, `read_chunk` and `finish` answer for every `State` (what may not change: `stepped` and `answer_of`), also one whose `phase` is none of these;
// an enum would be narrower.
const START: u8 = 0;

const LETTER: u8 = 1;

const FIRST: u8 = 2;

const NUMBER: u8 = 3;

const HIGH: u8 = 4;

const LOW: u8 = 5;

const WAIT: u8 = 6;

const REFUSED: u8 = 7;

// What is kept between bytes. Fields stand from wide to narrow, so that no padding lies between them.
#[derive(Clone, Copy)]
pub struct State {
    // the last three decimals of the line
    pub oldest: u64,
    pub older: u64,
    pub newest: u64,
    // the decimal that is being read
    pub number: u64,
    // the lines read
    pub lines: usize,
    // where the line's blob starts in the run, and where its next byte goes
    pub start: usize,
    pub used: usize,
    pub kind: u32,
    // the decimals to come
    pub left: u8,
    // the first digit of a pair
    pub digit: u8,
    pub refusal: u8,
    pub phase: u8,
}

// What was read of a sheet: so many lines and blob bytes.
#[derive(Clone, Copy, Debug, PartialEq, Eq)]
pub struct Read {
    pub lines: usize,
    pub bytes: usize,
}

// What refuses a sheet: the question's number, and the line's from 1.
// Kept: `finish` answers for every `State` (what may not change), also one whose `refusal` is the number of no `Question`, so a number stands here.
#[derive(Clone, Copy, Debug, PartialEq, Eq)]
pub struct Refusal {
    pub number: u8,
    pub line: usize,
}

fn at_line(lines: usize, used: usize) -> State
    ensures { result ≡ at_line lines used }
{
    State {
        oldest: 0,
        older: 0,
        newest: 0,
        number: 0,
        lines,
        start: used,
        used,
        kind: 0,
        left: 0,
        digit: 0,
        refusal: 0,
        phase: START,
    }
}

// Before a sheet.
pub fn begin() -> State
    ensures { result ≡ at_line 0 0 }
{
    at_line(0, 0)
}

// Of a line that is refused at its end, by this question or by 41, the decimals to come are kept; of one that is refused, nothing.
fn waiting(lines: usize, left: u8, question: u8) -> State
    ensures { result ≡ waiting lines left question }
{
    State {
        left,
        refusal: question,
        phase: WAIT,
        ..at_line(lines, 0)
    }
}

fn stopped(lines: usize, question: u8) -> State
    ensures { result ≡ stopped lines question }
{
    State {
        refusal: question,
        phase: REFUSED,
        ..at_line(lines, 0)
    }
}

// ---- letter, comma, decimal

fn begun(s: State, kind: u32, left: u8) -> State
    ensures { result ≡ begun kind left s }
{
    State {
        kind,
        left,
        phase: LETTER,
        ..s
    }
}

fn take_letter(s: State, b: u8) -> State
    ensures { result ≡ begun_as (shape_of (b ∷ [])) s }
{
    match b {
        b'D' => begun(s, store::DEVICE, 1),
        b'C' => begun(s, store::CONTACT, 2),
        b'Q' => begun(s, store::QUEUED, 3),
        b'K' => begun(s, store::COURIER, 2),
        _ => stopped(s.lines, Question::Line.number()),
    }
}

fn highest(kind: u32, left: u8) -> u64
    ensures { result ≡ highest_at kind left }
{
    if left == 1 || left == 2 && kind == store::QUEUED {
        HIGHEST_32
    } else {
        u64::MAX
    }
}

fn take_digit(s: State, b: u8) -> State
    ensures { result ≡ digit_step b s }
{
    let Some(n) = ascii::with_digit(s.number, b, highest(s.kind, s.left)) else {
        return waiting(s.lines, s.left, Question::Decimal.number());
    };
    State {
        number: n,
        phase: NUMBER,
        ..s
    }
}

// No digit stands behind a first 0.
#[tactic(auto, unfolding(crate::specs::Machine::number_step))]
fn take_next_digit(s: State, b: u8) -> State
    ensures { result ≡ number_step b s }
{
    if s.number == 0 {
        return waiting(s.lines, s.left, Question::Decimal.number());
    }
    take_digit(s, b)
}

// Behind a decimal: the next one, or the blob.
fn taken(s: State, left: u8) -> State
    requires { s.left ≡ left + 1 }
    ensures { result ≡ taken s }
{
    State {
        oldest: s.older,
        older: s.newest,
        newest: s.number,
        number: 0,
        left,
        phase: if left == 0 { HIGH } else { FIRST },
        ..s
    }
}

// A comma behind a letter or a decimal; any other is one too many.
#[tactic(auto, unfolding(crate::specs::Machine::comma_step))]
fn take_comma(s: State) -> State
    ensures { result ≡ comma_step s }
{
    if s.phase == LETTER {
        return State { phase: FIRST, ..s };
    }
    if s.left == 0 {
        return stopped(s.lines, Question::Line.number());
    }
    let left = s.left - 1;
    if s.phase == NUMBER {
        return taken(s, left);
    }
    waiting(s.lines, left, Question::Decimal.number())
}

// ---- blob

#[tactic(auto, unfolding(crate::specs::Machine::high_step))]
fn take_high(s: State, b: u8) -> State
    ensures { result ≡ high_step b s }
{
    if ascii::is_hex(b) {
        return State {
            digit: ascii::hex_value(b),
            phase: LOW,
            ..s
        };
    }
    waiting(s.lines, s.left, Question::Blob.number())
}

pub fn room_for(most: usize, lent: usize) -> usize
    ensures { (result ≡ room_for most lent) × (result ≤ most) × (result ≤ lent) }
{
    most.min(lent)
}

// The byte of a pair goes to the run, if there is room for it.
#[tactic(auto, unfolding(crate::specs::Machine::low_step, crate::specs::Machine::low_run))]
fn take_low(s: State, b: u8, run: &mut [u8]) -> State
    ensures { (result ≡ low_step (bytes_in run.old) b s) × (run.new ≡ low_run (bytes_in run.old) b s run.old) }
{
    if ascii::is_hex(b) {
        let d = ascii::hex_value(b);
        let room = room_for(BLOB_BYTES, run.len());
        let mut used = room + 1;
        if s.used < room {
            run[s.used] = s.digit % 16 * 16 + d;
            used = s.used + 1;
        }
        return State {
            used,
            digit: 0,
            phase: HIGH,
            ..s
        };
    }
    waiting(s.lines, s.left, Question::Blob.number())
}

// ---- LF

fn id_in(s: State) -> u64
    ensures { result ≡ id_in s }
{
    if s.kind == store::QUEUED {
        s.oldest
    } else {
        s.older
    }
}

fn msgno_in(s: State) -> u64
    ensures { result ≡ msgno_in s }
{
    if s.kind == store::QUEUED { s.older } else { 0 }
}

fn put_six(records: &mut [u64], at: usize, s: State)
    requires { at + 6 ≤ length records.old }
    ensures { records.new ≡ put records.old at (six s) }
{
    // Kept: the new form is no plainer: std has no From<usize> for u64, and try_from has an error that never comes
    records[at..at + RECORD].copy_from_slice(&[
        u64::from(s.kind),
        id_in(s),
        s.start as u64,
        s.used.saturating_sub(s.start) as u64,
        msgno_in(s),
        s.newest,
    ]);
}

#[tactic(auto, unfolding(crate::specs::Machine::closed, crate::specs::Machine::closed_records))]
fn close(s: State, lent: usize, records: &mut [u64]) -> State
    ensures { (result ≡ closed (room_for sheets.BLOB_BYTES lent) (lines_in records.old) s) × (records.new ≡ closed_records (room_for sheets.BLOB_BYTES lent) (lines_in records.old) s records.old) }
{
    let bytes = room_for(BLOB_BYTES, lent);
    let most = room_for(LINES, records.len() / RECORD);
    if s.used <= bytes && s.lines < most {
        put_six(records, RECORD * s.lines, s);
        return at_line(s.lines + 1, s.used);
    }
    stopped(s.lines, Question::SheetSize.number())
}

#[tactic(auto, unfolding(crate::specs::Machine::end_step, crate::specs::Machine::end_records))]
fn end_line(s: State, lent: usize, records: &mut [u64]) -> State
    ensures { (result ≡ end_step (room_for sheets.BLOB_BYTES lent) (lines_in records.old) s) × (records.new ≡ end_records (room_for sheets.BLOB_BYTES lent) (lines_in records.old) s records.old) }
{
    match s.phase {
        HIGH => close(s, lent, records),
        LOW => stopped(s.lines, Question::Blob.number()),
        WAIT if s.left == 0 => stopped(s.lines, s.refusal),
        _ => stopped(s.lines, Question::Line.number()),
    }
}

// ---- any byte

#[tactic(auto, unfolding(crate::specs::Machine::other_step))]
fn take_other(s: State, b: u8) -> State
    ensures { result ≡ other_step b s }
{
    match s.phase {
        NUMBER => take_next_digit(s, b),
        FIRST => take_digit(s, b),
        START => take_letter(s, b),
        WAIT => s,
        _ => stopped(s.lines, Question::Line.number()),
    }
}

// One byte more.
#[tactic(auto, unfolding(crate::specs::Machine::stepped))]
pub fn step(s: State, b: u8, run: &mut [u8], records: &mut [u64]) -> State
    ensures { held result run.new records.new ≡ stepped b (held s run.old records.old) }
{
    let phase = s.phase;
    if phase == REFUSED {
        return s;
    }
    if b == LF {
        return end_line(s, run.len(), records);
    }
    if b == COMMA {
        return take_comma(s);
    }
    if phase == HIGH {
        return take_high(s, b);
    }
    if phase == LOW {
        return take_low(s, b, run);
    }
    take_other(s, b)
}

// True only where a byte leaves all that is held as it was: behind a refusal, and in a line that waits for all but LF and comma.
#[tactic(auto, unfolding(crate::specs::Machine::stepped, crate::specs::Machine::other_step))]
fn stays(s: State, b: u8) -> bool
    ensures { (run records : List ℕ) → result ≡ true → stepped b (held s run records) ≡ held s run records }
{
    match s.phase {
        REFUSED => true,
        WAIT => b != LF && b != COMMA,
        _ => false,
    }
}

// Pairs of digits where the reader stands between pairs of a blob; none elsewhere.
fn pairs_in(s: State, rest: &[u8]) -> usize
    ensures value { result ≡ cond (eqb s.phase machine.HIGH) (hex_pairs rest.now) 0 }
    ensures within { 2 * result ≤ length rest.now }
    ensures in_blob { 0 < result → s.phase ≡ machine.HIGH }
    ensures digits { all is_hex (take (2 * result) rest.now) ≡ true }
{
    if s.phase == HIGH {
        ascii::hex_pairs(rest)
    } else {
        0
    }
}

// Many pairs of digits at once: their bytes go to the run as far as there is room.
fn take_pairs(s: State, digits: &[u8], run: &mut [u8]) -> State
    requires { (s.phase ≡ machine.HIGH) × (0 < length digits.now) × (length digits.now % 2 ≡ 0) × (all is_hex digits.now ≡ true) }
    ensures { (records : List ℕ) → held result run.new records ≡ fed digits.now (held s run.old records) }
{
    let n = digits.len() / 2;
    let room = room_for(BLOB_BYTES, run.len());
    let mut used = room + 1;
    if s.used < room {
        let fit = room_for(n, room - s.used);
        let end = ascii::put_bytes(&digits[..2 * fit], run, s.used);
        if fit == n {
            used = end;
        }
    }
    State {
        used,
        digit: 0,
        ..s
    }
}

// All bytes of a chunk.
#[tactic(auto, unfolding(crate::specs::Machine::fed))]
pub fn read_chunk(state: State, chunk: &[u8], run: &mut [u8], records: &mut [u64]) -> State
    ensures { held result run.new records.new ≡ fed chunk.now (held state run.old records.old) }
{
    let mut s = state;
    let mut rest = chunk;
    // Kept: the new form is no plainer: a turn takes one byte or as many as stand in pairs, which it finds itself and no iterator counts
    while let Some((b, behind)) = rest.split_first() {
        if stays(s, *b) {
            rest = behind;
            continue;
        }
        let n = 2 * pairs_in(s, rest);
        if 0 < n {
            s = take_pairs(s, &rest[..n], run);
            rest = &rest[n..];
        } else {
            s = step(s, *b, run, records);
            rest = behind;
        }
    }
    s
}

// Behind a sheet's last byte.
#[tactic(auto, unfolding(crate::specs::Machine::answer_of))]
pub fn finish(state: State) -> Result<Read, Refusal>
    ensures { result ≡ answer_of state }
{
    if state.phase == START {
        return Ok(Read {
            lines: state.lines,
            bytes: state.used,
        });
    }
    let line = room_for(LINES, state.lines) + 1;
    if state.phase == REFUSED {
        return Err(Refusal {
            number: state.refusal,
            line,
        });
    }
    Err(Refusal {
        number: Question::Line.number(),
        line,
    })
}
