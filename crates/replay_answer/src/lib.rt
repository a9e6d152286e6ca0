// The lines that `replay` prints: `= `, a text, LF. Each is written to the front of the output, if there is room for all of it.
#![tactic(auto)]

ghost use Rattle.std.specs.Prelude.{◌≡◌, [], ◌∷◌, ◌++◌, ◌+◌, ◌-◌, ◌*◌, ◌≤◌, ◌<◌, length, leb};
ghost use Rattle.layout.specs.Write.{stored};
ghost use Rattle.layout.specs.Says.{leaves};
ghost use Rattle.put.specs.Put.{Wrote};
ghost use Rattle.numbers.specs.Ranges.{range};
ghost use Rattle.received.specs.Lent.{pairs, ranges_of};
ghost use Rattle.numbers.specs.Decimal.{decimal};
ghost use Rattle.ascii.specs.Hex.{hex_of};
ghost use Rattle.replay_answer.specs.Transcript.{line_of, truth_text, added_text, place_text, answer_text, range_text, listed, ranges_text, state_text};
ghost use Rattle.ascii.specs.Words as texts;
ghost use Rattle.replay_answer.specs.Transcript as transcript;

use calls_code::{ADVANCED, NO, NUMBER, SAID, TRUTH, WROTE, YES};
use layout::Question;
use rows::ContactId;

const EQUALS: u8 = b'=';

const SPACE: u8 = b' ';

const LF: u8 = b'\n';

const DASH: u8 = b'-';

const SEMICOLON: u8 = b';';

// How many bytes stand around a text.
const AROUND: usize = 3;

fn begin(out: &mut [u8]) -> usize
    requires { 3 ≤ length out.old }
    ensures { (result ≡ 2) × Wrote out.old 0 (transcript.EQUALS ∷ texts.SPACE ∷ []) out.new result }
{
    let at = put::put_byte(out, 0, EQUALS);
    put::put_byte(out, at, SPACE)
}

pub fn text_line(text: &[u8], out: &mut [u8]) -> Result<usize, Question>
    ensures { leaves result out.new ≡ stored (line_of text.now) out.old }
{
    if out.len() < AROUND {
        return Err(Question::Output);
    }
    if out.len() - AROUND < text.len() {
        return Err(Question::Output);
    }
    let at = begin(out);
    let end = put::put_run(out, at, text, 0, text.len());
    Ok(put::put_byte(out, end, LF))
}

// A word and a number behind it.
pub fn number_line(word: &[u8], n: u64, out: &mut [u8]) -> Result<usize, Question>
    ensures { leaves result out.new ≡ stored (line_of (word.now ++ decimal n)) out.old }
{
    let fixed = ascii::decimal_len(n) + AROUND;
    if out.len() < fixed {
        return Err(Question::Output);
    }
    if out.len() - fixed < word.len() {
        return Err(Question::Output);
    }
    let at = begin(out);
    let number_at = put::put_run(out, at, word, 0, word.len());
    let end = ascii::put_decimal(out, number_at, n);
    Ok(put::put_byte(out, end, LF))
}

// A refusal with its place.
pub fn place_line(number: u64, place: u64, out: &mut [u8]) -> Result<usize, Question>
    ensures { leaves result out.new ≡ stored (line_of (place_text number place)) out.old }
{
    let len = ascii::decimal_len(number) + ascii::decimal_len(place) + 4 + AROUND;
    if out.len() < len {
        return Err(Question::Output);
    }
    let at = begin(out);
    let number_at = put::put_run(out, at, b"no ", 0, 3);
    let space_at = ascii::put_decimal(out, number_at, number);
    let place_at = put::put_byte(out, space_at, SPACE);
    let end = ascii::put_decimal(out, place_at, place);
    Ok(put::put_byte(out, end, LF))
}

// Bytes in hexadecimal.
pub fn hex_line(bytes: &[u8], out: &mut [u8]) -> Result<usize, Question>
    ensures { leaves result out.new ≡ stored (line_of (hex_of bytes.now)) out.old }
{
    if bytes.len() == 0 {
        return text_line(b"-", out);
    }
    if out.len() < AROUND {
        return Err(Question::Output);
    }
    if (out.len() - AROUND) / 2 < bytes.len() {
        return Err(Question::Output);
    }
    let at = begin(out);
    let end = ascii::put_pairs(out, at, bytes);
    Ok(put::put_byte(out, end, LF))
}

// A truth as a number: 0 is false.
fn truth_line(a: u64, out: &mut [u8]) -> Result<usize, Question>
    ensures { leaves result out.new ≡ stored (line_of (truth_text a)) out.old }
{
    if a == 0 {
        return text_line(b"false", out);
    }
    text_line(b"true", out)
}

// The answer of a cover: a truth as a number, and how many numbers are new.
fn added_line(a: u64, added: u64, out: &mut [u8]) -> Result<usize, Question>
    ensures { leaves result out.new ≡ stored (line_of (added_text a added)) out.old }
{
    if a == 0 {
        return number_line(b"false ", added, out);
    }
    number_line(b"true ", added, out)
}

// The line of a call's answer: its tag and two numbers. What the call wrote stands at the front of the bytes.
pub fn answer_line(
    tag: u64,
    a: u64,
    b: u64,
    bytes: &[u8],
    out: &mut [u8],
) -> Result<usize, Question>
    ensures { leaves result out.new ≡ stored (line_of (answer_text tag a b bytes.now)) out.old }
{
    // Kept: the new form is no plainer: std has no From from u64 to usize, which has 64 bits too; a value of a that is no length is not looked at.
    let n = a as usize;
    // Kept: a tag is a number of a lent list, and each number has an answer (answer_text).
    match tag {
        YES => text_line(b"yes", out),
        ADVANCED => added_line(a, b, out),
        TRUTH => truth_line(a, out),
        NUMBER => number_line(b"", a, out),
        WROTE => hex_line(ascii::first(bytes, n), out),
        SAID => text_line(ascii::first(bytes, n.saturating_sub(1)), out),
        NO => number_line(b"no ", a, out),
        _ => place_line(a, b, out),
    }
}

// ---- the state of an open contact

// The length of a range and the mark before it.
fn range_len(from: u64, to: u64) -> usize
    ensures { (result ≡ length (texts.SPACE ∷ range_text (range from to))) × (result ≤ 42) }
{
    ascii::decimal_len(from) + ascii::decimal_len(to) + 2
}

// Whether there is room for the text of some ranges, each its from and its to.
fn listed_fit(ranges: &[[u32; 2]], room: usize) -> bool
    ensures { result ≡ leb (length (listed texts.SPACE (ranges_of ranges.now))) room }
{
    let mut left = room;
    for [from, to] in ranges {
        let n = range_len(u64::from(*from), u64::from(*to));
        if left < n {
            return false;
        }
        left -= n;
    }
    true
}

fn ranges_fit(ranges: &[[u32; 2]], room: usize) -> bool
    ensures { result ≡ leb (length (ranges_text (ranges_of ranges.now))) room }
{
    if ranges.is_empty() {
        return 2 <= room;
    }
    listed_fit(ranges, room)
}

fn put_range(out: &mut [u8], at: usize, mark: u8, from: u64, to: u64) -> usize
    requires { at + length (mark ∷ range_text (range from to)) ≤ length out.old }
    ensures { (result ≡ at + length (mark ∷ range_text (range from to))) × Wrote out.old at (mark ∷ range_text (range from to)) out.new result }
{
    let from_at = put::put_byte(out, at, mark);
    let dash_at = ascii::put_decimal(out, from_at, from);
    let to_at = put::put_byte(out, dash_at, DASH);
    ascii::put_decimal(out, to_at, to)
}

fn put_listed(out: &mut [u8], at: usize, ranges: &[[u32; 2]]) -> usize
    requires { at + length (listed texts.SPACE (ranges_of ranges.now)) ≤ length out.old }
    ensures { (result ≡ at + length (listed texts.SPACE (ranges_of ranges.now))) × Wrote out.old at (listed texts.SPACE (ranges_of ranges.now)) out.new result }
{
    let mut mark = SPACE;
    let mut here = at;
    for [from, to] in ranges {
        here = put_range(out, here, mark, u64::from(*from), u64::from(*to));
        mark = SEMICOLON;
    }
    here
}

fn put_ranges(out: &mut [u8], at: usize, ranges: &[[u32; 2]]) -> usize
    requires { at + length (ranges_text (ranges_of ranges.now)) ≤ length out.old }
    ensures { (result ≡ at + length (ranges_text (ranges_of ranges.now))) × Wrote out.old at (ranges_text (ranges_of ranges.now)) out.new result }
{
    if ranges.is_empty() {
        return put::put_run(out, at, b" -", 0, 2);
    }
    put_listed(out, at, ranges)
}

// The line with these ranges, where there is room for it.
fn write_state(
    id: ContactId,
    row: &[u8],
    ranges: &[[u32; 2]],
    out: &mut [u8],
) -> Result<usize, Question>
    requires { length (state_text id.0 row.now (ranges_of ranges.now)) + 3 ≤ length out.old }
    ensures { leaves result out.new ≡ stored (line_of (state_text id.0 row.now (ranges_of ranges.now))) out.old }
{
    let at = begin(out);
    let space_at = ascii::put_decimal(out, at, id.0);
    let row_at = put::put_byte(out, space_at, SPACE);
    let ranges_at = ascii::put_pairs(out, row_at, row);
    let end = put_ranges(out, ranges_at, ranges);
    Ok(put::put_byte(out, end, LF))
}

fn opened_line(
    id: ContactId,
    row: &[u8],
    ranges: &[[u32; 2]],
    out: &mut [u8],
) -> Result<usize, Question>
    ensures { leaves result out.new ≡ stored (line_of (state_text id.0 row.now (ranges_of ranges.now))) out.old }
{
    let fixed = ascii::decimal_len(id.0) + 1 + AROUND;
    if out.len() < fixed {
        return Err(Question::Output);
    }
    let room = out.len() - fixed;
    if room / 2 < row.len() {
        return Err(Question::Output);
    }
    if ranges_fit(ranges, room - 2 * row.len()) {
        return write_state(id, row, ranges, out);
    }
    Err(Question::Output)
}

// The line of `state` where a contact is open: its id, its row, and so many pairs of the list above contiguous, or as many as there are.
pub fn state_line(
    id: ContactId,
    row: &[u8],
    above: &[u32],
    count: usize,
    out: &mut [u8],
) -> Result<usize, Question>
    ensures { leaves result out.new ≡ stored (line_of (state_text id.0 row.now (pairs count above.now))) out.old }
{
    // Kept: no heap: the list is lent, longer than its count.
    let (lent, _) = above.as_chunks::<2>();
    let ranges = &lent[..count.min(above.len() / 2)];
    opened_line(id, row, ranges, out)
}
