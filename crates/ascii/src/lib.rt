// Text in ASCII, read and written once for all: words between marks, decimals and lines of them, and bytes in hexadecimal.
#![tactic(auto)]

ghost use Rattle.std.specs.Prelude.{◌≡◌, ◌∷◌, true, suc, ◌+◌, ◌*◌, ◌/◌, ◌≤◌, ◌<◌, length, take, drop};
ghost use Rattle.layout.specs.Write.{stored};
ghost use Rattle.layout.specs.Says.{leaves};
ghost use Rattle.rows.specs.Checks.{all};
ghost use Rattle.numbers.specs.Decimal.{is_digit, decimal, fields_text};
ghost use Rattle.put.specs.Put.{Wrote};
ghost use Rattle.ascii.specs.Decimal.{decimal_in, with_digit, says_from};
ghost use Rattle.ascii.specs.Hex.{is_hex, hex_value, unpaired, hex_pairs, hex_digit, pairs_of, hex_of, dash_of, bytes_of, keeps};
ghost use Rattle.ascii.specs.Words.{SPACE, before, behind, parted, word_at, number_at};
ghost use Rattle.ascii.specs.Says.{decimal_says};
ghost use Rattle.numbers.specs.Decimal as decimals;

use layout::Question;

const LF: u8 = b'\n';

const COMMA: u8 = b',';

// ---- words: what stands before, between and behind the marks

// How many bytes stand before the first `stop`; all of them where there is none.
pub fn until(text: &[u8], stop: u8) -> usize
    ensures { (result ≡ length (before stop text.now)) × (result ≤ length text.now) }
{
    text.iter().position(|b| *b == stop).unwrap_or(text.len())
}

// The first field of a line.
pub fn field(line: &[u8]) -> &[u8]
    ensures { result.now ≡ before SPACE line.now }
{
    &line[..until(line, b' ')]
}

// What stands behind the first field of a line.
pub fn rest(line: &[u8]) -> &[u8]
    ensures { result.now ≡ behind SPACE line.now }
{
    &line[next_word(line, b' ', 0)..]
}

// The first n bytes; all of them where there are fewer.
pub fn first(bytes: &[u8], n: usize) -> &[u8]
    ensures { result.now ≡ take n bytes.now }
{
    &bytes[..n.min(bytes.len())]
}

// How many marks a text has: one less than words.
pub fn marks(text: &[u8], mark: u8) -> usize
    ensures { suc result ≡ length (parted mark text.now) }
{
    text.iter().filter(|b| **b == mark).count()
}

// Where the next word starts, the text's end where there is none.
fn next_word(text: &[u8], mark: u8, at: usize) -> usize
    requires { at ≤ length text.now }
    ensures { (result ≤ length text.now) × (drop result text.now ≡ behind mark (drop at text.now)) }
{
    let rest = &text[at..];
    let n = until(rest, mark);
    if n < rest.len() {
        return at + n + 1;
    }
    text.len()
}

fn start_of(text: &[u8], mark: u8, i: usize) -> usize
    ensures { (result ≤ length text.now) × (word_at mark i text.now ≡ before mark (drop result text.now)) }
{
    let mut at = 0;
    for _ in 0..i {
        at = next_word(text, mark, at);
    }
    at
}

// The i-th word, counted from 0; empty where there are fewer.
pub fn word(text: &[u8], mark: u8, i: usize) -> &[u8]
    ensures { result.now ≡ word_at mark i text.now }
{
    let at = start_of(text, mark, i);
    let rest = &text[at..];
    &rest[..until(rest, mark)]
}

// ---- decimals

fn is_digit(b: u8) -> bool
    ensures { result ≡ is_digit b }
{
    b.is_ascii_digit()
}

// A number with a digit behind it, if that is at most `highest`.
pub fn with_digit(n: u64, b: u8, highest: u64) -> Option<u64>
    ensures { decimal_says result ≡ with_digit highest n b }
{
    if !is_digit(b) {
        return None;
    }
    let d = u64::from(b - b'0');
    if highest < d || (highest - d) / 10 < n {
        return None;
    }
    Some(n * 10 + d)
}

// Nothing stands behind a first 0.
fn digits(rest: &[u8], first: u64, highest: u64) -> Option<u64>
    ensures { decimal_says result ≡ says_from highest first rest.now }
{
    let mut n = first;
    for b in rest {
        if n == 0 {
            return None;
        }
        n = with_digit(n, *b, highest)?;
    }
    Some(n)
}

// The number that a text says, if it is a decimal and at most `highest`.
// Kept: the new form is no plainer: std's parse takes a first 0 and a sign, and prints to a String: no heap, and the clause says each byte.
pub fn decimal(text: &[u8], highest: u64) -> Option<u64>
    ensures { decimal_says result ≡ decimal_in highest text.now }
{
    let [first, rest @ ..] = text else {
        return None;
    };
    let n = with_digit(0, *first, highest)?;
    digits(rest, n, highest)
}

// The number that the i-th word says, 0 where it is none.
pub fn number(text: &[u8], mark: u8, i: usize) -> u64
    ensures { result ≡ number_at mark i text.now }
{
    decimal(word(text, mark, i), u64::MAX).unwrap_or(0)
}

// ---- hexadecimal, read

pub fn is_hex(b: u8) -> bool
    ensures { result ≡ is_hex b }
{
    is_digit(b) || (b'a' <= b && b <= b'f')
}

// What a digit says; of another byte, anything. Without a branch, which random digits would mislead: the letters' last four bits are 1 to 6,
// and a letter has the bit of 64.
pub fn hex_value(b: u8) -> u8
    ensures { is_hex b ≡ true → (result ≡ hex_value b) × (result < 16) }
{
    b % 16 + b / 64 * 9
}

fn all_hex(text: &[u8]) -> bool
    ensures { result ≡ all is_hex text.now }
{
    text.iter().all(|b| is_hex(*b))
}

// How many pairs of digits stand in front.
pub fn hex_pairs(text: &[u8]) -> usize
    ensures { result ≡ hex_pairs text.now }
{
    let (pairs, _) = text.as_chunks::<2>();
    pairs
        .iter()
        .take_while(|[a, b]| is_hex(*a) && is_hex(*b))
        .count()
}

// Stores the bytes that pairs of digits are from a position on, and answers the position behind them. A part of readers, which see to the digits and the room.
pub fn put_bytes(text: &[u8], out: &mut [u8], at: usize) -> usize
    requires { (all is_hex text.now ≡ true) × (at + length text.now / 2 ≤ length out.old) }
    ensures { (result ≡ at + length text.now / 2) × Wrote out.old at (unpaired text.now) out.new result }
{
    let (pairs, _) = text.as_chunks::<2>();
    for (i, [a, b]) in pairs.iter().enumerate() {
        out[at + i] = hex_value(*a) * 16 + hex_value(*b);
    }
    at + pairs.len()
}

// Whether the text is `-`, which stands for no bytes.
pub fn is_dash(text: &[u8]) -> bool
    ensures { result ≡ dash_of text.now }
{
    text.len() == 1 && text[0] == b'-'
}

// Stores the bytes that a field is, at the front of the output; a field that is no bytes is refused as a blob is.
pub fn bytes(text: &[u8], out: &mut [u8]) -> Result<usize, Question>
    ensures { leaves result out.new ≡ keeps (bytes_of text.now) out.old }
{
    if is_dash(text) {
        return Ok(0);
    }
    if text.len() == 0 || text.len() % 2 == 1 || !all_hex(text) {
        return Err(Question::Blob);
    }
    if out.len() < text.len() / 2 {
        return Err(Question::Output);
    }
    Ok(put_bytes(text, out, 0))
}

// ---- hexadecimal, written

fn hex_digit(d: u8) -> u8
    requires { d < 16 }
    ensures { result ≡ hex_digit d }
{
    if d < 10 { b'0' + d } else { b'a' + (d - 10) }
}

// Writes the digits from a position on, and answers the position behind them. A part of writers, which see to the room.
pub fn put_pairs(out: &mut [u8], at: usize, bytes: &[u8]) -> usize
    requires { at + 2 * length bytes.now ≤ length out.old }
    ensures { (result ≡ at + 2 * length bytes.now) × Wrote out.old at (pairs_of bytes.now) out.new result }
{
    for (i, b) in bytes.iter().enumerate() {
        out[at + 2 * i] = hex_digit(*b / 16);
        out[at + 2 * i + 1] = hex_digit(*b % 16);
    }
    at + 2 * bytes.len()
}

// Writes the bytes' text to the front of the output, if there is room.
pub fn hex(bytes: &[u8], out: &mut [u8]) -> Result<usize, Question>
    ensures { leaves result out.new ≡ stored (hex_of bytes.now) out.old }
{
    if bytes.len() == 0 {
        if out.len() == 0 {
            return Err(Question::Output);
        }
        out[0] = b'-';
        return Ok(1);
    }
    if out.len() / 2 < bytes.len() {
        return Err(Question::Output);
    }
    Ok(put_pairs(out, 0, bytes))
}

// ---- decimals and lines of numbers written; no decimal has a leading zero but 0 itself

// How many digits a number has.
pub fn decimal_len(n: u64) -> usize
    ensures { (result ≡ length (decimal n)) × (result ≤ 20) }
{
    // Kept: the new form is no plainer: std has no From<u32> for usize, and try_from has an error that never comes
    n.max(1).ilog10() as usize + 1
}

// Writes a number from a position on, its last digit first, and answers the position behind it. A part of writers, which see to the room (`decimal_len`).
pub fn put_decimal(out: &mut [u8], at: usize, n: u64) -> usize
    requires { at + length (decimal n) ≤ length out.old }
    ensures { (result ≡ at + length (decimal n)) × Wrote out.old at (decimal n) out.new result }
{
    let digits = decimal_len(n);
    let mut rest = n;
    for i in (0..digits).rev() {
        // Kept: the new form is no plainer: a digit fits a byte, and u8::try_from would ask for an answer that is never given
        out[at + i] = b'0' + (rest % 10) as u8;
        rest /= 10;
    }
    at + digits
}

// A comma and a number.
fn put_field(out: &mut [u8], at: usize, n: u64) -> usize
    requires { at + (1 + length (decimal n)) ≤ length out.old }
    ensures { (result ≡ at + (1 + length (decimal n))) × Wrote out.old at (decimals.COMMA ∷ decimal n) out.new result }
{
    let number_at = put::put_byte(out, at, COMMA);
    put_decimal(out, number_at, n)
}

// The length of the first `count` numbers, a comma before each, and LF.
// Kept: what may not change: the clause promises at most 148 bytes, since there are seven numbers at most, which the array says.
pub fn fields_len(fields: [u64; 7], count: usize) -> usize
    requires { count ≤ 7 }
    ensures { (result ≡ length (fields_text (take count fields))) × (result ≤ 148) }
{
    let mut len = 1;
    for n in &fields[..count] {
        len += 1 + decimal_len(*n);
    }
    len
}

// The first `count` numbers, a comma before each, and LF.
fn put_fields(out: &mut [u8], at: usize, fields: [u64; 7], count: usize) -> usize
    requires { (count ≤ 7) × (at + length (fields_text (take count fields)) ≤ length out.old) }
    ensures { (result ≡ at + length (fields_text (take count fields))) × Wrote out.old at (fields_text (take count fields)) out.new result }
{
    let mut here = at;
    for n in &fields[..count] {
        here = put_field(out, here, *n);
    }
    put::put_byte(out, here, LF)
}

// Writes a letter and the first `count` numbers from a position on, and answers the position behind them. A part of writers, which see to the room (`fields_len`).
pub fn put_line(out: &mut [u8], at: usize, letter: u8, fields: [u64; 7], count: usize) -> usize
    requires { (count ≤ 7) × (at + (1 + length (fields_text (take count fields))) ≤ length out.old) }
    ensures { (result ≡ at + (1 + length (fields_text (take count fields)))) × Wrote out.old at (letter ∷ fields_text (take count fields)) out.new result }
{
    let fields_at = put::put_byte(out, at, letter);
    put_fields(out, fields_at, fields, count)
}
