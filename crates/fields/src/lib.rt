// Fields of a row, each taken at a position: the value and the next position, or the question whose answer is no.
#![tactic(auto)]

ghost use Rattle.std.specs.Prelude.{◌≡◌, ℕ, ◌+◌, ◌^◌, ◌≤◌, ◌<◌, Result, length, drop};
ghost use Rattle.std.proofs.Math.Option.{Option};
ghost use Rattle.layout.specs.Questions.{CODE};
ghost use Rattle.layout.specs.declared.question.Question.{Question};
ghost use Rattle.layout.specs.Veil.{plain};
ghost use Rattle.layout.specs.Form.{big_endian, bytes, number, letter, u8, u16, u32, u64, flag};
ghost use Rattle.layout.specs.Field.{read_at};
ghost use Rattle.layout.specs.Says.{says, end_says};
ghost use Rattle.rows.specs.Answers.{named};
ghost use Rattle.rows.specs.Rows.{mode, role_of, role_byte, verification_of, verification_byte, dir_of, dir_byte};
ghost use Rattle.fields.specs.Says.{run_says, Ends};

use layout::Question;
use rows::{Dir, PairingRole, Verification};

// Where the n bytes at a position start, and where they end: the next position. Past the row's end there is nothing, which is enough for no bytes.
// Kept: what may not change: the public clauses speak of a row and a place in it (read_at); reader has both in a struct.
pub fn run_at(row: &[u8], at: usize, n: usize) -> Result<(usize, usize), Question>
    ensures { (run_says n row.now result ≡ read_at (bytes plain n) row.now at) × Ends n result }
{
    let start = at.min(row.len());
    if row.len() - start < n {
        return Err(Question::Field);
    }
    Ok((start, start + n))
}

// The number in bytes, the most significant first.
// Kept: the new form is no plainer: from_be_bytes wants an array, and here the width is a parameter; be32 would copy four bytes into one first.
fn big_endian(bytes: &[u8]) -> u64
    requires { length bytes.now ≤ 8 }
    ensures { result ≡ big_endian (length bytes.now) bytes.now }
{
    let mut n: u64 = 0;
    for byte in bytes {
        n = n * 256 + u64::from(*byte);
    }
    n
}

// The number in the four bytes at a position, written out for the loops over lists of a row.
pub fn be32(bytes: &[u8], at: usize) -> u64
    requires { at + 4 ≤ length bytes.now }
    ensures { (result ≡ big_endian 4 (drop at bytes.now)) × (result < 2 ^ 32) }
{
    let high = u64::from(bytes[at]) * 256 + u64::from(bytes[at + 1]);
    let low = u64::from(bytes[at + 2]) * 256 + u64::from(bytes[at + 3]);
    high * 65536 + low
}

// A number of w bytes.
fn number_at(row: &[u8], at: usize, w: usize) -> Result<(u64, usize), Question>
    requires { (1 ≤ w) × (w ≤ 8) }
    ensures { says result ≡ read_at (number w) row.now at }
{
    let (start, next) = run_at(row, at, w)?;
    Ok((big_endian(&row[start..next]), next))
}

pub fn byte_at(row: &[u8], at: usize) -> Result<(u8, usize), Question>
    ensures { says result ≡ read_at u8 row.now at }
{
    let byte = row.get(at).ok_or(Question::Field)?;
    Ok((*byte, at + 1))
}

// Kept: the new form is no plainer: this and `u32_at` share `number_at`, and differ only in the type that its number fits; `try_from` would need an answer for one that does not.
pub fn u16_at(row: &[u8], at: usize) -> Result<(u16, usize), Question>
    ensures { says result ≡ read_at u16 row.now at }
{
    let (n, next) = number_at(row, at, 2)?;
    Ok((n as u16, next))
}

pub fn u32_at(row: &[u8], at: usize) -> Result<(u32, usize), Question>
    ensures { says result ≡ read_at u32 row.now at }
{
    let (n, next) = number_at(row, at, 4)?;
    Ok((n as u32, next))
}

pub fn u64_at(row: &[u8], at: usize) -> Result<(u64, usize), Question>
    ensures { says result ≡ read_at u64 row.now at }
{
    number_at(row, at, 8)
}

pub fn flag_at(row: &[u8], at: usize) -> Result<(bool, usize), Question>
    ensures { says result ≡ read_at flag row.now at }
{
    let (byte, next) = byte_at(row, at)?;
    match byte {
        0 => Ok((false, next)),
        1 => Ok((true, next)),
        _ => Err(Question::Flag),
    }
}

// The mode is always the same, so there is only the next position.
pub fn mode_at(row: &[u8], at: usize) -> Result<usize, Question>
    ensures { end_says result ≡ read_at mode row.now at }
{
    let (byte, next) = byte_at(row, at)?;
    match byte {
        rows::MODE_TOFU => Ok(next),
        _ => Err(Question::Code),
    }
}

// ---- codes: a byte that a table names

// What a byte of a row stands for, by the table of its type.
pub trait Code: TryFrom<u8, Error = Question> {
    // What each byte stands for, and which byte stands for it.
    ghost of: { ℕ → Option Self };

    ghost to: { Self → ℕ };

    ghost by_table: { (byte : ℕ) (result : Result Self Question) → Self.try_from_gives byte result → result ≡ named (of byte) };
}

impl Code for PairingRole {
    ghost of = { role_of };

    ghost to = { role_byte };

    ghost by_table = { λ _ _ gives. gives };
}

impl Code for Verification {
    ghost of = { verification_of };

    ghost to = { verification_byte };

    ghost by_table = { λ _ _ gives. gives };
}

impl Code for Dir {
    ghost of = { dir_of };

    ghost to = { dir_byte };

    ghost by_table = { λ _ _ gives. gives };
}

pub fn code_at<C: Code>(row: &[u8], at: usize) -> Result<(C, usize), Question>
    ensures { says result ≡ read_at (letter CODE C.of C.to) row.now at }
{
    let (byte, next) = byte_at(row, at)?;
    Ok((C::try_from(byte)?, next))
}
