// What Rust and C call under these names, by c_card_c; and what the answers of the other faces have in common.
// None requires anything of its caller. A granted call answers 0, a refused one the question's number; what a refused call was lent stays as it was.
#![tactic(auto)]

ghost use Rattle.std.specs.Prelude.{◌≡◌};
ghost use Rattle.layout.specs.Says.{written_by, written_says};
ghost use Rattle.c_card.specs.Faces.{leaves, zero_or, length_or, read_leb128, write_leb128, is_utf8, rewrite_card};

use card::Card;
use layout::{Numbered, Question};

// Granted: number is 0, and length is how many bytes were written. Refused: number is the question's, and length is 0.
#[repr(C)]
#[derive(Clone, Copy)]
pub struct WriteAnswer {
    pub length: usize,
    pub number: u32,
}

// Kept: the C interface answers a length and a number where Rust has a Result
fn length_or(written: Result<usize, Question>) -> WriteAnswer
    ensures { result ≡ length_or (written_says written) }
{
    match written {
        Ok(length) => WriteAnswer { length, number: 0 },
        Err(refusal) => WriteAnswer {
            length: 0,
            number: u32::from(refusal.number()),
        },
    }
}

// 0 where the call was granted, the question's number otherwise: what other crates' faces answer too.
// Kept: the C interface answers a number where Rust has a Result
pub fn zero_or<R: Numbered>(written: Result<usize, R>) -> u32
    ensures { result ≡ zero_or (written_by R.number written) }
{
    match written {
        Ok(_) => 0,
        Err(question) => u32::from(question.number()),
    }
}

// The number that the input begins with: 0, and its value and how many bytes it took stand in the answer's first two places; or the question's number.
pub fn sicklestar_read_leb128(input: &[u8], answer: &mut [u64]) -> u32
    ensures { leaves result answer.new ≡ read_leb128 input.now answer.old }
{
    match data::read_leb128(input) {
        Ok((value, taken)) => {
            if answer.len() < 2 {
                return u32::from(Question::Output.number());
            }
            answer[0] = u64::from(value);
            // Kept: the new form is no plainer: std has no From<usize> for u64, and try_from has an error that never comes
            answer[1] = taken as u64;
            0
        }
        Err(refusal) => u32::from(refusal.number()),
    }
}

// Writes the value to the front of the output.
pub fn sicklestar_leb128(value: u32, out: &mut [u8]) -> WriteAnswer
    ensures { leaves result out.new ≡ write_leb128 value out.old }
{
    length_or(data::leb128(value, out))
}

// Whether the name is UTF-8: 1 or 0.
pub fn sicklestar_utf8(name: &[u8]) -> u32
    ensures { result ≡ is_utf8 name.now }
{
    // Kept: the C interface answers 1 or 0 where Rust has a bool.
    if utf8::is_utf8(name) { 1 } else { 0 }
}

// Reads a card, and writes it again to the front of the output: 0, or the question's number.
pub fn sicklestar_card(input: &[u8], out: &mut [u8]) -> u32
    ensures { leaves result out.new ≡ rewrite_card input.now out.old }
{
    match Card::decode(input) {
        Ok(card) => zero_or(card.encode(out)),
        Err(refusal) => u32::from(refusal.number()),
    }
}
