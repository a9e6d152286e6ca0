// The functions of c_card under their C names, as Rust and C call them; `rt lib` makes the library. A slice passes as its pointer and its length.
// None requires anything of its caller. A granted call answers 0, a refused one the question's number; what a refused call was lent stays as it was.
#![tactic(auto)]

ghost use Rattle.std.specs.Prelude.{◌≡◌};
ghost use Rattle.c_card.specs.Faces.{leaves, read_leb128, write_leb128, is_utf8, rewrite_card};

use c_card::WriteAnswer;

// The number that the input begins with: 0, and its value and how many bytes it took stand in the answer's first two places; or the question's number.
#[unsafe(no_mangle)]
pub extern "C" fn sicklestar_read_leb128(input: &[u8], answer: &mut [u64]) -> u32
    ensures { leaves result answer.new ≡ read_leb128 input.now answer.old }
{
    c_card::sicklestar_read_leb128(input, answer)
}

// Writes the value to the front of the output.
#[unsafe(no_mangle)]
pub extern "C" fn sicklestar_leb128(value: u32, out: &mut [u8]) -> WriteAnswer
    ensures { leaves result out.new ≡ write_leb128 value out.old }
{
    c_card::sicklestar_leb128(value, out)
}

// Whether the name is UTF-8: 1 or 0.
#[unsafe(no_mangle)]
pub extern "C" fn sicklestar_utf8(name: &[u8]) -> u32
    ensures { result ≡ is_utf8 name.now }
{
    c_card::sicklestar_utf8(name)
}

// Reads a card, and writes it again to the front of the output: 0, or the question's number.
#[unsafe(no_mangle)]
pub extern "C" fn sicklestar_card(input: &[u8], out: &mut [u8]) -> u32
    ensures { leaves result out.new ≡ rewrite_card input.now out.old }
{
    c_card::sicklestar_card(input, out)
}
