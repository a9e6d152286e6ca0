// Unsigned LEB128 of a number of 32 bits, seven bits to a byte and the lowest first: read at a position of a row, and written.
// As in the Rust, but the reader says why it refuses, and the writer stores into a lent buffer.
#![tactic(auto)]

ghost use Rattle.std.specs.Prelude.{◌≡◌, ◌+◌, ◌≤◌, length};
ghost use Rattle.layout.specs.Form.{leb128, leb_print};
ghost use Rattle.layout.specs.Field.{read_at};
ghost use Rattle.layout.specs.Write.{stored};
ghost use Rattle.layout.specs.Says.{says, leaves};
ghost use Rattle.put.specs.Put.{Wrote};

use layout::Question;

// The number at a position: five bytes at most, of which the fifth is at most 0x0f, and no zero comes last behind others.
pub fn leb128_at(row: &[u8], at: usize) -> Result<(u32, usize), Question>
    ensures { says result ≡ read_at leb128 row.now at }
{
    let start = at.min(row.len());
    let bytes = &row[start..];
    let mut value: u32 = 0;
    let mut scale: u32 = 1;
    for (i, byte) in bytes.iter().enumerate() {
        if (i == 4 && 0x0f < *byte) || (0 < i && *byte == 0) {
            return Err(Question::Leb128);
        }
        value += u32::from(*byte % 128) * scale;
        if *byte < 0x80 {
            return Ok((value, start + i + 1));
        }
        scale *= 128;
    }
    Err(Question::Field)
}

// The number that an input begins with; the next position is its length.
pub fn read_leb128(input: &[u8]) -> Result<(u32, usize), Question>
    ensures { says result ≡ read_at leb128 input.now 0 }
{
    leb128_at(input, 0)
}

// How many bytes `leb128` writes.
pub fn leb128_len(value: u32) -> usize
    ensures { result ≡ length (leb_print 4 value) }
{
    let mut rest = value;
    let mut n: usize = 1;
    // Kept: the new form is no plainer: these are put_leb128's turns below, counted, as in the Rust; ilog2 / 7 + 1 would hide that.
    while rest >= 0x80 {
        rest /= 128;
        n += 1;
    }
    n
}

// Writes a number from a position on, and answers the position behind it. A part of writers, which see to the room before their first store: so it requires the room (`leb128_len`).
pub fn put_leb128(value: u32, out: &mut [u8], at: usize) -> usize
    requires { at + length (leb_print 4 value) ≤ length out.old }
    ensures { (result ≡ at + length (leb_print 4 value)) × Wrote out.old at (leb_print 4 value) out.new result }
{
    let mut rest = value;
    let mut here = at;
    // Kept: the new form is no plainer: a turn goes by what is left of the number, as in the Rust; `try_from` would need an answer for bytes above 255, and there are none.
    while rest >= 0x80 {
        here = put::put_byte(out, here, (rest % 128 + 128) as u8);
        rest /= 128;
    }
    put::put_byte(out, here, rest as u8)
}

// Writes a number to the front of the output, if there is room.
// Kept: the new form is no plainer: the outline of a row's writer, of a number that is no row.
pub fn leb128(value: u32, out: &mut [u8]) -> Result<usize, Question>
    ensures { leaves result out.new ≡ stored (leb_print 4 value) out.old }
{
    let n = leb128_len(value);
    if out.len() < n {
        return Err(Question::Output);
    }
    put_leb128(value, out, 0);
    Ok(n)
}
