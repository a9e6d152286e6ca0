// The functions on rows and covered numbers that Rust and C call, under their C names. A slice passes as its pointer and its length.
// None requires anything of its caller. A granted call answers 0, a refused one the question's number; what a refused call was lent stays as it was.
#![tactic(auto)]

ghost use Rattle.std.specs.Prelude.{◌≡◌, ◌≤◌, length};
ghost use Rattle.layout.specs.Form.{flag_byte};
ghost use Rattle.layout.specs.Write.{wrote, writes};
ghost use Rattle.rows.specs.Rows.{device, queued, courier};
ghost use Rattle.numbers.specs.Ranges.{contains, covers};
ghost use Rattle.received.specs.Lent.{received_in};
ghost use Rattle.layout.specs.Layout.{accepted};
ghost use Rattle.c_card.specs.Faces.{leaves, shown, zero_or};
ghost use Rattle.c_rows.specs.Faces.{covered, answered, insert_range};

use layout::Question;
use received::{Change, Received, ReceivedMut};

// How many places of its answer a cover fills.
const PLACES: usize = 4;

// Reads a device row, and writes it again to the front of the output.
#[unsafe(no_mangle)]
pub extern "C" fn sicklestar_device(version: u32, row: &[u8], out: &mut [u8]) -> u32
    ensures { leaves result out.new ≡ shown zero_or (writes (device version) row.now out.old) }
{
    c_card::zero_or(rewrite::rewrite_device(version, row, out))
}

// Reads a queued row, and writes it again to the front of the output.
#[unsafe(no_mangle)]
pub extern "C" fn sicklestar_queued(version: u32, row: &[u8], out: &mut [u8]) -> u32
    ensures { leaves result out.new ≡ shown zero_or (writes (queued version) row.now out.old) }
{
    c_card::zero_or(rewrite::rewrite_queued(version, row, out))
}

// Reads a courier row, and writes it again to the front of the output.
#[unsafe(no_mangle)]
pub extern "C" fn sicklestar_courier(version: u32, row: &[u8], out: &mut [u8]) -> u32
    ensures { leaves result out.new ≡ shown zero_or (writes (courier version) row.now out.old) }
{
    c_card::zero_or(rewrite::rewrite_courier(version, row, out))
}

// Whether a number is covered: 1 or 0.
// Kept: the C interface passes contiguous, the list and the count by themselves
#[unsafe(no_mangle)]
pub extern "C" fn sicklestar_contains(
    contiguous: u32,
    above: &[u32],
    count: usize,
    msgno: u32,
) -> u32
    ensures { result ≡ flag_byte (contains (received_in contiguous count above.now) msgno) }
{
    let received = Received {
        contiguous,
        above,
        count,
    };
    u32::from(received.contains(msgno))
}

// Whether from..to is covered: 1 or 0.
// Kept: the C interface passes contiguous, the list and the count by themselves
#[unsafe(no_mangle)]
pub extern "C" fn sicklestar_covers(
    contiguous: u32,
    above: &[u32],
    count: usize,
    from: u32,
    to: u32,
) -> u32
    ensures { result ≡ flag_byte (covers (received_in contiguous count above.now) from to) }
{
    let received = Received {
        contiguous,
        above,
        count,
    };
    u32::from(received.covers(from, to))
}

// Writes contiguous, how many ranges lie above it, whether it moved (1 or 0), and how many numbers are new to the answer's first four places.
fn put_change(answer: &mut [u64], change: Change)
    requires { 4 ≤ length answer.old }
    ensures { record { answer = wrote 4; out = answer.exit.now } ≡ answered (accepted change) answer.entry.now }
{
    answer[0] = u64::from(change.contiguous);
    // Kept: the new form is no plainer: std has no From<usize> for u64, and try_from has an error that never comes
    answer[1] = change.count as u64;
    answer[2] = u64::from(change.moved);
    answer[3] = change.added;
}

// Covers from..to: 0, and the answer's first four places hold contiguous, how many ranges lie above it, whether it moved (1 or 0), and how many numbers are new;
// or the question's number.
// Kept: the C interface passes contiguous, the list and the count by themselves
#[unsafe(no_mangle)]
pub extern "C" fn sicklestar_insert(
    contiguous: u32,
    above: &mut [u32],
    count: usize,
    from: u32,
    to: u32,
    answer: &mut [u64],
) -> u32
    ensures { covered result above.new answer.new ≡ insert_range contiguous count from to above.old answer.old }
{
    // without room for the answer nothing is covered, and 38 is asked first
    if answer.len() < PLACES {
        let received = Received {
            contiguous,
            above,
            count,
        };
        return match received.plan(from, to) {
            Ok(_) => u32::from(Question::Output.number()),
            Err(refusal) => u32::from(refusal.number()),
        };
    }
    let received = ReceivedMut {
        contiguous,
        above,
        count,
    };
    match received.insert(from, to) {
        Ok(change) => {
            put_change(answer, change);
            0
        }
        Err(refusal) => u32::from(refusal.number()),
    }
}
