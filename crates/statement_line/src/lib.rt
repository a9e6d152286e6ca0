// The S line of a statement, `S,contact,sent,acked,contiguous,beyond,queued,expired` with its LF, and how many numbers from `lowest` on
// ranges hold: of the ranges beyond contiguous all count, from 0 on; of expired ones those from peer_acked + 1 on, which needs 64 bits.
// A line is written whole to the front of the output, or not at all (question 40).
// The count is 2^64 - 1 where the ranges hold more than that, which 65,535 ranges, the most that a contact row has, never do.
// A range whose first number is above its last holds none, and a count of ranges above the lent pairs counts as the lent pairs.
#![tactic(auto)]

ghost use Rattle.std.specs.Prelude.{◌≡◌, ◌+◌, ◌-◌, ◌*◌, ◌^◌, ◌≤◌, ◌<◌, min, max};
ghost use Rattle.layout.specs.Write.{stored};
ghost use Rattle.layout.specs.Says.{leaves};
ghost use Rattle.numbers.specs.Sets.{size_from};
ghost use Rattle.received.specs.Lent.{pairs};
ghost use Rattle.store.specs.Line.{line_of};

use layout::Question;
use rows::ContactId;

pub const LETTER_S: u8 = 0x53;

// The numbers of an S line.
pub const FIELDS: usize = 7;

// Writes the line to the front of the output, if there is room.
pub fn statement_line(
    contact: ContactId,
    sent: u32,
    acked: u32,
    contiguous: u32,
    beyond: u64,
    queued: u64,
    expired: u64,
    out: &mut [u8],
) -> Result<usize, Question>
    ensures { leaves result out.new ≡ stored (line_of contact.0 sent acked contiguous beyond queued expired) out.old }
{
    let sent = u64::from(sent);
    let acked = u64::from(acked);
    let contiguous = u64::from(contiguous);
    let fields = [contact.0, sent, acked, contiguous, beyond, queued, expired];
    let len = 1 + ascii::fields_len(fields, FIELDS);
    if out.len() < len {
        return Err(Question::Output);
    }
    ascii::put_line(out, 0, LETTER_S, fields, FIELDS);
    Ok(len)
}

// How many numbers from `lowest` on a range holds.
pub fn size_from(from: u32, to: u32, lowest: u64) -> u64
    ensures { (result ≡ to + 1 - max from lowest) × (result ≤ 2 ^ 32) }
{
    let start = u64::from(from).max(lowest);
    let end = u64::from(to) + 1;
    end.saturating_sub(start)
}

// How many numbers from `lowest` on the first `count` ranges of a lent flat list, from, to, from, to, hold.
// Kept: no heap: the list is lent, longer than its count.
pub fn numbers_in(list: &[u32], count: usize, lowest: u64) -> u64
    ensures { (result ≡ min (size_from lowest (pairs count list.now)) (2 ^ 64 - 1)) × (count ≤ 65535 → result ≡ size_from lowest (pairs count list.now)) }
{
    let held = count.min(list.len() / 2);
    let mut sum: u64 = 0;
    for i in 0..held {
        let n = size_from(list[2 * i], list[2 * i + 1], lowest);
        sum = sum.saturating_add(n);
    }
    sum
}
