// What a queued row is asked about, taken from the row of its contact once that row is known to be accepted. Card, skipped keys and ranges are stepped over by
// their lengths; chains are read one by one, since each has a flag. Neither the card's questions nor 54 and 17 to 24 are asked again.
#![tactic(auto)]

ghost use Rattle.layout.specs.Layout.{group};
ghost use Rattle.contact_parts.specs.Parts.{paired, chained};
ghost use Rattle.contact_known.specs.Known.{EndsAt, EndsBehindFlag, UnackedAt, SentIfKnown, Sent};

use contact_lists::{ListAt, SKIPPED_BYTES};
use layout::Question;

// Where the card's length stands: behind role, mode, verification, pair_id, th and nonce_b.
const CARD_AT: usize = 83;

// How many bytes the keys of a pending Resume and a send chain have.
const PENDING_BYTES: usize = 64;

const SEND_BYTES: usize = 38;

// How many bytes peer_acked, peer_read, read_marked and contiguous have.
const NUMBERS_BYTES: usize = 16;

// The last number sent, and where the numbers that are not acknowledged stand in the row.
#[derive(Clone, Copy)]
pub struct SentAt {
    pub unacked: ListAt,
    pub sent_msgno: u32,
}

// Where the fields up to the card end.
fn paired_end(row: &[u8]) -> Result<usize, Question>
    ensures { EndsAt (group paired) row.now 0 result }
{
    let (len, start) = fields::u16_at(row, CARD_AT)?;
    let (_card, end) = fields::run_at(row, start, usize::from(len))?;
    Ok(end)
}

// Where n bytes end that stand behind a flag of 1; behind the flag where it is 0.
fn behind_flag(row: &[u8], at: usize, n: usize) -> Result<usize, Question>
    ensures { EndsBehindFlag n row.now at result }
{
    let (present, start) = fields::flag_at(row, at)?;
    if !present {
        return Ok(start);
    }
    let (_start, behind) = fields::run_at(row, start, n)?;
    Ok(behind)
}

// Where the fields from pending to skipped end.
fn chained_end(row: &[u8], at: usize) -> Result<usize, Question>
    ensures { EndsAt (group chained) row.now at result }
{
    let send = behind_flag(row, at, PENDING_BYTES)?;
    let chains_at = behind_flag(row, send, SEND_BYTES)?;
    let chains = contact_lists::chains_at(row, chains_at)?;
    let (count, first) = fields::u16_at(row, chains.next)?;
    let (_skipped, end) = fields::run_at(row, first, SKIPPED_BYTES * usize::from(count))?;
    Ok(end)
}

// Where the unacked numbers stand, in a row whose fields from peer_acked on start at a position.
fn unacked_at(row: &[u8], at: usize) -> Result<ListAt, Question>
    ensures { UnackedAt row.now at result }
{
    let (_numbers, above_at) = fields::run_at(row, at, NUMBERS_BYTES)?;
    let above = contact_lists::ranges_at(row, above_at)?;
    contact_lists::numbers_at(row, above.next)
}

// What a queued row is asked about, as far as the row can be stepped over.
fn sent_if_known(row: &[u8]) -> Result<SentAt, Question>
    ensures { SentIfKnown row.now result }
{
    let keys_at = paired_end(row)?;
    let (keys, behind_keys) = contact_parts::keys_at(row, keys_at)?;
    let numbers_at = chained_end(row, behind_keys)?;
    let unacked = unacked_at(row, numbers_at)?;
    Ok(SentAt {
        unacked,
        sent_msgno: keys.sent_msgno,
    })
}

// The same of a row that some version's questions accept; of any other row nothing is said.
pub fn sent_in(row: &[u8]) -> SentAt
    ensures { Sent row.now result }
{
    let unknown = SentAt {
        unacked: ListAt {
            first: 0,
            next: 0,
            count: 0,
        },
        sent_msgno: 0,
    };
    sent_if_known(row).unwrap_or(unknown)
}
