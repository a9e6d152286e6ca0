// Contact rows written, as `row` of state.rs writes them: from a struct and five lent lists. A writer asks 36, then what reading the row would ask, then 40.
#![tactic(auto)]

ghost use Rattle.std.specs.Prelude.{◌≡◌, [], ◌+◌, ◌*◌, ◌/◌, ◌^◌, ◌≤◌, ◌<◌, take};
ghost use Rattle.layout.specs.Says.{written_says, leaves};
ghost use Rattle.received.specs.Lent.{pairs};
ghost use Rattle.contact_lent.specs.Lent.{chains_of, skipped_of};
ghost use Rattle.contact.specs.Consistent.{chains_refusal, numbers_refusal, inconsistency, refusal_in};
ghost use Rattle.contact.specs.Contact.{lists, read_in, lengths_of, counts_of};
ghost use Rattle.numbers.specs.Lists.{within, counted};
ghost use Rattle.contact_image.specs.Row.{ChainsLent, NumbersLent, contact_in, asked_contact, writes_contact};
ghost use Rattle.contact_row.specs.Sizes.{send_size, row_size};

use contact::{Contact, ListsRef, SendChain};
use layout::Question;

// The most items that a count of a row says.
const MAX_COUNT: usize = 65_535;

// Question 36 of one list, which holds so many items.
fn within(count: usize, items: usize) -> bool
    ensures { result ≡ within count items }
{
    count <= items && count <= MAX_COUNT
}

// Question 36, of all five lists.
fn counts_fit(contact: Contact, lists: ListsRef<'_>) -> bool
    ensures { result ≡ counted (counts_of contact) (lengths_of (read_in lists.entry)) }
{
    within(
        contact.chains,
        lists.chains.len() / contact_lent::CHAIN_PLACE,
    ) && within(
        contact.skipped,
        lists.skipped.len() / contact_lent::SKIPPED_PLACE,
    ) && within(contact.above, lists.above.len() / 2)
        && within(contact.unacked, lists.unacked.len())
        && within(contact.expired, lists.expired.len() / 2)
}

// Questions 54 and 17 to 20, of lent chains and skipped keys that no question refused.
// Kept: the new form is no plainer: contact asks this, and numbers_consistent, of the places of a row, and here they are asked of lent lists; a trait over both would have a method for each question and hold nothing else.
fn chains_consistent(contact: Contact, chains: &[u8], skipped: &[u8]) -> Result<(), Question>
    requires { ChainsLent contact (lists chains.now skipped.now [] [] []) }
    ensures { refusal_in result ≡ chains_refusal (chains_of contact.chains chains.now) (skipped_of contact.skipped skipped.now) }
{
    if rows::MAX_CHAINS < contact.chains {
        return Err(Question::ChainsCount);
    }
    let asked = contact_checks::chains_lent(chains, contact.chains);
    if !asked.one_current {
        return Err(Question::ChainsCurrent);
    }
    if !asked.gens_distinct {
        return Err(Question::ChainsGens);
    }
    if !contact_checks::skipped_distinct(skipped, 0, contact.skipped) {
        return Err(Question::SkippedKeys);
    }
    if rows::MAX_SKIPPED < contact.skipped {
        return Err(Question::SkippedCount);
    }
    Ok(())
}

// Questions 21 to 24, of lent numbers.
fn numbers_consistent(contact: Contact, lists: ListsRef<'_>) -> Result<(), Question>
    requires { NumbersLent contact (read_in lists) }
    ensures { refusal_in result ≡ numbers_refusal contact.sent_msgno contact.peer_acked contact.contiguous
        (pairs contact.above lists.entry.above.now) (take contact.unacked lists.entry.unacked.now) (pairs contact.expired lists.entry.expired.now) }
{
    contact_image::lists_typed(lists);
    let sent = contact.sent_msgno;
    if sent < contact.peer_acked {
        return Err(Question::PeerAcked);
    }
    if !contact_checks::rising_lent(lists.unacked, contact.unacked, sent) {
        return Err(Question::Unacked);
    }
    let from = u64::from(contact.contiguous) + 2;
    if !contact_checks::canonical_lent(lists.above, contact.above, from, u32::MAX) {
        return Err(Question::Above);
    }
    if !contact_checks::canonical_lent(lists.expired, contact.expired, 1, sent) {
        return Err(Question::Expired);
    }
    Ok(())
}

// The bytes of the send chain, and its flag.
fn send_size(send: Option<SendChain>) -> usize
    ensures { (result ≡ send_size send) × (result ≤ 39) }
{
    if send.is_some() { 39 } else { 1 }
}

// The row's length, from those of its card, its chains and its skipped keys.
fn row_size(contact: Contact, card: usize, chains: usize, skipped: usize) -> usize
    requires { (card < 256 ^ 2) × (chains < 2 ^ 32) × (skipped < 2 ^ 32) × (contact.above ≤ 65535) × (contact.unacked ≤ 65535) × (contact.expired ≤ 65535) }
    ensures { result ≡ row_size contact card chains skipped }
{
    let fixed = 251 + card + chains + skipped + send_size(contact.send);
    let numbers = 8 * contact.above + 4 * contact.unacked + 8 * contact.expired;
    if contact.pending {
        return fixed + 65 + numbers;
    }
    fixed + 1 + numbers
}

// 54 and 17 to 24.
fn consistent_lent(contact: Contact, lists: ListsRef<'_>) -> Result<(), Question>
    requires { ChainsLent contact (read_in lists) × NumbersLent contact (read_in lists) }
    ensures { refusal_in result ≡ inconsistency (contact_in contact (read_in lists.entry)) }
{
    chains_consistent(contact, lists.chains, lists.skipped)?;
    numbers_consistent(contact, lists)
}

// The row's length, or the question that is a no: 36, and then what reading the row would ask.
pub fn contact_size(contact: Contact, lists: ListsRef<'_>) -> Result<usize, Question>
    ensures { written_says result ≡ asked_contact contact (read_in lists.entry) }
{
    contact_image::typed(contact);
    contact_image::lists_typed(lists);
    if !counts_fit(contact, lists) {
        return Err(Question::Lists);
    }
    let card = card::card_size(contact.peer)?;
    let chain_bytes = contact_lent::chains_size(lists.chains, contact.chains)?;
    let skipped_bytes = contact_lent::skipped_size(lists.skipped, contact.skipped)?;
    consistent_lent(contact, lists)?;
    Ok(row_size(contact, card, chain_bytes, skipped_bytes))
}

// Writes the row to the front of the output. A refusal writes nothing.
pub fn write_contact(
    contact: Contact,
    lists: ListsRef<'_>,
    out: &mut [u8],
) -> Result<usize, Question>
    ensures { leaves result out.new ≡ writes_contact contact (read_in lists.entry) out.old }
{
    contact_image::typed(contact);
    contact_image::lists_typed(lists);
    let n = contact_size(contact, lists)?;
    if out.len() < n {
        return Err(Question::Output);
    }
    contact_image::put_row(out, contact, lists);
    Ok(n)
}
