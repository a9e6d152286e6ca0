// Contact rows, as state.rs has them: checked, and read into a struct and five lent lists.
#![tactic(auto)]

ghost use Rattle.std.specs.Prelude.{◌≡◌, ◌/◌, ◌<◌};
ghost use Rattle.layout.specs.Read.{first};
ghost use Rattle.layout.specs.Layout.{accepted, read_row};
ghost use Rattle.layout.specs.RowLaws.{Bytes};
ghost use Rattle.rows.specs.Answers.{verdict_of};
ghost use Rattle.rows.specs.Rows as layouts;
ghost use Rattle.numbers.specs.Lists.{room_for};
ghost use Rattle.card.specs.Card.{card_of};
ghost use Rattle.contact_parts.specs.Offsets.{ChainedLists, NumbersLists, chained_from, numbers_from, CardOffsets, card_in, pending_from, send_from};
ghost use Rattle.contact.specs.Consistent.{chains_refusal, numbers_refusal, refusal_in};
ghost use Rattle.layout.specs.Says.{answers, answer_says, made};
ghost use Rattle.contact.specs.Check.{contact_at, contact_from, counts_at, PendingRuns, SendRuns, Filling};
ghost use Rattle.contact.specs.Contact.{pending_keys_of, send_part_of, contact_of, zero_contact, lengths_of, read_in, held_in, SameLists, filled, Fillable, leaves, reads, fills, opened};

use card::Card;
use contact_parts::{ChainedAt, KeysAt, NumbersAt, PairedAt};
use layout::Question;
use rows::{Dir, PairingRole, Verification};

// The send chain's numbers; its key stands beside it.
#[derive(Clone, Copy)]
pub struct SendChain {
    pub gen_: u8,
    pub dir: Dir,
    pub idx: u32,
}

// A contact but for the items of its lists, which the caller lends: chains to expired say how many items of each there are.
// What a flag leaves out is 0: pending_chain_key and pending_msg_seed, and send_key.
#[derive(Clone, Copy)]
pub struct Contact {
    pub resume_index: u64,
    pub chains: usize,
    pub skipped: usize,
    pub above: usize,
    pub unacked: usize,
    pub expired: usize,
    pub sent_msgno: u32,
    pub peer_acked: u32,
    pub peer_read: u32,
    pub read_marked: u32,
    pub contiguous: u32,
    // none until the first Resume
    // Kept: what may not change: write_contact and contact_size speak of every Contact, also of one without a send chain whose send_key is not 0.
    pub send: Option<SendChain>,
    pub role: PairingRole,
    pub verification: Verification,
    // Kept: a flag beside two keys. write_contact and contact_size speak of every Contact, also of one whose flag is false before keys that are not 0: an Option has none such.
    pub pending: bool,
    pub peer: Card,
    pub pair_id: [u8; 16],
    pub th: [u8; 48],
    pub nonce_b: [u8; 16],
    pub door_a_to_b: [u8; 32],
    pub door_b_to_a: [u8; 32],
    pub route_key: [u8; 32],
    pub chain_key: [u8; 32],
    pub pending_chain_key: [u8; 32],
    pub pending_msg_seed: [u8; 32],
    pub send_key: [u8; 32],
}

// The lists of an opened contact, lent to be read: chains in places of 51 bytes, skipped keys in places of 46, and ranges as from, to, from, to.
// Kept: each list is as long as its caller likes, and its count stands in Contact, since memory is fixed and there is no heap.
#[derive(Clone, Copy)]
pub struct ListsRef<'a> {
    pub chains: &'a [u8],
    pub skipped: &'a [u8],
    pub above: &'a [u32],
    pub unacked: &'a [u32],
    pub expired: &'a [u32],
}

// The same lists, lent to be filled.
#[derive(Drop)]
pub struct ListsMut<'a> {
    pub chains: &'a mut [u8],
    pub skipped: &'a mut [u8],
    pub above: &'a mut [u32],
    pub unacked: &'a mut [u32],
    pub expired: &'a mut [u32],
}

impl ListsMut<'_> {
    pub fn read(&self) -> ListsRef<'_>
        ensures { read_in result ≡ held_in self.now }
    {
        ListsRef {
            chains: self.chains,
            skipped: self.skipped,
            above: self.above,
            unacked: self.unacked,
            expired: self.expired,
        }
    }
}

// A contact row's numbers, and where its runs and lists stand in the row.
#[derive(Clone, Copy)]
pub struct ContactAt {
    pub paired: PairedAt,
    pub keys: KeysAt,
    pub chained: ChainedAt,
    pub numbers: NumbersAt,
}

// A contact row of which every answer was a yes: what a contact and the items of its lists are copied from.
// Whoever has one has asked the questions, and only then clears places for a contact, of which a refusal has no use.
#[derive(Clone, Copy)]
pub struct CheckedRow<'a> {
    pub row: &'a [u8],
    pub at: ContactAt,
    ghost bytes: { Bytes row.now },
    ghost read: { accepted at ≡ made (contact_at 3) (read_row (layouts.contact 3) row.now) },
}

// Questions 54 and 17 to 20, of chains and skipped keys that were read.
fn chains_consistent(row: &[u8], at: ChainedAt) -> Result<(), Question>
    requires { ChainedLists row.now at }
    ensures { refusal_in result ≡ chains_refusal (chained_from row.now at).chains (chained_from row.now at).skipped }
{
    let chains = at.chains;
    if rows::MAX_CHAINS < chains.count {
        return Err(Question::ChainsCount);
    }
    let asked = contact_checks::chains_in_row(row, chains.first, chains.count);
    if !asked.one_current {
        return Err(Question::ChainsCurrent);
    }
    if !asked.gens_distinct {
        return Err(Question::ChainsGens);
    }
    let skipped = at.skipped;
    if !contact_checks::skipped_distinct(row, skipped.first, skipped.count) {
        return Err(Question::SkippedKeys);
    }
    if rows::MAX_SKIPPED < skipped.count {
        return Err(Question::SkippedCount);
    }
    Ok(())
}

// Questions 21 to 24, of numbers that were read.
fn numbers_consistent(row: &[u8], sent: u32, at: NumbersAt) -> Result<(), Question>
    requires { NumbersLists row.now at }
    ensures { refusal_in result ≡ numbers_refusal sent at.peer_acked at.contiguous (numbers_from row.now at).above (numbers_from row.now at).unacked (numbers_from row.now at).expired }
{
    if sent < at.peer_acked {
        return Err(Question::PeerAcked);
    }
    let unacked = at.unacked;
    if !contact_checks::rising_in_row(row, unacked.first, unacked.count, sent) {
        return Err(Question::Unacked);
    }
    let above = at.above;
    let from = u64::from(at.contiguous) + 2;
    if !contact_checks::canonical_in_row(row, above.first, above.count, from, u32::MAX) {
        return Err(Question::Above);
    }
    let expired = at.expired;
    if !contact_checks::canonical_in_row(row, expired.first, expired.count, 1, sent) {
        return Err(Question::Expired);
    }
    Ok(())
}

// 54 and 17 to 24, of parts that were read.
fn consistent_in_row(
    row: &[u8],
    sent: u32,
    chained: ChainedAt,
    numbers: NumbersAt,
) -> Result<(), Question>
    requires { ChainedLists row.now chained × NumbersLists row.now numbers }
    ensures { refusal_in result ≡ first (chains_refusal (chained_from row.now chained).chains (chained_from row.now chained).skipped) (numbers_refusal sent numbers.peer_acked numbers.contiguous (numbers_from row.now numbers).above (numbers_from row.now numbers).unacked (numbers_from row.now numbers).expired) }
{
    chains_consistent(row, chained)?;
    numbers_consistent(row, sent, numbers)
}

// The questions of a contact row; nothing is copied.
pub fn check_contact(version: u32, row: &[u8]) -> Result<ContactAt, Question>
    ensures { answers result ≡ made (contact_at version) (read_row (layouts.contact version) row.now) }
{
    if version != rows::BLOB_VERSION {
        return Err(Question::Version);
    }
    let (paired, at1) = contact_parts::paired_at(row, 0)?;
    let (keys, at2) = contact_parts::keys_at(row, at1)?;
    let (chained, at3) = contact_parts::chained_at(row, at2)?;
    let (numbers, at4) = contact_parts::numbers_at(row, at3)?;
    if at4 < row.len() {
        return Err(Question::RowEnd);
    }
    consistent_in_row(row, keys.sent_msgno, chained, numbers)?;
    Ok(ContactAt {
        paired,
        keys,
        chained,
        numbers,
    })
}

// The same questions, where no place is asked for: places that nobody reads are not copied.
pub fn ask_contact(version: u32, row: &[u8]) -> Result<(), Question>
    ensures { answers result ≡ verdict_of (read_row (layouts.contact version) row.now) }
{
    if version != rows::BLOB_VERSION {
        return Err(Question::Version); // as check_contact answers
    }
    let (_paired, behind_paired) = contact_parts::paired_at(row, 0)?;
    let (keys, behind_keys) = contact_parts::keys_at(row, behind_paired)?;
    let (chained, behind_chained) = contact_parts::chained_at(row, behind_keys)?;
    let (numbers, end) = contact_parts::numbers_at(row, behind_chained)?;
    if end < row.len() {
        return Err(Question::RowEnd);
    }
    consistent_in_row(row, keys.sent_msgno, chained, numbers)
}

impl Contact {
    // All zeros: what stands where no row was read.
    pub fn zero() -> Contact
        ensures { result ≡ zero_contact }
    {
        let peer = Card::zero();
        Contact {
            resume_index: 0,
            chains: 0,
            skipped: 0,
            above: 0,
            unacked: 0,
            expired: 0,
            sent_msgno: 0,
            peer_acked: 0,
            peer_read: 0,
            read_marked: 0,
            contiguous: 0,
            send: None,
            role: PairingRole::A,
            verification: Verification::Unverified,
            pending: false,
            peer,
            pair_id: [0; 16],
            th: [0; 48],
            nonce_b: [0; 16],
            door_a_to_b: [0; 32],
            door_b_to_a: [0; 32],
            route_key: [0; 32],
            chain_key: [0; 32],
            pending_chain_key: [0; 32],
            pending_msg_seed: [0; 32],
            send_key: [0; 32],
        }
    }

    // Reads the row into the struct and the lent lists. A refusal changes no list.
    // Apart in the machine's code too: else every call of a store would clear this contact's places, whichever call it is.
    #[inline(never)]
    pub fn decode(version: u32, row: &[u8], lists: &mut ListsMut<'_>) -> Result<Contact, Question>
        ensures { (leaves result (held_in lists.new) ≡ reads version row.now (held_in lists.old)) × SameLists lists.old lists.new }
    {
        let checked = CheckedRow::check(version, row)?;
        checked.fill(lists)?;
        // as `contact` does, which is not inlined
        Ok(contact_from(checked.row, checked.at))
    }
}

impl<'a> CheckedRow<'a> {
    // The questions of a contact row.
    pub fn check(version: u32, row: &'a [u8]) -> Result<CheckedRow<'a>, Question>
        ensures { answer_says (λ c. contact_from c.row.now c.at) result ≡ read_row (layouts.contact version) row.now }
    {
        let at = check_contact(version, row)?;
        Ok(CheckedRow { row, at })
    }

    // Question 36, and then the items copied into the lent lists; places past them stay, as do all where a list is too short.
    pub fn fill(self, lists: &mut ListsMut<'_>) -> Result<(), Question>
        ensures { let v = contact_from self.entry.row.now self.entry.at in
            (fills v result (held_in lists.new) ≡ opened (accepted v) (held_in lists.old)) × SameLists lists.old lists.new }
    {
        if !long_enough(self.at, lists.read()) {
            return Err(Question::Lists);
        }
        fill_lists(self.row, self.at, lists);
        Ok(())
    }

    // Its contact, but for the items of its lists.
    pub fn contact(self) -> Contact
        ensures { result ≡ contact_of (contact_from self.entry.row.now self.entry.at) }
    {
        contact_from(self.row, self.at)
    }
}

// ---- a checked row's contact

// The keys of a Resume that awaits its confirmation; 0 where there is none.
// Kept: a flag in place of an Option, which contact_from would only take apart again, into the flag and the two keys of Contact.
#[derive(Clone, Copy)]
struct PendingKeys {
    present: bool,
    chain_key: [u8; 32],
    msg_seed: [u8; 32],
}

// The send chain, and its key; 0 where there is none.
#[derive(Clone, Copy)]
struct Send {
    chain: Option<SendChain>,
    key: [u8; 32],
}

fn peer_from(row: &[u8], at: PairedAt) -> Card
    requires { CardOffsets row.now at.card }
    ensures { result ≡ card_of (card_in row.now at.card) }
{
    let place = at.card;
    let start = place.start;
    let end = place.end;
    let fields = place.at;
    card::card_from(&row[start..end], fields)
}

fn pending_from(row: &[u8], at: ChainedAt) -> PendingKeys
    requires { PendingRuns row.now at.pending }
    ensures { result ≡ pending_keys_of (pending_from row.now at.pending) }
{
    let Some(pending) = at.pending else {
        return PendingKeys {
            present: false,
            chain_key: [0; 32],
            msg_seed: [0; 32],
        };
    };
    PendingKeys {
        present: true,
        chain_key: put::copy_array(row, pending.chain_key),
        msg_seed: put::copy_array(row, pending.msg_seed),
    }
}

fn send_from(row: &[u8], at: ChainedAt) -> Send
    requires { SendRuns row.now at.send }
    ensures { result ≡ send_part_of (send_from row.now at.send) }
{
    let Some(send) = at.send else {
        return Send {
            chain: None,
            key: [0; 32],
        };
    };
    Send {
        chain: Some(SendChain {
            gen_: send.gen_,
            dir: send.dir,
            idx: send.idx,
        }),
        key: put::copy_array(row, send.key),
    }
}

// The contact at the places that check_contact found; its lists' items are filled apart.
// Inlined, so that its fields are stored where the caller wants them, and the whole is not copied there.
#[inline(always)]
fn contact_from(row: &[u8], at: ContactAt) -> Contact
    requires { Filling row.now at }
    ensures { result ≡ contact_of (contact_from row.now at) }
{
    let paired = at.paired;
    let role = paired.role;
    let verification = paired.verification;
    let chained = at.chained;
    let pending = pending_from(row, chained);
    let pending_chain_key = pending.chain_key;
    let pending_msg_seed = pending.msg_seed;
    let send = send_from(row, chained);
    let chain = send.chain;
    let send_key = send.key;
    Contact {
        resume_index: at.keys.resume_index,
        chains: at.chained.chains.count,
        skipped: at.chained.skipped.count,
        above: at.numbers.above.count,
        unacked: at.numbers.unacked.count,
        expired: at.numbers.expired.count,
        sent_msgno: at.keys.sent_msgno,
        peer_acked: at.numbers.peer_acked,
        peer_read: at.numbers.peer_read,
        read_marked: at.numbers.read_marked,
        contiguous: at.numbers.contiguous,
        send: chain,
        role,
        verification,
        pending: pending.present,
        peer: peer_from(row, paired),
        pair_id: put::copy_array(row, at.paired.pair_id),
        th: put::copy_array(row, at.paired.th),
        nonce_b: put::copy_array(row, at.paired.nonce_b),
        door_a_to_b: put::copy_array(row, at.keys.door_a_to_b),
        door_b_to_a: put::copy_array(row, at.keys.door_b_to_a),
        route_key: put::copy_array(row, at.keys.route_key),
        chain_key: put::copy_array(row, at.keys.chain_key),
        pending_chain_key,
        pending_msg_seed,
        send_key,
    }
}

// Question 36: whether each list is long enough for the row's items.
pub fn long_enough(at: ContactAt, lists: ListsRef<'_>) -> bool
    ensures { result ≡ room_for (counts_at at) (lengths_of (read_in lists.entry)) }
{
    at.chained.chains.count <= lists.chains.len() / contact_lent::CHAIN_PLACE
        && at.chained.skipped.count <= lists.skipped.len() / contact_lent::SKIPPED_PLACE
        && at.numbers.above.count <= lists.above.len() / 2
        && at.numbers.unacked.count <= lists.unacked.len()
        && at.numbers.expired.count <= lists.expired.len() / 2
}

// Copies the row's items into the lent lists; places past them stay.
fn fill_lists(row: &[u8], at: ContactAt, lists: &mut ListsMut<'_>)
    requires { Fillable row.now at (held_in lists.old) }
    ensures { (held_in lists.new ≡ filled (contact_from row.now at) (held_in lists.old)) × SameLists lists.old lists.new }
{
    let chained = at.chained;
    let numbers = at.numbers;
    contact_lent::fill_chains(
        row,
        chained.chains.first,
        chained.chains.count,
        lists.chains,
    );
    contact_lent::fill_skipped(
        row,
        chained.skipped.first,
        chained.skipped.count,
        lists.skipped,
    );
    contact_lent::fill_ranges(row, numbers.above.first, numbers.above.count, lists.above);
    contact_lent::fill_numbers(
        row,
        numbers.unacked.first,
        numbers.unacked.count,
        lists.unacked,
    );
    contact_lent::fill_ranges(
        row,
        numbers.expired.first,
        numbers.expired.count,
        lists.expired,
    );
}
