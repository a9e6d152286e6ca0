// Contact rows, as state.rs has them: the row that a struct and five lent lists stand for is stored part by part.
#![tactic(auto)]

ghost use Rattle.std.specs.Prelude.{◌≡◌, true, [], ◌∷◌, ◌++◌, ◌+◌, ◌*◌, ◌≤◌, length};
ghost use Rattle.layout.specs.Form.{bytes_of, u32};
ghost use Rattle.layout.specs.RowLaws.{Bytes};
ghost use Rattle.layout.specs.Layout.{print, group, optional};
ghost use Rattle.put.specs.Put.{Wrote};
ghost use Rattle.rows.specs.Rows.{role_byte, verification_byte, pending, send, skipped};
ghost use Rattle.card.specs.Card as cards;
ghost use Rattle.contact_parts.specs.Parts.{paired, keys, numbers};
ghost use Rattle.contact_image.specs.Row.{SendTyped, ContactTyped, paired_of, keys_of, pending_of, send_of, numbers_of, counters, lists_image, chained_image, image, ListsTyped, Words, ChainsLent, NumbersLent, Writable};
ghost use Rattle.contact.specs.Contact.{read_in};

use contact::{Contact, ListsRef, SendChain};

// What the types say, as facts.
fn send_typed(send: Option<SendChain>) -> bool
    ensures { SendTyped send }
{
    send.is_some()
}

// True; what the type of each field says, as facts.
pub fn typed(contact: Contact) -> bool
    ensures { (result ≡ true) × ContactTyped contact }
{
    send_typed(contact.send);
    true
}

fn bytes_typed(bytes: &[u8]) -> bool
    ensures { Bytes bytes.now }
{
    bytes.is_empty()
}

fn words_typed(words: &[u32]) -> bool
    ensures { Words words.now }
{
    words.is_empty()
}

// True; what the type of each lent list says, as facts.
pub fn lists_typed(lists: ListsRef<'_>) -> bool
    ensures { (result ≡ true) × ListsTyped (read_in lists.entry) }
{
    bytes_typed(lists.chains);
    bytes_typed(lists.skipped);
    words_typed(lists.above);
    words_typed(lists.unacked);
    words_typed(lists.expired);
    true
}

// The codes: role, mode and verification.
fn put_codes(out: &mut [u8], at: usize, contact: Contact) -> usize
    requires { at + 3 ≤ length out.old }
    ensures { (result ≡ at + 3) × Wrote out.old at (role_byte contact.role ∷ 3 ∷ verification_byte contact.verification ∷ []) out.new result }
{
    let mode_at = put::put_byte(out, at, u8::from(contact.role));
    let verification_at = put::put_byte(out, mode_at, rows::MODE_TOFU);
    put::put_byte(out, verification_at, u8::from(contact.verification))
}

// How many items, or how many bytes, stand behind it.
// Kept: `as`, the only one here: u64 has no `From<usize>`, and try_from has an error that never comes.
fn put_count(out: &mut [u8], at: usize, count: usize) -> usize
    requires { at + 2 ≤ length out.old }
    ensures { (result ≡ at + 2) × Wrote out.old at (bytes_of 2 count) out.new result }
{
    put::put_be(out, at, 2, count as u64)
}

// Who the contact is: the codes, the pairing's runs, and the card behind its length.
#[tactic(auto, using(crate::proofs::Lengths::paired_long))]
fn put_paired(out: &mut [u8], at: usize, contact: Contact) -> usize
    requires { (contact.peer.name_len ≤ 48) × (at + length (print paired (paired_of contact)) ≤ length out.old) }
    ensures { (result ≡ at + length (print paired (paired_of contact))) × Wrote out.old at (print paired (paired_of contact)) out.new result }
{
    typed(contact);
    let pair_id_at = put_codes(out, at, contact);
    let pair_id = contact.pair_id;
    let th_at = put::put_array(out, pair_id_at, &pair_id);
    let th = contact.th;
    let nonce_b_at = put::put_run(out, th_at, &th, 0, 48);
    let nonce_b = contact.nonce_b;
    let card_len_at = put::put_array(out, nonce_b_at, &nonce_b);
    put_peer(out, card_len_at, contact)
}

// The card behind its length.
fn put_peer(out: &mut [u8], at: usize, contact: Contact) -> usize
    requires { (contact.peer.name_len ≤ 48) × (at + (2 + length (cards.image contact.peer)) ≤ length out.old) }
    ensures { (result ≡ at + (2 + length (cards.image contact.peer))) × Wrote out.old at (bytes_of 2 (length (cards.image contact.peer)) ++ cards.image contact.peer) out.new result }
{
    let peer = contact.peer;
    let n = card::card_len(peer);
    let card_at = put_count(out, at, n);
    card::put_card(out, card_at, peer)
}

// The keys, and the last number sent.
#[tactic(auto, using(crate::proofs::Lengths::keys_long))]
fn put_keys(out: &mut [u8], at: usize, contact: Contact) -> usize
    requires { at + length (print keys (keys_of contact)) ≤ length out.old }
    ensures { (result ≡ at + length (print keys (keys_of contact))) × Wrote out.old at (print keys (keys_of contact)) out.new result }
{
    typed(contact);
    let door_a_to_b = contact.door_a_to_b;
    let door_at = put::put_array(out, at, &door_a_to_b);
    let door_b_to_a = contact.door_b_to_a;
    let route_key_at = put::put_array(out, door_at, &door_b_to_a);
    let route_key = contact.route_key;
    let resume_index_at = put::put_array(out, route_key_at, &route_key);
    let chain_key_at = put::put_be(out, resume_index_at, 8, contact.resume_index);
    let chain_key = contact.chain_key;
    let sent_msgno_at = put::put_array(out, chain_key_at, &chain_key);
    put::put_be(out, sent_msgno_at, 4, u64::from(contact.sent_msgno))
}

// The flag, and what it awaits.
#[tactic(auto, using(crate::proofs::Lengths::pending_long, crate::proofs::Lengths::pending_absent))]
fn put_pending(out: &mut [u8], at: usize, contact: Contact) -> usize
    requires { at + length ((optional (group pending)).print (pending_of contact)) ≤ length out.old }
    ensures { (result ≡ at + length ((optional (group pending)).print (pending_of contact))) × Wrote out.old at ((optional (group pending)).print (pending_of contact)) out.new result }
{
    typed(contact);
    if contact.pending {
        let chain_key_at = put::put_byte(out, at, 1);
        let chain_key = contact.pending_chain_key;
        let msg_seed_at = put::put_array(out, chain_key_at, &chain_key);
        let msg_seed = contact.pending_msg_seed;
        return put::put_array(out, msg_seed_at, &msg_seed);
    }
    put::put_byte(out, at, 0)
}

// The flag, and its send chain.
#[tactic(auto, using(crate::proofs::Lengths::send_long, crate::proofs::Lengths::send_absent))]
fn put_send(out: &mut [u8], at: usize, contact: Contact) -> usize
    requires { at + length ((optional (group send)).print (send_of contact.send contact.send_key)) ≤ length out.old }
    ensures { (result ≡ at + length ((optional (group send)).print (send_of contact.send contact.send_key)))
        × Wrote out.old at ((optional (group send)).print (send_of contact.send contact.send_key)) out.new result }
{
    typed(contact);
    let Some(send) = contact.send else {
        return put::put_byte(out, at, 0);
    };
    let gen_at = put::put_byte(out, at, 1);
    let dir_at = put::put_byte(out, gen_at, send.gen_);
    let idx_at = put::put_byte(out, dir_at, u8::from(send.dir));
    let key_at = put::put_be(out, idx_at, 4, u64::from(send.idx));
    let key = contact.send_key;
    put::put_array(out, key_at, &key)
}

// The numbers that are no lists.
fn put_counters(out: &mut [u8], at: usize, contact: Contact) -> usize
    requires { at + 16 ≤ length out.old }
    ensures { (result ≡ at + 16) × Wrote out.old at (counters contact) out.new result }
{
    let peer_read_at = put::put_be(out, at, 4, u64::from(contact.peer_acked));
    let read_marked_at = put::put_be(out, peer_read_at, 4, u64::from(contact.peer_read));
    let contiguous_at = put::put_be(out, read_marked_at, 4, u64::from(contact.read_marked));
    put::put_be(out, contiguous_at, 4, u64::from(contact.contiguous))
}

// The three lists of numbers.
fn put_lists(out: &mut [u8], at: usize, contact: Contact, lists: ListsRef<'_>) -> usize
    requires { NumbersLent contact (read_in lists) × (at + (6 + 8 * contact.above + 4 * contact.unacked + 8 * contact.expired) ≤ length out.old) }
    ensures { (result ≡ at + (6 + 8 * contact.above + 4 * contact.unacked + 8 * contact.expired))
        × Wrote out.old at (lists_image contact (read_in lists.entry)) out.new result }
{
    let above_at = put_count(out, at, contact.above);
    let unacked_count_at = contact_lent::put_ranges(out, above_at, lists.above, contact.above);
    let unacked_at = put_count(out, unacked_count_at, contact.unacked);
    let expired_count_at = contact_lent::put_numbers(
        out,
        unacked_at,
        lists.unacked,
        contact.unacked,
    );
    let expired_at = put_count(out, expired_count_at, contact.expired);
    contact_lent::put_ranges(out, expired_at, lists.expired, contact.expired)
}

// The message numbers.
fn put_numbers(out: &mut [u8], at: usize, contact: Contact, lists: ListsRef<'_>) -> usize
    requires { NumbersLent contact (read_in lists) × (at + (22 + 8 * contact.above + 4 * contact.unacked + 8 * contact.expired) ≤ length out.old) }
    ensures { (result ≡ at + (22 + 8 * contact.above + 4 * contact.unacked + 8 * contact.expired))
        × Wrote out.old at (print numbers (numbers_of contact (read_in lists.entry))) out.new result }
{
    let lists_at = put_counters(out, at, contact);
    put_lists(out, lists_at, contact, lists)
}

// What it awaits and sends, its chains and its skipped keys.
#[tactic(auto, using(crate::proofs::Lengths::chained_long))]
fn put_chained(out: &mut [u8], at: usize, contact: Contact, lists: ListsRef<'_>) -> usize
    requires { ChainsLent contact (read_in lists) × (at + length (chained_image contact (read_in lists)) ≤ length out.old) }
    ensures { (result ≡ at + length (chained_image contact (read_in lists.entry)))
        × Wrote out.old at (chained_image contact (read_in lists.entry)) out.new result }
{
    lists_typed(lists);
    let send_at = put_pending(out, at, contact);
    let chain_count_at = put_send(out, send_at, contact);
    let chains_at = put_count(out, chain_count_at, contact.chains);
    let skipped_count_at = contact_lent::put_chains(out, chains_at, lists.chains, contact.chains);
    let skipped_at = put_count(out, skipped_count_at, contact.skipped);
    contact_lent::put_skipped(out, skipped_at, lists.skipped, contact.skipped)
}

// Stores the row at the front of a buffer with room for it; the length of the row.
pub fn put_row(out: &mut [u8], contact: Contact, lists: ListsRef<'_>) -> usize
    requires { Writable contact (read_in lists) out.old }
    ensures { (result ≡ length (image contact (read_in lists.entry))) × Wrote out.old 0 (image contact (read_in lists.entry)) out.new result }
{
    let keys_at = put_paired(out, 0, contact);
    let chained_at = put_keys(out, keys_at, contact);
    let numbers_at = put_chained(out, chained_at, contact, lists);
    put_numbers(out, numbers_at, contact, lists)
}
