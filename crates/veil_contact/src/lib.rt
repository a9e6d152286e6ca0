// The parts of a contact row, stored with 0 for their veiled bytes. What is not veiled is copied from the row, or stored from the numbers that were read.
#![tactic(auto)]

ghost use Rattle.std.specs.Prelude.{◌≡◌, ℕ, ◌+◌, ◌≤◌, ◌<◌, List, length};
ghost use Rattle.layout.specs.Veil.{veil};
ghost use Rattle.layout.specs.Form.{Form};
ghost use Rattle.layout.specs.Layout.{print, blank_of, group, optional_layout};
ghost use Rattle.layout.proofs.Lawful.{Lawful};
ghost use Rattle.rows.specs.Values as values;
ghost use Rattle.rows.specs.Rows.{pending, send, chain, skipped};
ghost use Rattle.rows.proofs.Lawful.{chain-lawful, skipped-lawful};
ghost use Rattle.put.specs.Put.{Wrote};
ghost use Rattle.contact_parts.specs.Parts.{paired, keys, chained};
ghost use Rattle.contact_parts.specs.Offsets.{paired_from, CardOffsets, list_in, ListIn, ChainedLists};
ghost use Rattle.veil_contact.specs.Veiled.{around_key, AroundKeys, Stands, card_tail, veiled_keys, veiled_pending, veiled_send, veiled_many, veiled_list, veiled_chained, flag_length};

use card::CardAt;
use contact_lists::ListAt;
use contact_parts::{ChainedAt, KeysAt, PairedAt, PendingAt, SendChainAt};

const KEY_LEN: usize = 32;

const FLAG_LEN: usize = 1;

// How many bytes a time in seconds has.
const SECONDS_LEN: usize = 8;

// Where the card's beacon_key stands in a contact row: behind three codes, pair_id, th, nonce_b, the card's length, its caps and its beacon_day.
const BEACON_KEY_AT: usize = 90;

// Bytes of the row around a key: head bytes before it are copied, its own are 0, and tail bytes after it are copied.
fn veil_key(out: &mut [u8], at: usize, row: &[u8], from: usize, head: usize, tail: usize) -> usize
    requires { (from + head + 32 + tail ≤ length row.now) × (at + head + 32 + tail ≤ length out.old) }
    ensures { (result ≡ at + head + 32 + tail) × Wrote out.old at (around_key row.now from head tail) out.new result }
{
    let key_at = put::put_run(out, at, row, from, head);
    let tail_at = put::put_zeros(out, key_at, KEY_LEN);
    put::put_run(out, tail_at, row, from + head + KEY_LEN, tail)
}

// How many bytes of a card stand behind its beacon_key.
fn card_tail(card: CardAt) -> usize
    ensures { result ≡ card_tail card }
{
    let name = 1 + usize::from(card.name_len);
    if card.caps / 2 % 2 == 1 {
        return name + rows::MLKEM768_ENCAPSULATION_KEY_LEN;
    }
    name
}

// Who the contact is, from the row's front, with 0 for the card's beacon_key.
pub fn veil_paired(out: &mut [u8], at: usize, row: &[u8], p: PairedAt) -> usize
    requires { CardOffsets row.now p.card × Stands paired row.now 0 (paired_from row.now p) × (at + length (print paired (blank_of paired veil (paired_from row.now p))) ≤ length out.old) }
    ensures { (result ≡ at + length (print paired (blank_of paired veil (paired_from row.now p)))) × Wrote out.old at (print paired (blank_of paired veil (paired_from row.now p))) out.new result }
{
    let place = p.card;
    let card = place.at;
    let tail = card_tail(card);
    veil_key(out, at, row, 0, BEACON_KEY_AT, tail)
}

// The keys, all 0, and the numbers between them.
#[tactic(auto, using(crate::proofs::Keys::keys_long))]
pub fn veil_keys(out: &mut [u8], at: usize, k: KeysAt) -> usize
    requires { at + length (print keys (veiled_keys k)) ≤ length out.old }
    ensures { (result ≡ at + length (print keys (veiled_keys k))) × Wrote out.old at (print keys (veiled_keys k)) out.new result }
{
    let resume_index_at = put::put_zeros(out, at, 3 * KEY_LEN);
    let chain_key_at = put::put_be(out, resume_index_at, 8, k.resume_index);
    let sent_msgno_at = put::put_zeros(out, chain_key_at, KEY_LEN);
    put::put_be(out, sent_msgno_at, 4, u64::from(k.sent_msgno))
}

// The flag, and both keys of a Resume that awaits its confirmation, all 0.
fn veil_pending(out: &mut [u8], at: usize, p: Option<PendingAt>) -> usize
    requires { at + length (print (optional_layout (group pending)) (veiled_pending p)) ≤ length out.old }
    ensures { (result ≡ at + length (print (optional_layout (group pending)) (veiled_pending p))) × Wrote out.old at (print (optional_layout (group pending)) (veiled_pending p)) out.new result }
{
    if p.is_none() {
        return put::put_byte(out, at, 0);
    }
    let chain_key_at = put::put_byte(out, at, 1);
    put::put_zeros(out, chain_key_at, 2 * KEY_LEN)
}

// The flag, and the send chain's numbers before its key, which is 0.
#[tactic(auto, using(crate::proofs::Flagged::send_long))]
fn veil_send(out: &mut [u8], at: usize, s: Option<SendChainAt>) -> usize
    requires { at + length (print (optional_layout (group send)) (veiled_send s)) ≤ length out.old }
    ensures { (result ≡ at + length (print (optional_layout (group send)) (veiled_send s))) × Wrote out.old at (print (optional_layout (group send)) (veiled_send s)) out.new result }
{
    let Some(its) = s else {
        return put::put_byte(out, at, 0);
    };
    let gen_at = put::put_byte(out, at, 1);
    let dir_at = put::put_byte(out, gen_at, its.gen_);
    let idx_at = put::put_byte(out, dir_at, u8::from(its.dir));
    let key_at = put::put_be(out, idx_at, 4, u64::from(its.idx));
    put::put_zeros(out, key_at, KEY_LEN)
}

// An item of a counted list: bytes before and behind a key.
trait Item {
    const HEAD: usize;

    ghost HEAD: { ℕ };

    ghost value: { Type 0 };

    ghost form: { Form value };

    ghost tail_at: { List ℕ → ℕ → ℕ };

    // How many bytes of the item at `at` stand behind its key.
    fn tail(row: &[u8], at: usize) -> usize
        requires { at + HEAD + 32 < length row.now }
        ensures { result ≡ tail_at row.now at };

    ghost lawful: { Lawful form };
}

struct Chain;

impl Item for Chain {
    // gen, dir and next
    const HEAD: usize = 10;

    ghost HEAD = { 10 };

    ghost value = { values.Chain };

    ghost form = { group chain };

    ghost tail_at = { λ row at. flag_length row (at + 42) };

    // The flag, and superseded_s if it is 1.
    fn tail(row: &[u8], at: usize) -> usize {
        if row[at + Self::HEAD + KEY_LEN] == 1 {
            return FLAG_LEN + SECONDS_LEN;
        }
        FLAG_LEN
    }

    ghost lawful = { chain-lawful };
}

struct Skipped;

impl Item for Skipped {
    // gen, dir and idx
    const HEAD: usize = 6;

    ghost HEAD = { 6 };

    ghost value = { values.Skipped };

    ghost form = { group skipped };

    ghost tail_at = { λ _ _. 8 };

    // created_s.
    fn tail(_row: &[u8], _at: usize) -> usize {
        SECONDS_LEN
    }

    ghost lawful = { skipped-lawful };
}

// The items of a list, with 0 for each key. That they are bytes around keys is proved here, where a law of the trait could not cite it.
fn veil_each<I: Item>(out: &mut [u8], at: usize, row: &[u8], l: ListAt) -> usize
    requires { AroundKeys I.form I.HEAD I.tail_at × ListIn I.form row.now l × (at + length (veiled_many I.form (list_in I.form row.now l)) ≤ length out.old) }
    ensures { (result ≡ at + length (veiled_many I.form (list_in I.form row.now l))) × Wrote out.old at (veiled_many I.form (list_in I.form row.now l)) out.new result }
{
    let mut from = l.first;
    let mut to = at;
    for _ in 0..l.count {
        let tail = I::tail(row, from);
        to = veil_key(out, to, row, from, I::HEAD, tail);
        from += I::HEAD + KEY_LEN + tail;
    }
    to
}

// The count of a list, and its items with 0 for each key.
fn veil_list<I: Item>(out: &mut [u8], at: usize, row: &[u8], l: ListAt) -> usize
    requires { AroundKeys I.form I.HEAD I.tail_at × ListIn I.form row.now l × (at + length (veiled_list I.form row.now l) ≤ length out.old) }
    ensures { (result ≡ at + length (veiled_list I.form row.now l)) × Wrote out.old at (veiled_list I.form row.now l) out.new result }
{
    // Kept: usize has no From into u64, and try_from has an error that never comes
    let first = put::put_be(out, at, 2, l.count as u64);
    veil_each::<I>(out, first, row, l)
}

// What it awaits and sends, and its chains, with 0 for each key.
pub fn veil_chained(out: &mut [u8], at: usize, row: &[u8], c: ChainedAt) -> usize
    requires { ChainedLists row.now c × (at + length (print chained (veiled_chained row.now c)) ≤ length out.old) }
    ensures { (result ≡ at + length (print chained (veiled_chained row.now c))) × Wrote out.old at (print chained (veiled_chained row.now c)) out.new result }
{
    let send_at = veil_pending(out, at, c.pending);
    let chains_at = veil_send(out, send_at, c.send);
    let skipped_at = veil_list::<Chain>(out, chains_at, row, c.chains);
    veil_list::<Skipped>(out, skipped_at, row, c.skipped)
}
