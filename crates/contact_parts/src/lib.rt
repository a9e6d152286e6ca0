// Contact rows: the fields of a row, part by part, checked and placed; nothing is copied.
#![tactic(auto)]

ghost use Rattle.std.specs.Prelude.{◌≡◌};
ghost use Rattle.layout.specs.Questions.{CARD_END};
ghost use Rattle.layout.specs.Field.{read_at};
ghost use Rattle.layout.specs.Layout.{group, sized};
ghost use Rattle.layout.specs.Says.{says};
ghost use Rattle.rows.specs.Rows.{card, pending, send};
ghost use Rattle.rows.specs.Values.{Pending, Send};
ghost use Rattle.rows.proofs.Lawful.{pending-lawful, send-lawful};
ghost use Rattle.contact_parts.specs.Parts.{paired, keys, chained, numbers};
ghost use Rattle.offsets.specs.Offset.{located};
ghost use Rattle.contact_parts.specs.Offsets.{card_at, paired_at, keys_at, pending_keys_at, send_chain_at, chained_at, numbers_at};

use card::CardAt;
use contact_lists::ListAt;
use layout::Question;
use offsets::Part;
use rows::{Dir, PairingRole, Verification};

// A card in the row: from start up to end, with its fields' places in that part.
#[derive(Clone, Copy)]
pub struct CardOffset {
    pub start: usize,
    pub end: usize,
    pub at: CardAt,
}

// A card behind its length.
fn card_at(row: &[u8], at: usize) -> Result<(CardOffset, usize), Question>
    ensures { says result ≡ located (card_at at) (read_at (sized (group card) CARD_END) row.now at) }
{
    let (len, mid) = fields::u16_at(row, at)?;
    let (start, end) = fields::run_at(row, mid, usize::from(len))?;
    let at = card::check_card(&row[start..end])?;
    Ok((CardOffset { start, end, at }, end))
}

// Who the contact is.
#[derive(Clone, Copy)]
pub struct PairedAt {
    pub pair_id: usize,
    pub th: usize,
    pub nonce_b: usize,
    pub card: CardOffset,
    pub role: PairingRole,
    pub verification: Verification,
}

// The fields up to the card.
pub fn paired_at(row: &[u8], at: usize) -> Result<(PairedAt, usize), Question>
    ensures { says result ≡ located (paired_at at) (read_at (group paired) row.now at) }
{
    let (role, at1) = fields::code_at(row, at)?;
    let at2 = fields::mode_at(row, at1)?;
    let (verification, at3) = fields::code_at(row, at2)?;
    let (pair_id, at4) = fields::run_at(row, at3, 16)?;
    let (th, at5) = fields::run_at(row, at4, 48)?;
    let (nonce_b, at6) = fields::run_at(row, at5, 16)?;
    let (card, at7) = card_at(row, at6)?;
    Ok((
        PairedAt {
            pair_id,
            th,
            nonce_b,
            card,
            role,
            verification,
        },
        at7,
    ))
}

// Its keys, and the last number sent.
#[derive(Clone, Copy)]
pub struct KeysAt {
    pub resume_index: u64,
    pub door_a_to_b: usize,
    pub door_b_to_a: usize,
    pub route_key: usize,
    pub chain_key: usize,
    pub sent_msgno: u32,
}

// The fields from door_a_to_b to sent_msgno.
pub fn keys_at(row: &[u8], at: usize) -> Result<(KeysAt, usize), Question>
    ensures { says result ≡ located (keys_at at) (read_at (group keys) row.now at) }
{
    let (door_a_to_b, at1) = fields::run_at(row, at, 32)?;
    let (door_b_to_a, at2) = fields::run_at(row, at1, 32)?;
    let (route_key, at3) = fields::run_at(row, at2, 32)?;
    let (resume_index, at4) = fields::u64_at(row, at3)?;
    let (chain_key, at5) = fields::run_at(row, at4, 32)?;
    let (sent_msgno, at6) = fields::u32_at(row, at5)?;
    Ok((
        KeysAt {
            resume_index,
            door_a_to_b,
            door_b_to_a,
            route_key,
            chain_key,
            sent_msgno,
        },
        at6,
    ))
}

// The keys of a Resume that awaits its confirmation: where they start.
#[derive(Clone, Copy)]
pub struct PendingAt {
    pub chain_key: usize,
    pub msg_seed: usize,
}

impl Part for PendingAt {
    ghost Value = { Pending };

    ghost form = { group pending };

    ghost places = { pending_keys_at };

    // chain_key and msg_seed.
    fn part_at(row: &[u8], at: usize) -> Result<(PendingAt, usize), Question> {
        let (chain_key, at1) = fields::run_at(row, at, 32)?;
        let (msg_seed, at2) = fields::run_at(row, at1, 32)?;
        let keys = PendingAt {
            chain_key,
            msg_seed,
        };
        Ok((keys, at2))
    }

    ghost lawful = { pending-lawful };
}

// The send chain's numbers, and where its key starts.
#[derive(Clone, Copy)]
pub struct SendChainAt {
    pub key: usize,
    pub idx: u32,
    pub gen_: u8,
    pub dir: Dir,
}

impl Part for SendChainAt {
    ghost Value = { Send };

    ghost form = { group send };

    ghost places = { send_chain_at };

    // gen, dir, idx, key.
    fn part_at(row: &[u8], at: usize) -> Result<(SendChainAt, usize), Question> {
        let (gen_, at1) = fields::byte_at(row, at)?;
        let (dir, at2) = fields::code_at(row, at1)?;
        let (idx, at3) = fields::u32_at(row, at2)?;
        let (key, at4) = fields::run_at(row, at3, 32)?;
        Ok((
            SendChainAt {
                key,
                idx,
                gen_,
                dir,
            },
            at4,
        ))
    }

    ghost lawful = { send-lawful };
}

// What it awaits and sends, and its chains.
#[derive(Clone, Copy)]
pub struct ChainedAt {
    pub chains: ListAt,
    pub skipped: ListAt,
    pub pending: Option<PendingAt>,
    pub send: Option<SendChainAt>,
}

// The fields from pending to skipped.
pub fn chained_at(row: &[u8], at: usize) -> Result<(ChainedAt, usize), Question>
    ensures { says result ≡ located (chained_at at) (read_at (group chained) row.now at) }
{
    let (pending, at1) = offsets::optional_at(row, at)?;
    let (send, at2) = offsets::optional_at(row, at1)?;
    let chains = contact_lists::chains_at(row, at2)?;
    let skipped = contact_lists::skipped_at(row, chains.next)?;
    Ok((
        ChainedAt {
            chains,
            skipped,
            pending,
            send,
        },
        skipped.next,
    ))
}

// The message numbers.
#[derive(Clone, Copy)]
pub struct NumbersAt {
    pub above: ListAt,
    pub unacked: ListAt,
    pub expired: ListAt,
    pub peer_acked: u32,
    pub peer_read: u32,
    pub read_marked: u32,
    pub contiguous: u32,
}

// The fields from peer_acked to expired.
pub fn numbers_at(row: &[u8], at: usize) -> Result<(NumbersAt, usize), Question>
    ensures { says result ≡ located (numbers_at at) (read_at (group numbers) row.now at) }
{
    let (peer_acked, at1) = fields::u32_at(row, at)?;
    let (peer_read, at2) = fields::u32_at(row, at1)?;
    let (read_marked, at3) = fields::u32_at(row, at2)?;
    let (contiguous, at4) = fields::u32_at(row, at3)?;
    let above = contact_lists::ranges_at(row, at4)?;
    let unacked = contact_lists::numbers_at(row, above.next)?;
    let expired = contact_lists::ranges_at(row, unacked.next)?;
    Ok((
        NumbersAt {
            above,
            unacked,
            expired,
            peer_acked,
            peer_read,
            read_marked,
            contiguous,
        },
        expired.next,
    ))
}
