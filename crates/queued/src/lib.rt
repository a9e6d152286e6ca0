// Queued rows: their questions, as chain.rs and state.rs have them (Queued, OwnEnvelope). The sealed text stays in the row.
#![tactic(auto)]

ghost use Rattle.std.specs.Prelude.{◌≡◌, drop};
ghost use Rattle.layout.specs.Layout.{group, read_row};
ghost use Rattle.layout.specs.Says.{answers, made};
ghost use Rattle.rows.specs.Values.{OwnEnvelope};
ghost use Rattle.rows.specs.Rows.{own_envelope, queued};
ghost use Rattle.rows.proofs.Lawful.{own_envelope-lawful};
ghost use Rattle.queued.specs.Queued.{envelope_at, queued_at};

use layout::Question;
use offsets::Part;

// An own envelope's numbers, and where its runs start.
#[derive(Clone, Copy)]
pub struct EnvelopeAt {
    pub tag: usize,
    pub s: usize,
    pub expiry_min: u32,
    pub copies: u8,
    pub renewed: bool,
}

impl Part for EnvelopeAt {
    ghost Value = { OwnEnvelope };

    ghost form = { group own_envelope };

    ghost places = { envelope_at };

    fn part_at(row: &[u8], at: usize) -> Result<(EnvelopeAt, usize), Question> {
        let (tag, at1) = fields::run_at(row, at, 16)?;
        let (s, at2) = fields::run_at(row, at1, 16)?;
        let (expiry_min, at3) = fields::u32_at(row, at2)?;
        let (copies, at4) = fields::byte_at(row, at3)?;
        let (renewed, at5) = fields::flag_at(row, at4)?;
        Ok((
            EnvelopeAt {
                tag,
                s,
                expiry_min,
                copies,
                renewed,
            },
            at5,
        ))
    }

    ghost lawful = { own_envelope-lawful };
}

// A queued row's numbers, and where its runs start.
#[derive(Clone, Copy)]
pub struct QueuedAt {
    pub created_s: u64,
    pub sealed: usize,
    pub idx: u32,
    pub gen_: u8,
    pub envelope: Option<EnvelopeAt>,
}

// The questions of a queued row; nothing is copied.
pub fn check_queued(version: u32, row: &[u8]) -> Result<QueuedAt, Question>
    ensures { answers result ≡ made (queued_at version) (read_row (queued version) row.now) }
{
    if version != rows::BLOB_VERSION {
        return Err(Question::Version);
    }
    let (created_s, at1) = fields::u64_at(row, 0)?;
    let (envelope, at2) = offsets::optional_at(row, at1)?;
    let (gen_, at3) = fields::byte_at(row, at2)?;
    let (idx, at4) = data::leb128_at(row, at3)?;
    if !sealed::sealed_queued(row.len() - at4) {
        return Err(Question::SealedLength);
    }
    Ok(QueuedAt {
        created_s,
        sealed: at4,
        idx,
        gen_,
        envelope,
    })
}

// The sealed text, as that part of the row itself.
pub fn queued_sealed(row: &[u8], at: QueuedAt) -> &[u8]
    ensures { result.now ≡ drop at.sealed row.now }
{
    sealed::sealed_text(row, at.sealed)
}
