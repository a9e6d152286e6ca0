// Queued rows read into a struct and written from it, as chain.rs and state.rs have them (Queued, OwnEnvelope, Outgoing). The sealed text stays in the row.
#![tactic(auto)]

ghost use Rattle.std.specs.Prelude.{◌≡◌, [], ◌∷◌, ◌++◌, ◌+◌, ◌≤◌, length};
ghost use Rattle.layout.specs.Form.{bytes_of, flag_byte};
ghost use Rattle.layout.specs.Layout.{read_row};
ghost use Rattle.layout.specs.Says.{answers, made};
ghost use Rattle.put.specs.Put.{Wrote};
ghost use Rattle.rows.specs.Values.{Queued};
ghost use Rattle.rows.specs.Rows.{queued};
ghost use Rattle.queued.specs.Queued.{queued_from, Offsets};
ghost use Rattle.queued_row.specs.Row.{queued_of, decoded, parts, OwnTyped, OutgoingTyped, own_image, image};

use layout::Question;
use queued::QueuedAt;
use sealed::SealedRow;

// The numbers of a sender's own envelope.
#[derive(Clone, Copy)]
pub struct OwnEnvelope {
    pub expiry_min: u32,
    pub copies: u8,
    pub renewed: bool,
}

// A queued row but for its sealed text. tag and s are the envelope's: 0 where there is none.
// Kept: what may not change: size and put speak of every Outgoing, also of one without an envelope whose tag and s are not 0; an Option of both has none such.
#[derive(Clone, Copy)]
pub struct Outgoing {
    pub created_s: u64,
    pub idx: u32,
    pub gen_: u8,
    pub envelope: Option<OwnEnvelope>,
    pub tag: [u8; 16],
    pub s: [u8; 16],
}

// What reading leaves: the sealed text stands from sealed_at on.
#[derive(Clone, Copy)]
pub struct QueuedRead {
    pub sealed_at: usize,
    pub queued: Outgoing,
}

// The row at the places that check_queued found.
fn queued_from(row: &[u8], at: QueuedAt) -> Outgoing
    requires { Offsets row.now at }
    ensures { result ≡ queued_of (queued_from row.now at) }
{
    let Some(envelope) = at.envelope else {
        return Outgoing {
            created_s: at.created_s,
            idx: at.idx,
            gen_: at.gen_,
            envelope: None,
            tag: [0; 16],
            s: [0; 16],
        };
    };
    Outgoing {
        created_s: at.created_s,
        idx: at.idx,
        gen_: at.gen_,
        envelope: Some(OwnEnvelope {
            expiry_min: envelope.expiry_min,
            copies: envelope.copies,
            renewed: envelope.renewed,
        }),
        tag: put::copy_array(row, envelope.tag),
        s: put::copy_array(row, envelope.s),
    }
}

pub fn read_queued(version: u32, row: &[u8]) -> Result<QueuedRead, Question>
    ensures { answers result ≡ made (decoded row.now) (read_row (queued version) row.now) }
{
    let at = queued::check_queued(version, row)?;
    Ok(QueuedRead {
        sealed_at: at.sealed,
        queued: queued_from(row, at),
    })
}

// What the types say, as facts.
fn own_typed(own: Option<OwnEnvelope>) -> bool
    ensures { OwnTyped own }
{
    match own {
        None => true,
        Some(envelope) => envelope.renewed,
    }
}

fn typed(outgoing: Outgoing) -> bool
    ensures { OutgoingTyped outgoing }
{
    own_typed(outgoing.envelope)
}

impl SealedRow for Outgoing {
    ghost value = { Queued };

    ghost layout = { queued };

    ghost parts = { parts };

    ghost image = { image };

    fn read(version: u32, row: &[u8]) -> Result<(usize, Self), Question> {
        let read = read_queued(version, row)?;
        Ok((read.sealed_at, read.queued))
    }

    fn size(self, sealed: &[u8]) -> Result<usize, Question> {
        typed(self);
        let n = sealed.len();
        if !sealed::sealed_queued(n) {
            return Err(Question::SealedLength);
        }
        let own_len = match self.envelope {
            None => 1,
            Some(_) => 39,
        };
        Ok(9 + own_len + data::leb128_len(self.idx) + n)
    }

    #[tactic(auto, using(crate::proofs::Image::room))]
    fn put(self, sealed: &[u8], out: &mut [u8], at: usize) -> usize {
        typed(self);
        let envelope_at = put::put_be(out, at, 8, self.created_s);
        let gen_at = put_own_envelope(out, envelope_at, self);
        let idx_at = put::put_byte(out, gen_at, self.gen_);
        let sealed_at = data::put_leb128(self.idx, out, idx_at);
        put::put_run(out, sealed_at, sealed, 0, sealed.len())
    }
}

// The flag, and the envelope if there is one.
#[tactic(auto, using(crate::proofs::Image::room))]
fn put_own_envelope(out: &mut [u8], at: usize, outgoing: Outgoing) -> usize
    requires { at + length (own_image outgoing) ≤ length out.old }
    ensures { (result ≡ at + length (own_image outgoing)) × Wrote out.old at (own_image outgoing) out.new result }
{
    typed(outgoing);
    let Some(envelope) = outgoing.envelope else {
        return put::put_byte(out, at, 0);
    };
    let tag_at = put::put_byte(out, at, 1);
    let s_at = put::put_array(out, tag_at, &outgoing.tag);
    let expiry_at = put::put_array(out, s_at, &outgoing.s);
    put_numbers(out, expiry_at, envelope)
}

// An envelope's numbers.
fn put_numbers(out: &mut [u8], at: usize, envelope: OwnEnvelope) -> usize
    requires { at + 6 ≤ length out.old }
    ensures { (result ≡ at + 6) × Wrote out.old at (bytes_of 4 envelope.expiry_min ++ ((envelope.copies ∷ []) ++ (flag_byte envelope.renewed ∷ []))) out.new result }
{
    let copies_at = put::put_be(out, at, 4, u64::from(envelope.expiry_min));
    let renewed_at = put::put_byte(out, copies_at, envelope.copies);
    put::put_byte(out, renewed_at, u8::from(envelope.renewed))
}
