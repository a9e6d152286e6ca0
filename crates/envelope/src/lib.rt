// Courier envelopes, as courier.rs has them: Envelope with decode, encode and valid. The sealed text ct stays in the body.
#![tactic(auto)]

ghost use Rattle.std.specs.Prelude.{◌≡◌, ◌+◌, ◌-◌, ◌≤◌, length, leb};
ghost use Rattle.layout.specs.Layout.{read_row};
ghost use Rattle.layout.specs.Write.{writes};
ghost use Rattle.put.specs.Put.{Wrote};
ghost use Rattle.layout.specs.Says.{answers, made, leaves};
ghost use Rattle.envelope.specs.Envelope.{body, read_of, valid_at, image, storable, EnvelopeTyped};

use layout::Question;

// An envelope but for ct: tag, c, expiry in Unix minutes, copies.
#[derive(Clone, Copy)]
pub struct Envelope {
    pub expiry_min: u32,
    pub copies: u8,
    pub tag: [u8; 16],
    pub c: [u8; 16],
}

// An envelope that was decoded, and where its ct starts.
#[derive(Clone, Copy)]
pub struct EnvelopeRead {
    pub ct_at: usize,
    pub envelope: Envelope,
}

// How long an envelope is before ct.
pub const ENVELOPE_HEADER: usize = 37;

impl Envelope {
    // Only the fields before ct are asked for; ct is judged by valid.
    pub fn decode(input: &[u8]) -> Result<EnvelopeRead, Question>
        ensures { answers result ≡ made (read_of input.now) (read_row body input.now) }
    {
        let (tag_at, at1) = fields::run_at(input, 0, 16)?;
        let (c_at, at2) = fields::run_at(input, at1, 16)?;
        let (expiry_min, at3) = fields::u32_at(input, at2)?;
        let (copies, at4) = fields::byte_at(input, at3)?;
        Ok(EnvelopeRead {
            ct_at: at4,
            envelope: Envelope {
                expiry_min,
                copies,
                tag: put::copy_array(input, tag_at),
                c: put::copy_array(input, c_at),
            },
        })
    }

    // A courier accepts it: ct, of this length, is of a courier's size, there are copies, and it has not expired.
    pub fn valid(self, ct_len: usize, now_min: u32) -> bool
        ensures { result ≡ valid_at self ct_len now_min }
    {
        sealed::sealed_carried(ct_len) && self.copies != 0 && now_min < self.expiry_min
    }

    // Asks for room only; a refusal writes nothing.
    pub fn encode(self, ct: &[u8], out: &mut [u8]) -> Result<usize, Question>
        ensures { leaves result out.new ≡ writes body (image self ct.now) out.old }
    {
        typed(self);
        let n = put_envelope(out, 0, self, ct);
        if n == 0 {
            return Err(Question::Output);
        }
        Ok(n)
    }
}

// What the struct's type says of it, as a fact.
fn typed(envelope: Envelope) -> bool
    ensures { EnvelopeTyped envelope }
{
    true
}

// Whether an envelope with a ct of this length fits into so many bytes.
fn envelope_fits(ct_len: usize, room: usize) -> bool
    ensures { result ≡ leb (37 + ct_len) room }
{
    ENVELOPE_HEADER <= room && ct_len <= room - ENVELOPE_HEADER
}

// Writes an envelope from a place on; the place behind it. Nothing is written where there is no room.
pub fn put_envelope(out: &mut [u8], at: usize, envelope: Envelope, ct: &[u8]) -> usize
    ensures { Wrote out.old at (storable envelope ct.now (length out.old - at)) out.new result }
{
    typed(envelope);
    let len = out.len();
    if len < at || !envelope_fits(ct.len(), len - at) {
        return at;
    }
    put_body(out, at, envelope, ct)
}

// The body, where there is room.
#[tactic(auto, using(crate::proofs::Image::room))]
fn put_body(out: &mut [u8], at: usize, envelope: Envelope, ct: &[u8]) -> usize
    requires { at + length (image envelope ct.now) ≤ length out.old }
    ensures { (result ≡ at + length (image envelope ct.now)) × Wrote out.old at (image envelope ct.now) out.new result }
{
    typed(envelope);
    let tag = envelope.tag;
    let c_at = put::put_array(out, at, &tag);
    let c = envelope.c;
    let expiry_at = put::put_array(out, c_at, &c);
    let copies_at = put::put_be(out, expiry_at, 4, u64::from(envelope.expiry_min));
    let ct_at = put::put_byte(out, copies_at, envelope.copies);
    put::put_run(out, ct_at, ct, 0, ct.len())
}
