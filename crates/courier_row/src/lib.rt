// Courier rows read into a struct and written from it, as state.rs has them (Held, Tombstone). The sealed text stays in the row.
#![tactic(auto)]

ghost use Rattle.std.proofs.Common.{inl, inr};
ghost use Rattle.std.specs.Prelude.{◌≡◌, ◌+◌, ◌≤◌, length};
ghost use Rattle.layout.specs.Layout.{read_row};
ghost use Rattle.put.specs.Put.{Wrote};
ghost use Rattle.rows.specs.Values.{Courier};
ghost use Rattle.rows.specs.Rows.{courier};
ghost use Rattle.layout.specs.Says.{answers, made};
ghost use Rattle.courier.specs.Courier.{carried_from, CarriedOffsets, tombstone_from, TombstoneOffsets, held_from, Offsets};
ghost use Rattle.courier_row.specs.Row.{held_of, read_of, parts, HeldTyped, image, carried_image, tombstone_image};

use courier::{CarriedAt, HeldAt, Kind, TombstoneAt};
use envelope::Envelope;
use layout::Question;
use rows::ContactId;
use sealed::SealedRow;

// A courier row but for its sealed text. Carried: depositor, tag, c, expiry_min, copies. A tombstone: tag, s, expiry_min. 0 stands where the kind leaves a field out.
// Kept: what may not change: size and put speak of every Held, also of one with fields that its kind leaves out and that are not 0; an enum has none such.
#[derive(Clone, Copy)]
pub struct Held {
    pub depositor: ContactId,
    pub expiry_min: u32,
    pub copies: u8,
    pub kind: Kind,
    pub tag: [u8; 16],
    pub c: [u8; 16],
    pub s: [u8; 16],
}

// A courier row that was read, and where its sealed text starts: of a tombstone, at the row's end.
#[derive(Clone, Copy)]
pub struct HeldRead {
    pub sealed_at: usize,
    pub held: Held,
}

// What the row holds at the places that check_courier found.
fn carried_from(row: &[u8], at: CarriedAt) -> Held
    requires { CarriedOffsets row.now at }
    ensures { result ≡ held_of (inl (carried_from row.now at)) }
{
    let tag = put::copy_array(row, at.tag);
    let c = put::copy_array(row, at.c);
    Held {
        depositor: at.depositor,
        expiry_min: at.expiry_min,
        copies: at.copies,
        kind: Kind::Carried,
        tag,
        c,
        s: [0; 16],
    }
}

fn tombstone_from(row: &[u8], at: TombstoneAt) -> Held
    requires { TombstoneOffsets row.now at }
    ensures { result ≡ held_of (inr (tombstone_from row.now at)) }
{
    let tag = put::copy_array(row, at.tag);
    let s = put::copy_array(row, at.s);
    Held {
        depositor: ContactId(0),
        expiry_min: at.expiry_min,
        copies: 0,
        kind: Kind::Tombstone,
        tag,
        c: [0; 16],
        s,
    }
}

fn held_from(row: &[u8], at: HeldAt) -> Held
    requires { Offsets row.now at }
    ensures { result ≡ held_of (held_from row.now at) }
{
    match at {
        HeldAt::Carried(carried) => carried_from(row, carried),
        HeldAt::Tombstone(tombstone) => tombstone_from(row, tombstone),
    }
}

pub fn read_courier(version: u32, row: &[u8]) -> Result<HeldRead, Question>
    ensures { answers result ≡ made (read_of row.now) (read_row (courier version) row.now) }
{
    let at = courier::check_courier(version, row)?;
    Ok(HeldRead {
        sealed_at: courier::sealed_at(row, at),
        held: held_from(row, at),
    })
}

// What the struct's type says of it, as a fact.
fn typed(held: Held) -> bool
    ensures { HeldTyped held }
{
    true
}

// A tombstone has no use for the sealed text that it is written with.
impl SealedRow for Held {
    ghost value = { Courier };

    ghost layout = { courier };

    ghost parts = { parts };

    ghost image = { image };

    fn read(version: u32, row: &[u8]) -> Result<(usize, Self), Question> {
        let read = read_courier(version, row)?;
        Ok((read.sealed_at, read.held))
    }

    fn size(self, sealed: &[u8]) -> Result<usize, Question> {
        typed(self);
        let Kind::Carried = self.kind else {
            return Ok(37);
        };
        if self.expiry_min == 0 {
            return Err(Question::CarriedExpiry);
        }
        if self.copies == 0 {
            return Err(Question::CarriedCopies);
        }
        let n = sealed.len();
        if !sealed::sealed_carried(n) {
            return Err(Question::SealedLength);
        }
        Ok(46 + n)
    }

    fn put(self, sealed: &[u8], out: &mut [u8], at: usize) -> usize {
        match self.kind {
            Kind::Carried => put_carried(out, at, self, sealed),
            Kind::Tombstone => put_tombstone(out, at, self),
        }
    }
}

#[tactic(auto, using(crate::proofs::Image::room))]
fn put_tombstone(out: &mut [u8], at: usize, held: Held) -> usize
    requires { at + length (tombstone_image held) ≤ length out.old }
    ensures { (result ≡ at + length (tombstone_image held)) × Wrote out.old at (tombstone_image held) out.new result }
{
    typed(held);
    let tag_at = put::put_byte(out, at, u8::from(Kind::Tombstone));
    let tag = held.tag;
    let s_at = put::put_array(out, tag_at, &tag);
    let s = held.s;
    let expiry_at = put::put_array(out, s_at, &s);
    put::put_be(out, expiry_at, 4, u64::from(held.expiry_min))
}

#[tactic(auto, using(crate::proofs::Image::room))]
fn put_carried(out: &mut [u8], at: usize, held: Held, sealed: &[u8]) -> usize
    requires { at + length (carried_image held sealed.now) ≤ length out.old }
    ensures { (result ≡ at + length (carried_image held sealed.now)) × Wrote out.old at (carried_image held sealed.now) out.new result }
{
    typed(held);
    let depositor_at = put::put_byte(out, at, u8::from(Kind::Carried));
    let envelope_at = put::put_be(out, depositor_at, 8, held.depositor.0);
    let tag = held.tag;
    let c = held.c;
    let envelope = Envelope {
        expiry_min: held.expiry_min,
        copies: held.copies,
        tag,
        c,
    };
    envelope::put_envelope(out, envelope_at, envelope, sealed)
}
