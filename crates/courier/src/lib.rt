// Courier rows: their questions, as state.rs has them (Held, Tombstone). The sealed text stays in the row.
#![tactic(auto)]

ghost use Rattle.std.specs.Prelude.{◌≡◌, drop};
ghost use Rattle.layout.specs.Field.{read_at};
ghost use Rattle.layout.specs.Layout.{group, read_row};
ghost use Rattle.layout.specs.Says.{says, answers, made};
ghost use Rattle.rows.specs.Answers.{named};
ghost use Rattle.rows.specs.Rows.{carried, tombstone, courier};
ghost use Rattle.offsets.specs.Offset.{located};
ghost use Rattle.courier.specs.Courier.{kind_of, kind_byte, carried_at, carried_says, tombstone_at, held_at, sealed_at};

use fields::Code;
use layout::Question;
use rows::ContactId;

// What a courier row holds.
#[derive(Clone, Copy, Debug, PartialEq, Eq)]
pub enum Kind {
    Carried = 0,
    Tombstone = 1,
}

// ---- the kinds' codes in a row: each byte that names none is refused

impl TryFrom<u8> for Kind {
    type Error = Question;

    ghost try_from_gives = { λ code result. result ≡ named (kind_of code) };

    fn try_from(code: u8) -> Result<Kind, Question> {
        match code {
            0 => Ok(Kind::Carried),
            1 => Ok(Kind::Tombstone),
            _ => Err(Question::Code),
        }
    }
}

impl Code for Kind {
    ghost of = { kind_of };

    ghost to = { kind_byte };

    ghost by_table = { λ _ _ gives. gives };
}

impl From<Kind> for u8 {
    ghost from_gives = { λ kind code. code ≡ kind_byte kind };

    fn from(kind: Kind) -> u8 {
        // Kept: the new form is no plainer: a match would say each code a second time.
        kind as u8
    }
}

// The numbers of a carried envelope, and where its runs start.
#[derive(Clone, Copy)]
pub struct CarriedAt {
    pub depositor: ContactId,
    pub tag: usize,
    pub c: usize,
    pub sealed: usize,
    pub expiry_min: u32,
    pub copies: u8,
}

// The numbers of a tombstone, and where its runs start.
#[derive(Clone, Copy)]
pub struct TombstoneAt {
    pub tag: usize,
    pub s: usize,
    pub expiry_min: u32,
}

#[derive(Clone, Copy)]
pub enum HeldAt {
    Carried(CarriedAt),
    Tombstone(TombstoneAt),
}

// What is carried, field by field: expiry and copies are asked before the next field is taken. It ends where the row ends.
fn carried_at(row: &[u8], at: usize) -> Result<CarriedAt, Question>
    ensures { carried_says row.now result ≡ located (carried_at at) (read_at (group carried) row.now at) }
{
    let (depositor, at1) = fields::u64_at(row, at)?;
    let (tag, at2) = fields::run_at(row, at1, 16)?;
    let (c, at3) = fields::run_at(row, at2, 16)?;
    let (expiry_min, at4) = fields::u32_at(row, at3)?;
    if expiry_min == 0 {
        return Err(Question::CarriedExpiry);
    }
    let (copies, at5) = fields::byte_at(row, at4)?;
    if copies == 0 {
        return Err(Question::CarriedCopies);
    }
    if !sealed::sealed_carried(row.len() - at5) {
        return Err(Question::SealedLength);
    }
    Ok(CarriedAt {
        depositor: ContactId(depositor),
        tag,
        c,
        sealed: at5,
        expiry_min,
        copies,
    })
}

// A tombstone is not asked for its expiry.
fn tombstone_at(row: &[u8], at: usize) -> Result<(TombstoneAt, usize), Question>
    ensures { says result ≡ located (tombstone_at at) (read_at (group tombstone) row.now at) }
{
    let (tag, at1) = fields::run_at(row, at, 16)?;
    let (s, at2) = fields::run_at(row, at1, 16)?;
    let (expiry_min, at3) = fields::u32_at(row, at2)?;
    Ok((TombstoneAt { tag, s, expiry_min }, at3))
}

// The questions of a courier row; nothing is copied.
pub fn check_courier(version: u32, row: &[u8]) -> Result<HeldAt, Question>
    ensures { answers result ≡ made held_at (read_row (courier version) row.now) }
{
    if version != rows::BLOB_VERSION {
        return Err(Question::Version);
    }
    let (kind, at) = fields::code_at(row, 0)?;
    match kind {
        Kind::Carried => {
            let held = carried_at(row, at)?;
            Ok(HeldAt::Carried(held))
        }
        Kind::Tombstone => {
            let (held, next) = tombstone_at(row, at)?;
            if next < row.len() {
                return Err(Question::RowEnd);
            }
            Ok(HeldAt::Tombstone(held))
        }
    }
}

// Where the sealed text starts: of a tombstone, at the row's end.
pub fn sealed_at(row: &[u8], at: HeldAt) -> usize
    ensures { result ≡ sealed_at row.now at }
{
    match at {
        HeldAt::Carried(carried) => carried.sealed,
        HeldAt::Tombstone(_) => row.len(),
    }
}

// The sealed text, as that part of the row itself.
pub fn courier_sealed(row: &[u8], at: HeldAt) -> &[u8]
    ensures { result.now ≡ drop (sealed_at row.now at) row.now }
{
    let from = sealed_at(row, at);
    sealed::sealed_text(row, from)
}
