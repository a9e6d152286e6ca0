// Rows read, and written again to the front of an output: what reading a row asks, then room for it. A refusal changes nothing.
#![tactic(auto)]

ghost use Rattle.std.specs.Prelude.{◌≡◌, ℕ, List, drop};
ghost use Rattle.layout.specs.Layout.{accepted, read_row};
ghost use Rattle.layout.specs.RowLaws.{Bytes};
ghost use Rattle.layout.specs.Write.{stored, writes};
ghost use Rattle.rows.specs.Rows.{device, queued, courier, contact};
ghost use Rattle.layout.specs.Says.{made, written_says, leaves};
ghost use Rattle.layout.specs.Questions.{number_of};
ghost use Rattle.queued_row.proofs.RoundTrip as queued_trip;
ghost use Rattle.courier_row.proofs.RoundTrip as courier_trip;
ghost use Rattle.contact.specs.Check.{contact_from};
ghost use Rattle.contact.specs.Contact.{contact_of, read_in, held_in, SameLists};
ghost use Rattle.contact_image.specs.Row.{writes_contact};
ghost use Rattle.rewrite.specs.Rewrite as spec;
ghost use Rattle.rewrite.specs.Rewrite.{without_room, rewrites};

use contact::{CheckedRow, ListsMut, ListsRef};
use courier_row::Held;
use layout::Question;
use queued_row::Outgoing;
use sealed::SealedRow;

pub fn rewrite_device(version: u32, row: &[u8], out: &mut [u8]) -> Result<usize, Question>
    ensures { leaves result out.new ≡ writes (device version) row.now out.old }
{
    device_row::read_device(version, row)?.row(out)
}

// A row with a sealed text that has the same bytes once it was read and written again.
trait ReadBack: SealedRow {
    ghost read_write: { (version : ℕ) (row : List ℕ) → Bytes row → (read : ℕ × Self) → accepted read ≡ made (Self.parts row) (read_row (Self.layout version) row)
        → (out : List ℕ) → writes (Self.layout 3) (Self.image read.1 (drop read.0 row)) out ≡ stored row out };
}

impl ReadBack for Outgoing {
    ghost read_write = { queued_trip.read-write-parts };
}

impl ReadBack for Held {
    ghost read_write = { courier_trip.read-write-parts };
}

fn rewrite_sealed<R: ReadBack>(version: u32, row: &[u8], out: &mut [u8]) -> Result<usize, Question>
    ensures { leaves result out.new ≡ writes (R.layout version) row.now out.old }
{
    let (sealed_at, read) = R::read(version, row)?;
    read.row(sealed::sealed_text(row, sealed_at), out)
}

pub fn rewrite_queued(version: u32, row: &[u8], out: &mut [u8]) -> Result<usize, Question>
    ensures { leaves result out.new ≡ writes (queued version) row.now out.old }
{
    rewrite_sealed::<Outgoing>(version, row, out)
}

pub fn rewrite_courier(version: u32, row: &[u8], out: &mut [u8]) -> Result<usize, Question>
    ensures { leaves result out.new ≡ writes (courier version) row.now out.old }
{
    rewrite_sealed::<Held>(version, row, out)
}

// The refusal where the output is too short for the row: what reading it asks, 36, then 40.
fn without_room(version: u32, row: &[u8], lists: ListsRef<'_>) -> Question
    ensures { number_of result ≡ without_room (read_row (contact version) row.now) (read_in lists.entry) }
{
    let at = match contact::check_contact(version, row) {
        Ok(at) => at,
        Err(refusal) => return refusal,
    };
    if contact::long_enough(at, lists) {
        return Question::Output;
    }
    Question::Lists
}

// Reads a contact row into the lent lists too. Room for the row is asked before the first list is filled.
pub fn rewrite_contact(
    version: u32,
    row: &[u8],
    lists: &mut ListsMut<'_>,
    out: &mut [u8],
) -> Result<usize, Question>
    ensures { (spec.leaves (written_says result) (held_in lists.new) out.new ≡ rewrites version row.now (held_in lists.old) out.old) × SameLists lists.old lists.new }
{
    if out.len() < row.len() {
        return Err(without_room(version, row, lists.read()));
    }
    let checked = CheckedRow::check(version, row)?;
    checked.fill(lists)?;
    write_again(checked, lists.read(), out)
}

// The contact of a checked row, written. Apart, since a function first clears the places of its locals: here the contact's.
fn write_again(
    checked: CheckedRow<'_>,
    lists: ListsRef<'_>,
    out: &mut [u8],
) -> Result<usize, Question>
    ensures { leaves result out.new ≡ writes_contact (contact_of (contact_from checked.entry.row.now checked.entry.at)) (read_in lists.entry) out.old }
{
    contact_row::write_contact(checked.contact(), lists, out)
}
