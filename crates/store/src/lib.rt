// What restore is handed, a run of bytes and its entries, and what refuses it.
#![tactic(auto)]

ghost use Rattle.std.specs.Prelude.{◌≡◌};
ghost use Rattle.layout.specs.Questions.{number_of};
ghost use Rattle.store.specs.Store.{within, part_of};
ghost use Rattle.store.specs.Omitted.{is_omitted};

use layout::{Numbered, Question};
use rows::ContactId;

// Where a row stands in the run, and of which kind, contact or slot, message and version it is.
#[repr(C)]
#[derive(Clone, Copy)]
pub struct Entry {
    pub id: u64,
    pub start: usize,
    pub len: usize,
    pub msgno: u32,
    pub version: u32,
    pub kind: u32,
}

// A store as it is lent: the run of bytes, and an entry for each row in it.
#[derive(Clone, Copy)]
pub struct StoreRef<'a> {
    pub run: &'a [u8],
    pub entries: &'a [Entry],
}

// The first no: the question, or what a caller has in its stead, and the place where it is asked, an entry's index.
#[derive(Clone, Copy, Debug, PartialEq, Eq)]
pub struct Refusal<R = Question> {
    pub question: R,
    pub place: usize,
}

impl Refusal {
    // The same, where the question is told by something else.
    pub fn told_by<R: Numbered>(self) -> Refusal<R>
        ensures { (R.number result.question ≡ number_of self.question) × (result.place ≡ self.place) }
    {
        Refusal {
            question: R::from_question(self.question),
            place: self.place,
        }
    }
}

// The contact whose row is left out while the questions are asked, and what is seen of it.
#[derive(Clone, Copy)]
pub struct OmittedContact {
    pub contact: ContactId,
    pub sent_msgno: u32,
}

// An entry's kind.
// Kept: C lends entries with any number here, and 1 and 6 refuse the others, so `Entry.kind` stays a number; these name it.
pub const DEVICE: u32 = 0;

pub const CONTACT: u32 = 1;

pub const QUEUED: u32 = 2;

pub const COURIER: u32 = 3;

// An entry that is looked for: of this kind, and this contact or slot; where the kind is queued, of this message too.
#[derive(Clone, Copy)]
pub struct Wanted {
    pub id: u64,
    pub msgno: u32,
    pub kind: u32,
}

// 2, with no sum that could overflow.
pub fn is_within(e: Entry, size: usize) -> bool
    ensures { result ≡ within size e }
{
    if size < e.len {
        return false;
    }
    e.start <= size - e.len
}

// An entry's part of the run; nothing where it is not within the run.
pub fn part_of(run: &[u8], e: Entry) -> &[u8]
    ensures { result.now ≡ part_of run.now e }
{
    if is_within(e, run.len()) {
        let start = e.start;
        let end = start + e.len;
        return &run[start..end];
    }
    &run[..0]
}

// Whether an entry is the one whose row is left out.
pub fn is_omitted(e: Entry, omitted: Option<OmittedContact>) -> bool
    ensures { result ≡ is_omitted omitted e }
{
    let Some(left_out) = omitted else {
        return false;
    };
    e.kind == CONTACT && e.id == left_out.contact.0
}
