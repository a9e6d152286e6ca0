// Question 34: whether a store would pass 1 to 33 and 54, as it stands or with opened fields in place of a contact's row. That row is written nowhere: the fields are
// asked what a writer asks, the store with the row left out, and the contact's queued rows 29 by the lent numbers.
#![tactic(auto)]

ghost use Rattle.std.specs.Prelude.{◌≡◌, is_some, is_ok};
ghost use Rattle.contact.specs.Contact.{read_in};
ghost use Rattle.calls_find.specs.Sought.{sought_in};
ghost use Rattle.calls_store.specs.Passes.{Writable, WritableFor, omitted_for, count_for, yes_for, passed_as, passes_for};

use contact::{Contact, ListsRef};
use restore::Granted;
use rows::ContactId;
use store::{Entry, OmittedContact, Refusal, StoreRef};

// A contact's entry, and the answer to 34.
// Kept: `passes` promises the entry also where 34 is a no, so that the answer stands beside it and not around it.
#[derive(Clone, Copy)]
pub struct Passed {
    pub sought: Option<Entry>,
    pub passed: bool,
}

// What 34 is asked of: of nothing, since nothing is restored or opened; of the store as it stands; or with the opened fields in place of a contact's row.
// Kept: no plainer as an Option of an enum of two, since each match names the three.
#[derive(Clone, Copy)]
pub enum Asking {
    Nothing,
    Stored,
    Opened,
}

// Whether the opened fields could be written.
fn is_writable(contact: Contact, lists: ListsRef<'_>) -> bool
    ensures { Writable contact (read_in lists.entry) result }
{
    contact_image::typed(contact);
    contact_image::lists_typed(lists);
    contact_row::contact_size(contact, lists).is_ok()
}

// 34 asks that of opened fields alone; of anything else the answer is no.
fn is_writable_for(asking: Asking, contact: Contact, lists: ListsRef<'_>) -> bool
    ensures { WritableFor asking contact (read_in lists.entry) result }
{
    match asking {
        Asking::Nothing | Asking::Stored => false,
        Asking::Opened => is_writable(contact, lists),
    }
}

fn omitted_for(asking: Asking, id: ContactId, contact: Contact) -> Option<OmittedContact>
    ensures { result ≡ omitted_for asking id contact }
{
    match asking {
        Asking::Nothing | Asking::Stored => None,
        Asking::Opened => Some(OmittedContact {
            contact: id,
            sent_msgno: contact.sent_msgno,
        }),
    }
}

fn unacked_count(asking: Asking, contact: Contact) -> usize
    ensures { result ≡ count_for asking contact }
{
    match asking {
        Asking::Nothing | Asking::Stored => 0,
        Asking::Opened => contact.unacked,
    }
}

// Every question of the store is a yes; with opened fields in place of a row the fields could be written too, the contact is in the store, and no queued row has
// an unacked number.
fn answer(
    asking: Asking,
    writable: bool,
    sought: Option<Entry>,
    end: Result<Granted, Refusal>,
    among: bool,
) -> bool
    ensures { result ≡ yes_for asking writable (is_some sought) (is_ok end) among }
{
    match asking {
        Asking::Nothing => false,
        Asking::Stored => end.is_ok(),
        Asking::Opened => writable && sought.is_some() && end.is_ok() && !among,
    }
}

fn passed_as(sought: Option<Entry>, passed: bool) -> Passed
    ensures { result ≡ passed_as sought passed }
{
    Passed { sought, passed }
}

// 34. For open the store passes as it stands; for the other calls no count is above its list's length, and it passes with the opened fields in place of
// contact id's row. That contact is sought in the store.
pub fn passes(
    store: StoreRef<'_>,
    asking: Asking,
    id: ContactId,
    contact: Contact,
    lists: ListsRef<'_>,
) -> Passed
    ensures { result ≡ passed_as (sought_in store.entry.entries.now id.0) (passes_for asking store.entry.run.now store.entry.entries.now id contact (read_in lists.entry)) }
{
    let sought = calls_find::contact_in(store.entries, id);
    let writable = is_writable_for(asking, contact, lists);
    let omitted = omitted_for(asking, id, contact);
    let end = restore::questions(store, omitted);
    let count = unacked_count(asking, contact);
    let among = calls_find::queued_among(store.entries, id, lists.unacked, count);
    let passed = answer(asking, writable, sought, end, among);
    passed_as(sought, passed)
}
