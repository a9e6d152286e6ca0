// What is looked for among lent entries: a contact's entry, and its queued ones.
#![tactic(auto)]

ghost use Rattle.std.specs.Prelude.{◌≡◌, cond, take};
ghost use Rattle.std.specs.List.{list_any};
ghost use Rattle.store.specs.Kinds.{CONTACT, QUEUED};
ghost use Rattle.store.specs.Store.{is_of};
ghost use Rattle.store.specs.Line.{queued_of};
ghost use Rattle.calls_find.specs.Sought.{sought_in, is_found, is_queued_found, queued_found};

use rows::ContactId;
use store::Entry;

// ---- a contact's first entry

// Kept: the new form is no plainer: a body of one line, which its name says; is_queued has the other kind.
fn is_contact(e: Entry, id: ContactId) -> bool
    ensures { result ≡ is_of CONTACT id.0 e }
{
    e.kind == store::CONTACT && e.id == id.0
}

// The first entry of this contact.
pub fn contact_in(entries: &[Entry], id: ContactId) -> Option<Entry>
    ensures { result ≡ sought_in entries.now id.0 }
{
    entries.iter().find(|e| is_contact(**e, id)).copied()
}

// ---- how many rows of a contact are queued

fn is_queued(e: Entry, id: ContactId) -> bool
    ensures { result ≡ is_of QUEUED id.0 e }
{
    e.kind == store::QUEUED && e.id == id.0
}

// How many rows of this contact are queued, counted only where that is wanted.
pub fn queued_of(entries: &[Entry], id: ContactId, wanted: bool) -> u64
    ensures { result ≡ cond wanted (queued_of id.0 entries.now) 0 }
{
    if !wanted {
        return 0;
    }
    // Kept: the new form is no plainer: std has no From<usize> for u64, and try_from has an error that never comes.
    entries.iter().filter(|e| is_queued(**e, id)).count() as u64
}

// ---- whether a queued row of a contact has one of its unacked numbers

// By halves: right where the numbers rise.
// Kept: `is_found`, which public clauses cite, says where the search looks; the library's `binary_search` looks elsewhere, and so may find less where they don't rise.
fn is_among(numbers: &[u32], msgno: u32) -> bool
    ensures { result ≡ is_found numbers.now msgno }
{
    let mut low: usize = 0;
    let mut high = numbers.len();
    while low < high {
        let mid = low + (high - low) / 2;
        let number = numbers[mid];
        if number == msgno {
            return true;
        }
        if number < msgno {
            low = mid + 1;
        } else {
            high = mid;
        }
    }
    false
}

fn is_queued_among(e: Entry, id: ContactId, numbers: &[u32]) -> bool
    ensures { result ≡ is_queued_found id.0 numbers.now e }
{
    is_queued(e, id) && is_among(numbers, e.msgno)
}

fn any_among(entries: &[Entry], id: ContactId, numbers: &[u32]) -> bool
    ensures { result ≡ list_any (is_queued_found id.0 numbers.now) entries.now }
{
    entries.iter().any(|e| is_queued_among(*e, id, numbers))
}

// Whether a queued row of this contact has one of the first `count` unacked numbers, by halves. A count above the list's length counts as the length; of no numbers
// none is looked for.
// Kept: no heap: the list is lent, longer than its count.
pub fn queued_among(entries: &[Entry], id: ContactId, unacked: &[u32], count: usize) -> bool
    ensures { result ≡ queued_found id.0 (take count unacked.now) entries.now }
{
    let numbers = &unacked[..count.min(unacked.len())];
    if numbers.is_empty() {
        return false;
    }
    any_among(entries, id, numbers)
}
