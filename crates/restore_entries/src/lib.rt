// Entries as a lent slice of structs: one is copied out by value, one is stored, and one is looked for.
#![tactic(auto)]

ghost use Rattle.std.specs.Prelude.{◌≡◌, ◌-◌, length, set};
ghost use Rattle.store.specs.Store.{entry_at};
ghost use Rattle.store.specs.Find.{is_wanted, first_of};
ghost use Rattle.restore_entries.specs.Next.{next_in};

use store::{Entry, Wanted};

// The entry at an index; past the end all zeros.
// Kept: what may not change: the clauses of entry_at and find answer for every index, also past the end.
pub fn entry_at(entries: &[Entry], i: usize) -> Entry
    ensures { result ≡ entry_at entries.now i }
{
    if i < entries.len() {
        return entries[i];
    }
    Entry {
        id: 0,
        start: 0,
        len: 0,
        msgno: 0,
        version: 0,
        kind: 0,
    }
}

pub fn entry_count(entries: &[Entry]) -> usize
    ensures { result ≡ length entries.now }
{
    entries.len()
}

// Stores an entry at an index, and answers the next index; an index past the end changes nothing, and is answered itself.
pub fn set_entry(entries: &mut [Entry], i: usize, e: Entry) -> usize
    ensures { (result ≡ next_in entries.old i) × (entries.new ≡ set entries.old i e) }
{
    if i < entries.len() {
        entries[i] = e;
        return i + 1;
    }
    i
}

fn is_wanted(e: Entry, wanted: Wanted) -> bool
    ensures { result ≡ is_wanted wanted e }
{
    e.kind == wanted.kind
        && e.id == wanted.id
        && (wanted.kind != store::QUEUED || e.msgno == wanted.msgno)
}

fn is_wanted_at(entries: &[Entry], wanted: Wanted, i: usize) -> bool
    ensures { result ≡ is_wanted wanted (entry_at entries.now i) }
{
    let e = entry_at(entries, i);
    is_wanted(e, wanted)
}

// The first of the entries from `from` on, below `upto`, that is wanted; `upto` where none is, and `from` where there are none to look at. Those past the end are
// all zeros.
// Kept: what may not change: the clause answers upto, or from, where there is none; and the loop goes by index, since it looks past the end too.
pub fn find(entries: &[Entry], wanted: Wanted, from: usize, upto: usize) -> usize
    ensures { result ≡ first_of entries.now wanted from (upto - from) }
{
    for i in from..upto {
        if is_wanted_at(entries, wanted, i) {
            return i;
        }
    }
    from.max(upto)
}
