// Restore: questions 1 to 33 and 54 of a run of bytes and an entry for each row. It writes to nothing.
#![tactic(auto)]

ghost use Rattle.std.specs.Prelude.{◌≡◌, ◌+◌, ◌≤◌, ◌<◌, length};
ghost use Rattle.store.specs.Rounds.{Going, turns, asked_says};
ghost use Rattle.store.specs.Store.{store_of, restore};
ghost use Rattle.store.specs.Duplicates.{first_duplicate};
ghost use Rattle.restore_rounds.specs.Rounds.{round_of};
ghost use Rattle.restore_across.specs.Across as across;
ghost use Rattle.restore_across.specs.Across.{across_says, OwnerAt};
ghost use Rattle.restore_across.specs.At.{read_so, At};
ghost use Rattle.restore.specs.Index.{place_in, hint_in};
ghost use Rattle.restore.specs.Restored.{begun_with, answered, questioned, restored_says};

use layout::Question;
use restore_across::Progress;
use restore_rounds::Round;
use store::{Entry, OmittedContact, Refusal, StoreRef};

// What a store is granted that no question refuses.
#[derive(Clone, Copy, Debug, PartialEq, Eq)]
pub struct Granted {
    pub next_contact: u64,
    pub next_slot: u64,
}

// A store, with the row of a contact left out, or with none, of which every answer to 1 to 24 and 54 was a yes.
#[derive(Clone, Copy)]
struct ReadStore<'a> {
    store: StoreRef<'a>,
    omitted: Option<OmittedContact>,
    ghost read: { read_so store.run.now store.entries.now omitted ≡ Going },
}

// Fewer entries than this are few: a small filter and index are enough for them.
const FEW: usize = 1024;

// No entries: 1 at 0.
fn begin(n: usize) -> Result<(), Refusal>
    ensures { asked_says result ≡ begun_with n }
{
    if n == 0 {
        return Err(Refusal {
            question: Question::Order,
            place: 0,
        });
    }
    Ok(())
}

// A round of all entries.
fn turns(store: StoreRef<'_>, omitted: Option<OmittedContact>, round: Round) -> Result<(), Refusal>
    ensures { asked_says result ≡ turns (round_of round store.entry.run.now store.entry.entries.now omitted) 0 (length store.entry.entries.now) Going }
{
    for (i, e) in store.entries.iter().enumerate() {
        let before = store.entries[i.saturating_sub(1)];
        restore_rounds::going_turn(store.run, omitted, before, *e, round, i)?;
    }
    Ok(())
}

// ---- an index of contacts: at an id's place where a contact with such an id may stand. Nothing is known of what it holds, so what it says is compared

// The place of an entry's id.
fn place_of(index: &[u32], e: Entry) -> usize
    requires { 0 < length index.now }
    ensures { result ≡ place_in index.now e }
{
    // Kept: the new form is no plainer: std has no From from u64 to usize, and try_from has an error that never comes
    e.id as usize & (index.len() - 1)
}

// Notes where a contact stands.
fn note(index: &mut [u32], e: Entry, i: usize) {
    if e.kind != store::CONTACT || index.is_empty() {
        return;
    }
    let Ok(place) = u32::try_from(i) else {
        return;
    };
    let at = place_of(index, e);
    index[at] = place;
}

// Notes every contact.
fn note_all(entries: &[Entry], index: &mut [u32]) {
    for (i, e) in entries.iter().enumerate() {
        note(index, *e, i);
    }
}

// Where the contact of a queued row may stand; 0 where `upto` is, since nothing is looked for then.
fn hint_of(index: &[u32], e: Entry, upto: usize) -> usize
    ensures { result ≡ hint_in index.now e upto }
{
    if upto == 0 || index.is_empty() {
        return 0;
    }
    // Kept: the new form is no plainer: std has no From from u32 to usize, and try_from has an error that never comes
    index[place_of(index, e)] as usize
}

// Where the contact of a queued row stands, below `upto`: at the kept index, or where the index says; else from the kept index on, and then from the start. `upto`
// where there is none.
fn owner_at(entries: &[Entry], index: &[u32], e: Entry, upto: usize, latest: usize) -> usize
    ensures { OwnerAt entries.now e upto result }
{
    let wanted = restore_across::contact_of(e);
    let hint = hint_of(index, e, upto);
    let a = restore_entries::entry_at(entries, latest);
    let b = restore_entries::entry_at(entries, hint);
    let p = restore_across::tried(e, a, latest, b, hint, upto);
    let near = restore_across::near_limit(p, latest, upto);
    let q = restore_entries::find(entries, wanted, near, upto);
    let far = restore_across::far_limit(p, q, near, upto);
    let o = restore_entries::find(entries, wanted, 0, far);
    restore_across::chosen(p, q, o, far, upto)
}

// ---- 25 to 33; `duplicate` is the first entry that has a duplicate
// Kept: the new form is no plainer: a struct for `duplicate` would hold this one number, its ghost field and the store again

fn across_at(
    read: ReadStore<'_>,
    index: &[u32],
    duplicate: usize,
    i: usize,
    w: Progress,
) -> Result<Progress, Refusal>
    requires { (duplicate ≡ first_duplicate read.store.entries.now) × (i < length read.store.entries.now)
        × At read.store.run.now read.store.entries.now read.omitted i (across.Going w) }
    ensures { let r = read.entry in At r.store.run.now r.store.entries.now r.omitted (i + 1) (across_says result) }
{
    let ReadStore { store, omitted } = read;
    let e = store.entries[i];
    let limit = restore_across::owner_limit(e, i);
    let p = owner_at(store.entries, index, e, limit, w.latest);
    let c = restore_entries::entry_at(store.entries, p);
    let owner = restore_across::going_owner(store.run, omitted, c, p, limit, w);
    restore_across::going_turn(store.run, e, c, i, p, duplicate, owner, w)
}

// Of all entries, with an index of any size: in a loop for each size a turn is called and not inlined, and restore takes half as long again.
fn across_turns(read: ReadStore<'_>, index: &[u32], duplicate: usize) -> Result<Progress, Refusal>
    requires { duplicate ≡ first_duplicate read.store.entries.now }
    ensures { let r = read.entry in At r.store.run.now r.store.entries.now r.omitted (length r.store.entries.now) (across_says result) }
{
    let mut w = restore_across::begin();
    for i in 0..read.store.entries.len() {
        w = across_at(read, index, duplicate, i, w)?;
    }
    Ok(w)
}

// With an index of so many places.
fn indexed_turns<const PLACES: usize>(
    read: ReadStore<'_>,
    duplicate: usize,
) -> Result<Progress, Refusal>
    requires { (PLACES ≤ 65536) × (duplicate ≡ first_duplicate read.store.entries.now) }
    ensures { let r = read.entry in At r.store.run.now r.store.entries.now r.omitted (length r.store.entries.now) (across_says result) }
{
    // Kept: no heap: `few_turns` and `many_turns` give the index its places, whatever the store holds
    let mut index = [0; PLACES];
    note_all(read.store.entries, &mut index);
    across_turns(read, &index, duplicate)
}

// With a filter and an index of 1 KB,
fn few_turns(read: ReadStore<'_>) -> Result<Progress, Refusal>
    ensures { let r = read.entry in At r.store.run.now r.store.entries.now r.omitted (length r.store.entries.now) (across_says result) }
{
    indexed_turns::<256>(read, restore_duplicates::first_of_few(read.store.entries))
}

// ... and with a filter of 64 KB and an index of 256 KB. A frame as large as that is touched page by page wherever it is entered, so a small store's restore is
// not to enter it.
#[inline(never)]
fn many_turns(read: ReadStore<'_>) -> Result<Progress, Refusal>
    ensures { let r = read.entry in At r.store.run.now r.store.entries.now r.omitted (length r.store.entries.now) (across_says result) }
{
    indexed_turns::<65536>(read, restore_duplicates::first_of_many(read.store.entries))
}

fn all_turns(read: ReadStore<'_>) -> Result<Progress, Refusal>
    ensures { let r = read.entry in At r.store.run.now r.store.entries.now r.omitted (length r.store.entries.now) (across_says result) }
{
    if read.store.entries.len() < FEW {
        few_turns(read)
    } else {
        many_turns(read)
    }
}

// Questions 1 to 33 and 54, with the row of a contact left out, or with none: the first no, or what is granted.
pub fn questions(store: StoreRef<'_>, omitted: Option<OmittedContact>) -> Result<Granted, Refusal>
    ensures { restored_says result ≡ questioned store.entry.run.now store.entry.entries.now omitted }
{
    begin(store.entries.len())?;
    turns(store, omitted, Round::Order)?;
    turns(store, omitted, Round::Bounds)?;
    turns(store, omitted, Round::Rows)?;
    let end = all_turns(ReadStore { store, omitted })?;
    Ok(Granted {
        next_contact: end.next_contact,
        next_slot: end.slots,
    })
}

pub fn restore(store: StoreRef<'_>) -> Result<Granted, Refusal>
    ensures { restored_says result ≡ answered (restore (store_of store.entry.run.now store.entry.entries.now)) }
{
    questions(store, None)
}
