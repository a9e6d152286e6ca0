// The calls of document 01 on a store and an open contact. Each asks 34 of all that it is handed, and then what follows it; a no changes nothing.
// A caller keeps run, entries, mark, opened fields and lent lists, and hands them to the next call as the last granted one left them.
#![tactic(auto)]

ghost use Rattle.std.specs.Prelude.{◌≡◌, List, ℕ};
ghost use Rattle.contact.specs.Contact.{read_in, held_in, SameLists};
ghost use Rattle.calls_step.specs.Step.{step};
ghost use Rattle.calls_step.specs.Proved.{HIGHEST};
ghost use Rattle.calls_dispatch.specs.Dispatch.{call_of, input_of, left_of, gate_of, id_in, id_for, counts_queued, OfStore};
ghost use Rattle.calls.specs.Calls.{stored_for, opened_for, asking_for, facts_as, restore_left, RestoreSteps};

use calls_dispatch::{Call, Facts};
use calls_open::Left;
use calls_step::Mark;
use calls_store::{Asking, Passed};
use contact::{Contact, ListsMut, ListsRef};
use layout::Question;
use restore::Granted;
use rows::ContactId;
use store::{Refusal, StoreRef};

// What restore leaves: its answer, and the mark for the next call.
#[derive(Clone, Copy)]
pub struct RestoreLeft {
    pub answer: Result<Granted, Refusal>,
    pub mark: Mark,
}

// ---- restore

fn restored(answer: Result<Granted, Refusal>, mark: Mark) -> RestoreLeft
    ensures { result ≡ restore_left answer mark }
{
    match answer {
        Ok(_) => RestoreLeft {
            answer,
            mark: Mark::Restored,
        },
        Err(_) => RestoreLeft { answer, mark },
    }
}

// It is handed the store alone: whatever stood before, the opened fields, their lists and an output stay.
pub fn restore(store: StoreRef<'_>, mark: Mark) -> RestoreLeft
    ensures { RestoreSteps mark store.entry.run.now store.entry.entries.now result }
{
    let answer = restore::restore(store);
    restored(answer, mark)
}

// ---- the other calls

// What 34 is asked of for open: a store that is restored.
fn stored_for(mark: Mark) -> Asking
    ensures { result ≡ stored_for mark }
{
    match mark {
        Mark::Fresh => Asking::Nothing,
        Mark::Restored | Mark::Opened(_) => Asking::Stored,
    }
}

// ... and for the calls on an open contact.
fn opened_for(mark: Mark) -> Asking
    ensures { result ≡ opened_for mark }
{
    match mark {
        Mark::Fresh | Mark::Restored => Asking::Nothing,
        Mark::Opened(_) => Asking::Opened,
    }
}

fn asking_for(call: Call, mark: Mark) -> Asking
    ensures { result ≡ asking_for call mark }
{
    match call {
        Call::Open(_) => stored_for(mark),
        _ => opened_for(mark),
    }
}

// 0 where no contact is open.
fn opened_id(mark: Mark) -> ContactId
    ensures { result ≡ id_in mark }
{
    match mark {
        Mark::Fresh | Mark::Restored => ContactId(0),
        Mark::Opened(id) => id,
    }
}

// The contact that a call is about: open names it.
fn id_for(call: Call, mark: Mark) -> ContactId
    ensures { result ≡ id_for call mark }
{
    match call {
        Call::Open(id) => id,
        _ => opened_id(mark),
    }
}

// Of the calls statement alone says how many rows are queued.
fn counts_queued(call: Call) -> bool
    ensures { result ≡ counts_queued call }
{
    matches!(call, Call::Statement)
}

// Question 34's answer.
fn gate_of(passed: bool) -> Result<(), Question>
    ensures { result ≡ gate_of passed }
{
    if passed { Ok(()) } else { Err(Question::Store) }
}

fn facts_as(answer: Passed, queued: u64, id: ContactId) -> Facts
    ensures { result ≡ facts_as answer queued id }
{
    Facts {
        sought: answer.sought,
        queued,
        id,
        gate: gate_of(answer.passed),
    }
}

// What a call has to know of the store.
fn facts_for(
    store: StoreRef<'_>,
    call: Call,
    mark: Mark,
    contact: Contact,
    lists: ListsRef<'_>,
) -> Facts
    ensures { (out : List ℕ) → OfStore call (input_of mark store.entry.run.now store.entry.entries.now contact (read_in lists.entry) out) result }
{
    let id = id_for(call, mark);
    let asking = asking_for(call, mark);
    let answer = calls_store::passes(store, asking, id, contact, lists);
    let counted = counts_queued(call);
    let queued = calls_find::queued_of(store.entries, id, counted);
    facts_as(answer, queued, id)
}

// Any call but restore.
pub fn step(
    store: StoreRef<'_>,
    call: Call,
    mark: Mark,
    contact: Contact,
    lists: &mut ListsMut<'_>,
    out: &mut [u8],
) -> Left
    ensures { let h = input_of mark store.entry.run.now store.entry.entries.now contact (held_in lists.old) out.old in
        (left_of result h (held_in lists.new) out.new ≡ step HIGHEST (call_of call) h) × SameLists lists.old lists.new }
{
    let facts = facts_for(store, call, mark, contact, lists.read());
    calls_dispatch::step(store.run, call, facts, mark, contact, lists, out)
}
