// Restore as Rust and C call it, under its C name. A slice passes as its pointer and its length; an entry and the answer have C's layout.
// Nothing is required of the caller, and nothing lent is written.
#![tactic(auto)]

ghost use Rattle.std.specs.Prelude.{◌≡◌};
ghost use Rattle.store.specs.Store.{store_of, restore};
ghost use Rattle.restore.specs.Restored.{answered, restored_says};
ghost use Rattle.c_restore.specs.Faces.{answer_of};

use restore::Granted;
use store::{Entry, Refusal, StoreRef};

// Granted: number is 0, and next_contact and next_slot are the store's. Refused: number is the question's, and index the entry's. What is not said is 0.
// Kept: the C interface: a number, which is 0 where the store is granted.
#[repr(C)]
#[derive(Clone, Copy)]
pub struct RestoreAnswer {
    pub next_contact: u64,
    pub next_slot: u64,
    pub index: usize,
    pub number: u32,
}

fn answer_of(restored: Result<Granted, Refusal>) -> RestoreAnswer
    ensures { result ≡ answer_of (restored_says restored) }
{
    match restored {
        Ok(granted) => RestoreAnswer {
            next_contact: granted.next_contact,
            next_slot: granted.next_slot,
            index: 0,
            number: 0,
        },
        Err(refusal) => RestoreAnswer {
            next_contact: 0,
            next_slot: 0,
            index: refusal.place,
            number: u32::from(refusal.question.number()),
        },
    }
}

// Kept: the C interface needs it: C lends the run and the entries each by a pointer and a length.
#[unsafe(no_mangle)]
pub extern "C" fn sicklestar_restore(run: &[u8], entries: &[Entry]) -> RestoreAnswer
    ensures { result ≡ answer_of (answered (restore (store_of run.now entries.now))) }
{
    answer_of(restore::restore(StoreRef { run, entries }))
}
