// The calls of document 01 for a program, which has its entries as records: each fills a table, lends its first entries and makes the call.
// A count above the table's length counts as that length.
#![tactic(auto)]

ghost use Rattle.std.specs.Prelude.{◌≡◌, min};
ghost use Rattle.contact.specs.Contact.{held_in, SameLists};
ghost use Rattle.calls_step.specs.Step.{step};
ghost use Rattle.calls_step.specs.Proved.{HIGHEST};
ghost use Rattle.calls_dispatch.specs.Dispatch.{call_of, input_of, left_of};
ghost use Rattle.calls.specs.Calls.{RestoreSteps};
ghost use Rattle.sheet_entries.specs.Table.{entries_from};
ghost use Rattle.sheet_entries.specs.Table as tables;

use calls::RestoreLeft;
use calls_dispatch::Call;
use calls_open::Left;
use calls_step::Mark;
use contact::{Contact, ListsMut};
use sheet_entries::ENTRIES;
use store::StoreRef;

// Kept: no heap: the table is a local array, here and below, and the records are lent with their count.
pub fn restore(run: &[u8], records: &[u64], n: usize, mark: Mark) -> RestoreLeft
    ensures { RestoreSteps mark run.now (entries_from (min n tables.ENTRIES) records.now) result }
{
    let blank = sheet_entries::no_entry();
    // Kept: the new form is no plainer: step fills its table so too: it is local, so that only a closure could share it.
    let mut table = [blank; ENTRIES];
    let count = sheet_entries::fill(records, n, &mut table[..]);
    let store = StoreRef {
        run,
        entries: &table[..count],
    };
    calls::restore(store, mark)
}

// Any call but restore.
pub fn step(
    run: &[u8],
    records: &[u64],
    n: usize,
    call: Call,
    mark: Mark,
    contact: Contact,
    lists: &mut ListsMut<'_>,
    out: &mut [u8],
) -> Left
    ensures { let h = input_of mark run.now (entries_from (min n tables.ENTRIES) records.now) contact (held_in lists.old) out.old in
        (left_of result h (held_in lists.new) out.new ≡ step HIGHEST (call_of call) h) × SameLists lists.old lists.new }
{
    let blank = sheet_entries::no_entry();
    let mut table = [blank; ENTRIES];
    let count = sheet_entries::fill(records, n, &mut table[..]);
    let store = StoreRef {
        run,
        entries: &table[..count],
    };
    calls::step(store, call, mark, contact, lists, out)
}
