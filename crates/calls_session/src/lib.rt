// What stands between calls, a session, and one encoded call made of it in lent memory. A store is a part of the lent run and of the lent records, six numbers
// for each entry.
#![tactic(auto)]

ghost use Rattle.std.specs.Prelude.{◌≡◌, List, [], ◌∷◌, cond, ℕ, ◌*◌, drop};
ghost use Rattle.std.proofs.Math.Option.{some};
ghost use Rattle.contact.specs.Contact.{Lists, held_in, SameLists};
ghost use Rattle.ledger.specs.Call.{is_granted};
ghost use Rattle.calls_step.specs.Step.{step};
ghost use Rattle.calls_step.specs.Proved.{HIGHEST};
ghost use Rattle.calls_dispatch.specs.Dispatch.{call_of};
ghost use Rattle.restore.specs.Restored.{restored_says};
ghost use Rattle.calls.specs.Calls.{left_by};
ghost use Rattle.calls_code.specs.Encoding.{run_at, entries_at, call_in};
ghost use Rattle.calls_code.specs.Coded.{restore_in};
ghost use Rattle.calls_session.specs.Session.{begun, input_in, store_at, next_of, LeftAs, Ran};

use calls::RestoreLeft;
use calls_code::{Decoded, NO_AT, Numbers, YES};
use calls_dispatch::Call;
use calls_step::Mark;
use contact::{Contact, ListsMut};
use sheet::RECORD;

// Between calls: the mark, the opened fields, and where the store of the last granted restore stands: len bytes of the lent run from start on, and n
// entries of the lent records from the first-th on.
#[derive(Clone, Copy)]
pub struct Session {
    pub contact: Contact,
    pub mark: Mark,
    // Kept: the new form is no plainer: a call has the place of its store as four of its six numbers, and store_at names these four.
    pub start: usize,
    pub len: usize,
    pub first: usize,
    pub n: usize,
}

// What a call leaves. Numbers that are no call have no answer, and leave the session as it was.
#[derive(Clone, Copy)]
pub struct CallLeft {
    pub session: Session,
    pub answer: Option<Numbers>,
}

// ---- before the first call

// Nothing is restored.
pub fn begin() -> Session
    ensures { result ≡ begun }
{
    Session {
        contact: Contact::zero(),
        mark: Mark::Fresh,
        start: 0,
        len: 0,
        first: 0,
        n: 0,
    }
}

// ---- a store in the lent run and records

fn run_at(run: &[u8], start: usize, len: usize) -> &[u8]
    ensures { result.now ≡ run_at start len run.now }
{
    let behind = &run[start.min(run.len())..];
    &behind[..len.min(behind.len())]
}

fn records_from(records: &[u64], first: usize) -> &[u64]
    ensures { result.now ≡ drop (6 * first) records.now }
{
    let at = first.saturating_mul(RECORD);
    &records[at.min(records.len())..]
}

// ---- the calls

// The session with another mark and other opened fields, and an answer.
fn next(session: Session, mark: Mark, contact: Contact, answer: Numbers) -> CallLeft
    ensures { result ≡ next_of session mark contact answer }
{
    CallLeft {
        session: Session {
            contact,
            mark,
            ..session
        },
        answer: Some(answer),
    }
}

// A granted restore leaves its own store, a refused one the store before.
fn restored(
    session: Session,
    left: RestoreLeft,
    start: usize,
    len: usize,
    first: usize,
    n: usize,
) -> CallLeft
    ensures { (run records : List ℕ) (l : Lists) (out : List ℕ) → (let x = left_by (restored_says left.answer) left.mark (run_at start len run) (entries_at first n records) (input_in session run records l out) in
        LeftAs x (cond (is_granted x.answer) (start ∷ len ∷ first ∷ n ∷ []) (store_at session)) (input_in result.session run records l out) result) }
{
    match left.answer {
        Ok(_) => CallLeft {
            session: Session {
                contact: session.contact,
                mark: left.mark,
                start,
                len,
                first,
                n,
            },
            answer: Some(calls_code::tagged(YES, 0, 0)),
        },
        Err(refusal) => {
            let number = u64::from(refusal.question.number());
            // Kept: the new form is no plainer: std has no From between usize and u64, and try_from has an error that never comes, here and below.
            let answer = calls_code::tagged(NO_AT, number, refusal.place as u64);
            next(session, left.mark, session.contact, answer)
        }
    }
}

fn restore(session: Session, run: &[u8], records: &[u64], six: &[u64]) -> CallLeft
    ensures { (l : Lists) (out : List ℕ) → Ran (some (restore_in run.now records.now six.now)) six.now session
        (input_in session run.now records.now l out) (input_in result.session run.now records.now l out) result }
{
    let start = sheet_entries::number_at(six, 1) as usize;
    let len = sheet_entries::number_at(six, 2) as usize;
    let first = sheet_entries::number_at(six, 3) as usize;
    let n = sheet_entries::number_at(six, 4) as usize;
    let left = calls_table::restore(
        run_at(run, start, len),
        records_from(records, first),
        n,
        session.mark,
    );
    restored(session, left, start, len, first, n)
}

// Any call but restore, on the session's store.
fn step(
    session: Session,
    run: &[u8],
    records: &[u64],
    call: Call,
    lists: &mut ListsMut<'_>,
    out: &mut [u8],
) -> CallLeft
    ensures { LeftAs (step HIGHEST (call_of call) (input_in session run.now records.now (held_in lists.old) out.old)) (store_at session)
        (input_in result.session run.now records.now (held_in lists.new) out.new) result
        × SameLists lists.old lists.new }
{
    let left = calls_table::step(
        run_at(run, session.start, session.len),
        records_from(records, session.first),
        session.n,
        call,
        session.mark,
        session.contact,
        lists,
        out,
    );
    next(
        session,
        left.mark,
        left.contact,
        calls_code::numbers_of(left.answer),
    )
}

// The call that six numbers say, made.
pub fn one(
    session: Session,
    run: &[u8],
    records: &[u64],
    six: &[u64],
    lists: &mut ListsMut<'_>,
    out: &mut [u8],
) -> CallLeft
    ensures { Ran (call_in run.now records.now six.now) six.now session
        (input_in session run.now records.now (held_in lists.old) out.old)
        (input_in result.session run.now records.now (held_in lists.new) out.new) result
        × SameLists lists.old lists.new }
{
    match calls_code::decode(six) {
        Some(Decoded::Restore) => restore(session, run, records, six),
        Some(Decoded::Made(call)) => step(session, run, records, call, lists, out),
        None => CallLeft {
            session,
            answer: None,
        },
    }
}
