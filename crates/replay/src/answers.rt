// What is printed for a line: the answer to a call, the state, or that the line is none.
use super::{Asked, Script};
use ascii::first;
use calls_session::Session;
use calls_step::Mark;
use contact::{Contact, ListsMut, ListsRef};
use failure::fail;
use layout::Question;
use rows::ContactId;

// What a line leaves: the session, and the line that is to be printed.
#[derive(Clone, Copy)]
pub struct Answered {
    pub session: Session,
    pub said: Result<usize, Question>,
}

// Whether the line was printed whole. A write that fails is said to have failed.
pub(super) fn print(
    rt: &(impl Print + Eprint + Alloc),
    written: Result<usize, Question>,
    line: &[u8],
) -> bool {
    let Ok(n) = written else {
        return true;
    };
    match rt.write_all(first(line, n)) {
        Ok(()) => true,
        Err(error) => {
            fail(rt, "standard output", error);
            false
        }
    }
}

// The open contact, its fields as a row, and the places of the list above contiguous that were written.
fn opened_state(
    id: ContactId,
    contact: Contact,
    written: usize,
    lists: ListsRef<'_>,
    line: &mut [u8],
) -> Result<usize, Question> {
    // Kept: fixed memory, so a row is written to a local array
    let mut row = [0u8; 131072];
    let size = contact_row::write_contact(contact, lists, &mut row);
    match size {
        Ok(n) => replay_answer::state_line(id, first(&row, n), lists.above, written, line),
        Err(refusal) => replay_answer::number_line(b"no ", u64::from(refusal.number()), line),
    }
}

fn state(
    session: Session,
    written: usize,
    lists: ListsRef<'_>,
    line: &mut [u8],
) -> Result<usize, Question> {
    let mark = session.mark;
    let contact = session.contact;
    let Mark::Opened(id) = mark else {
        return replay_answer::text_line(b"none", line);
    };
    opened_state(id, contact, written, lists, line)
}

// The call that a line is, in the lent parts of the memory.
// Kept: tried, and the proof did not close: with one ListsMut from `main` on, of slices cut out of its fields the borrow check says that it does not cover them yet.
fn make_call(
    session: Session,
    s: Script,
    call: [u64; calls_code::CALL],
    run: &[u8],
    records: &[u64],
    chains: &mut [u8],
    skipped: &mut [u8],
    above: &mut [u32],
    unacked: &mut [u32],
    expired: &mut [u32],
    out: &mut [u8],
    line: &mut [u8],
) -> Answered {
    // Kept: fixed memory: calls_list::replay fills a lent list.
    let mut answers = [0u64; calls_code::ANSWER];
    let c = s.chains.min(chains.len());
    let k = s.skipped.min(skipped.len());
    let a = s.above.min(above.len());
    let u = s.unacked.min(unacked.len());
    let e = s.expired.min(expired.len());
    let o = s.out.min(out.len());
    let mut lists = ListsMut {
        chains: &mut chains[0..c],
        skipped: &mut skipped[0..k],
        above: &mut above[0..a],
        unacked: &mut unacked[0..u],
        expired: &mut expired[0..e],
    };
    let after = calls_list::replay(
        session,
        run,
        records,
        &call,
        &mut lists,
        &mut out[0..o],
        &mut answers,
    );
    let said = replay_answer::answer_line(answers[0], answers[1], answers[2], out, line);
    Answered {
        session: after,
        said,
    }
}

// What a line asks for.
pub(super) fn answer(
    session: Session,
    s: Script,
    run: &[u8],
    records: &[u64],
    chains: &mut [u8],
    skipped: &mut [u8],
    above: &mut [u32],
    unacked: &mut [u32],
    expired: &mut [u32],
    out: &mut [u8],
    line: &mut [u8],
) -> Answered {
    match s.asked {
        Asked::Nothing => Answered {
            session,
            said: Ok(0),
        },
        Asked::Begin => Answered {
            session: calls_session::begin(),
            said: Ok(0),
        },
        Asked::Unknown => Answered {
            session,
            said: replay_answer::number_line(b"? ", s.number, line),
        },
        Asked::Show(tag, a, b) => Answered {
            session,
            said: replay_answer::answer_line(tag, a, b, out, line),
        },
        Asked::State => {
            let lists = ListsRef {
                chains,
                skipped,
                above,
                unacked,
                expired,
            };
            Answered {
                session,
                said: state(session, s.written, lists, line),
            }
        }
        Asked::Call(call) => make_call(
            session, s, call, run, records, chains, skipped, above, unacked, expired, out, line,
        ),
    }
}

// How many pairs above contiguous the open contact has.
pub(super) fn pairs_open(mark: Mark, count: usize) -> usize {
    let Mark::Opened(_) = mark else {
        return 0;
    };
    count
}
