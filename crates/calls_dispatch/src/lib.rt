// One step: any call but restore, apart from the store. What a call has to know of the store is handed in; where a question before the call was a no, that is
// the answer, and nothing changes.
#![tactic(auto)]

ghost use Rattle.std.specs.Prelude.{◌≡◌};
ghost use Rattle.contact.specs.Contact.{held_in, SameLists};
ghost use Rattle.calls_open.specs.Calls.{outcome_by, outcome_of};
ghost use Rattle.calls_dispatch.specs.Dispatch.{acted, done, Stepped};

use calls_open::Left;
use calls_step::Mark;
use contact::{Contact, ListsMut};
use layout::{Numbered, Question};
use rows::ContactId;
use store::Entry;

// A call on a restored store, with its own arguments.
#[derive(Clone, Copy)]
pub enum Call {
    Open(ContactId),
    Cover(u32, u32),
    Contains(u32),
    Covers(u32, u32),
    Take,
    Statement,
    Write,
}

// What a call has to know of the store: whose row it is about, that contact's entry, how many of its rows are queued (for statement alone), and
// what was asked before the call's own questions: whether it may go on, or the question that was a no.
#[derive(Clone, Copy)]
pub struct Facts<R = Question> {
    pub sought: Option<Entry>,
    pub queued: u64,
    pub id: ContactId,
    pub gate: Result<(), R>,
}

// The call's part, once the questions before it are a yes.
fn acted<R: Numbered>(
    run: &[u8],
    call: Call,
    facts: Facts<R>,
    mark: Mark,
    contact: Contact,
    lists: &mut ListsMut<'_>,
    out: &mut [u8],
) -> Left
    ensures { (done (outcome_of result) (held_in lists.new) out.new ≡ acted call facts mark run.now contact (held_in lists.old) out.old) × SameLists lists.old lists.new }
{
    let id = facts.id;
    match call {
        Call::Open(_) => calls_open::open(run, facts.sought, id, mark, contact, lists),
        Call::Cover(from, to) => calls_open::cover(contact, mark, lists.above, from, to),
        Call::Contains(msgno) => calls_open::contains(contact, mark, lists.read().above, msgno),
        Call::Covers(from, to) => calls_open::covers(contact, mark, lists.read().above, from, to),
        Call::Take => calls_open::take(contact, mark),
        Call::Statement => {
            let lent = lists.read();
            calls_open::statement(
                id,
                contact,
                mark,
                facts.queued,
                lent.above,
                lent.expired,
                out,
            )
        }
        Call::Write => calls_open::write(contact, mark, lists.read(), out),
    }
}

// What is left, where a refusal is told by something else.
fn told_by<R: Numbered>(left: Left) -> Left<R>
    ensures { outcome_by R.number result ≡ outcome_of left }
{
    Left {
        contact: left.contact,
        mark: left.mark,
        answer: left.answer.map_err(|refusal| R::from_question(refusal)),
    }
}

// A no of the questions before the call is handed on as it is, whatever its number.
pub fn step<R: Numbered>(
    run: &[u8],
    call: Call,
    facts: Facts<R>,
    mark: Mark,
    contact: Contact,
    lists: &mut ListsMut<'_>,
    out: &mut [u8],
) -> Left<R>
    ensures { Stepped R.number call facts mark run.now contact (held_in lists.old) out.old (done (outcome_by R.number result) (held_in lists.new) out.new) × SameLists lists.old lists.new }
{
    contact_image::typed(contact);
    contact_image::lists_typed(lists.read());
    if let Err(refusal) = facts.gate {
        return calls_open::answered(contact, mark, Err(refusal));
    }
    told_by(acted(run, call, facts, mark, contact, lists, out))
}
