// The calls but restore, apart from the store, each in one function: what a call asks, answers and leaves once the questions before it are a yes.
// A refusal changes nothing: the opened fields and the mark come back as they were handed in.
#![tactic(auto)]

ghost use Rattle.std.specs.Prelude.{◌≡◌};
ghost use Rattle.layout.specs.Says.{answers_by, answers};
ghost use Rattle.contact.specs.Contact.{read_in, held_in, SameLists};
ghost use Rattle.contact_image.specs.Row.{writes_contact};
ghost use Rattle.numbers.specs.Ranges.{is_range};
ghost use Rattle.calls_step.specs.Step.{renumbered};
ghost use Rattle.calls_open.specs.Calls.{left, outcome_by, outcome_of, contains_says, covers_says, covered_by, cover_leaves, cover_list, take_leaves, line_says, row_says, WrittenBy, line_left, opened_by, open_leaves, open_lists};

use calls_step::Mark;
use contact::{Contact, ListsMut, ListsRef};
use layout::{Numbered, Question};
use received::{Change, Received, ReceivedMut};
use rows::ContactId;
use store::Entry;

// Open answers yes; cover whether contiguous moved, and how many numbers were not covered before; contains and covers a truth; take the
// number taken; write the length written; statement the length of the line.
#[derive(Clone, Copy)]
pub enum Answer {
    Yes,
    Advanced(bool, u64),
    Truth(bool),
    Number(u32),
    Wrote(usize),
    Said(usize),
}

// What a call leaves by value. What it leaves in lent lists stands there.
#[derive(Clone, Copy)]
pub struct Left<R = Question> {
    pub contact: Contact,
    pub mark: Mark,
    pub answer: Result<Answer, R>,
}

// Fields and mark as they were handed in, and an answer.
// Kept: the new form is no plainer: contact and mark come as a call's two values, and Left has both; lists and output are lent to calls that use them only.
pub fn answered<R: Numbered>(contact: Contact, mark: Mark, answer: Result<Answer, R>) -> Left<R>
    ensures { outcome_by R.number result ≡ left contact mark (answers_by R.number answer) }
{
    Left {
        contact,
        mark,
        answer,
    }
}

// Question 37.
fn in_order(from: u32, to: u32) -> bool
    ensures { result ≡ is_range from to }
{
    1 <= from && from <= to
}

// The opened fields with other numbers.
fn renumbered(contact: Contact, sent: u32, contiguous: u32, above: usize) -> Contact
    ensures { result ≡ renumbered sent contiguous above contact }
{
    let mut left = contact;
    left.sent_msgno = sent;
    left.contiguous = contiguous;
    left.above = above;
    left
}

// ---- cover, contains, covers

// Whether a number is covered.
pub fn contains(contact: Contact, mark: Mark, above: &[u32], msgno: u32) -> Left
    ensures { outcome_of result ≡ left contact mark (contains_says contact above.now msgno) }
{
    let received = Received {
        contiguous: contact.contiguous,
        above,
        count: contact.above,
    };
    let is = received.contains(msgno);
    answered(contact, mark, Ok(Answer::Truth(is)))
}

// Whether all of from..to is covered.
pub fn covers(contact: Contact, mark: Mark, above: &[u32], from: u32, to: u32) -> Left
    ensures { outcome_of result ≡ left contact mark (covers_says contact above.now from to) }
{
    if !in_order(from, to) {
        return answered(contact, mark, Err(Question::Range));
    }
    let received = Received {
        contiguous: contact.contiguous,
        above,
        count: contact.above,
    };
    let are = received.covers(from, to);
    answered(contact, mark, Ok(Answer::Truth(are)))
}

// The opened fields and what a cover answers, once it is planned.
fn covered(contact: Contact, mark: Mark, planned: Result<Change, Question>) -> Left
    ensures { outcome_of result ≡ covered_by (answers planned) contact mark }
{
    match planned {
        Ok(change) => Left {
            contact: renumbered(contact, contact.sent_msgno, change.contiguous, change.count),
            mark,
            answer: Ok(Answer::Advanced(change.moved, change.added)),
        },
        Err(refusal) => answered(contact, mark, Err(refusal)),
    }
}

// Covers from..to. Places that held a range and hold none any more become 0.
pub fn cover(contact: Contact, mark: Mark, above: &mut [u32], from: u32, to: u32) -> Left
    ensures { (outcome_of result ≡ cover_leaves contact mark above.old from to) × (above.new ≡ cover_list contact above.old from to) }
{
    if !in_order(from, to) {
        return answered(contact, mark, Err(Question::Range));
    }
    let received = ReceivedMut {
        contiguous: contact.contiguous,
        above,
        count: contact.above,
    };
    let planned = received.insert(from, to);
    covered(contact, mark, planned)
}

// ---- take

// The number after the last one sent, which it becomes.
pub fn take(contact: Contact, mark: Mark) -> Left
    ensures { outcome_of result ≡ take_leaves contact mark }
{
    if contact.sent_msgno == u32::MAX {
        return answered(contact, mark, Err(Question::MsgnoLeft));
    }
    let msgno = contact.sent_msgno + 1;
    Left {
        contact: renumbered(contact, msgno, contact.contiguous, contact.above),
        mark,
        answer: Ok(Answer::Number(msgno)),
    }
}

// ---- statement, write

// Writes the open contact's line to the front of the output, if there is room. Its id and how many queued rows it has come from the store.
pub fn statement(
    id: ContactId,
    contact: Contact,
    mark: Mark,
    queued: u64,
    above: &[u32],
    expired: &[u32],
    out: &mut [u8],
) -> Left
    ensures { let line = line_left id contact queued above.now expired.now out.old in WrittenBy contact mark line_says line result out.new }
{
    let beyond = statement_line::numbers_in(above, contact.above, 0);
    let acked = u64::from(contact.peer_acked);
    let lost = statement_line::numbers_in(expired, contact.expired, acked + 1);
    let written = statement_line::statement_line(
        id,
        contact.sent_msgno,
        contact.peer_acked,
        contact.contiguous,
        beyond,
        queued,
        lost,
        out,
    );
    answered(contact, mark, written.map(Answer::Said))
}

// Writes the row of the opened fields to the front of the output, if there is room.
pub fn write(contact: Contact, mark: Mark, lists: ListsRef<'_>, out: &mut [u8]) -> Left
    ensures { let row = writes_contact contact (read_in lists.entry) out.old in WrittenBy contact mark row_says row result out.new }
{
    let written = contact_row::write_contact(contact, lists, out);
    answered(contact, mark, written.map(Answer::Wrote))
}

// ---- open

// What is open once the row was read.
fn opened_by(id: ContactId, mark: Mark, contact: Contact, read: Result<Contact, Question>) -> Left
    ensures { outcome_of result ≡ opened_by (answers read) id mark contact }
{
    match read {
        Ok(its) => Left {
            contact: its,
            mark: Mark::Opened(id),
            answer: Ok(Answer::Yes),
        },
        Err(refusal) => answered(contact, mark, Err(refusal)),
    }
}

// Opens the contact of this id, whose entry was sought in the store.
pub fn open(
    run: &[u8],
    sought: Option<Entry>,
    id: ContactId,
    mark: Mark,
    contact: Contact,
    lists: &mut ListsMut<'_>,
) -> Left
    ensures value { outcome_of result ≡ open_leaves sought id mark contact run.now (held_in lists.old) }
    ensures lists_value { held_in lists.new ≡ open_lists sought run.now (held_in lists.old) }
    ensures lists_same { SameLists lists.old lists.new }
{
    let Some(e) = sought else {
        return answered(contact, mark, Err(Question::ContactStored));
    };
    let row = store::part_of(run, e);
    let read = Contact::decode(e.version, row, lists);
    opened_by(id, mark, contact, read)
}
