// Calls and answers as numbers: a call is six, its code and what follows it; an answer is six too, its tag and what follows it.
// `specs/Encoding.antt` says which call and which answer they are.
#![tactic(auto)]

ghost use Rattle.std.specs.Prelude.{◌≡◌, List, ℕ};
ghost use Rattle.layout.specs.Says.{answers_by};
ghost use Rattle.calls_dispatch.specs.Dispatch.{says};
ghost use Rattle.calls_code.specs.Encoding.{call_in, six_of};
ghost use Rattle.calls_code.specs.Coded.{six, numbers_as, decoded_as};

use calls_dispatch::Call;
use calls_open::Answer;
use layout::Numbered;
use rows::ContactId;

// An answer.
#[derive(Clone, Copy)]
pub struct Numbers {
    pub tag: u64,
    pub a: u64,
    pub b: u64,
    pub c: u64,
    pub d: u64,
    pub e: u64,
}

// The call that numbers say: restore, whose store stands in the numbers, or another.
// Kept: the new form is no plainer: Restore is a call too; None beside it says that the numbers are no call.
#[derive(Clone, Copy)]
pub enum Decoded {
    Restore,
    Made(Call),
}

// ---- codes of calls
// Kept: these, and the tags below, name numbers that stand in lent lists, which may hold any number; `decode` and `numbers_of` convert them.

pub const RESTORE: u64 = 1;

pub const OPEN: u64 = 2;

pub const COVER: u64 = 3;

pub const CONTAINS: u64 = 4;

pub const COVERS: u64 = 5;

pub const TAKE: u64 = 6;

pub const STATEMENT: u64 = 7;

pub const WRITE: u64 = 8;

// How many numbers a call has.
pub const CALL: usize = 6;

// ---- tags of answers

pub const YES: u64 = 0;

pub const ADVANCED: u64 = 1;

pub const TRUTH: u64 = 2;

pub const NUMBER: u64 = 3;

pub const WROTE: u64 = 4;

pub const SAID: u64 = 5;

pub const NO: u64 = 6;

pub const NO_AT: u64 = 7;

// How many numbers an answer has.
pub const ANSWER: usize = 6;

// ---- answers

// A tag and two numbers; the others are 0.
pub fn tagged(tag: u64, a: u64, b: u64) -> Numbers
    ensures { result ≡ numbers_as tag a b }
{
    Numbers {
        tag,
        a,
        b,
        c: 0,
        d: 0,
        e: 0,
    }
}

pub fn numbers_of<R: Numbered>(answer: Result<Answer, R>) -> Numbers
    ensures { (out : List ℕ) → six result ≡ six_of (says (answers_by R.number answer) out) }
{
    match answer {
        Ok(Answer::Yes) => tagged(YES, 0, 0),
        Ok(Answer::Advanced(moved, added)) => tagged(ADVANCED, u64::from(moved), added),
        Ok(Answer::Truth(is)) => tagged(TRUTH, u64::from(is), 0),
        Ok(Answer::Number(n)) => tagged(NUMBER, u64::from(n), 0),
        // Kept: the new form is no plainer: std has no From<usize> for u64, and try_from has an error that never comes, here and below.
        Ok(Answer::Wrote(n)) => tagged(WROTE, n as u64, 0),
        Ok(Answer::Said(n)) => tagged(SAID, n as u64, 0),
        Err(refusal) => tagged(NO, u64::from(refusal.number()), 0),
    }
}

// ---- calls

// The call that six numbers say.
#[tactic(auto, unfolding(crate::specs::Encoding::call_as))]
pub fn decode(six: &[u64]) -> Option<Decoded>
    ensures { (run records : List ℕ) → decoded_as result run records six.now ≡ call_in run records six.now }
{
    let code = sheet_entries::number_at(six, 0);
    let call = match code {
        RESTORE => return Some(Decoded::Restore),
        OPEN => Call::Open(ContactId(sheet_entries::number_at(six, 1))),
        COVER => Call::Cover(
            sheet_entries::field_at(six, 1),
            sheet_entries::field_at(six, 2),
        ),
        CONTAINS => Call::Contains(sheet_entries::field_at(six, 1)),
        COVERS => Call::Covers(
            sheet_entries::field_at(six, 1),
            sheet_entries::field_at(six, 2),
        ),
        TAKE => Call::Take,
        STATEMENT => Call::Statement,
        WRITE => Call::Write,
        _ => return None,
    };
    Some(Decoded::Made(call))
}
