// A list of calls, encoded as numbers, run one after the other in lent memory: `call_code` says what the numbers are, `session` what stands between calls.
#![tactic(auto)]

ghost use Rattle.std.specs.Prelude.{◌≡◌, ◌+◌, ◌*◌, ◌≤◌, length};
ghost use Rattle.put.specs.Put.{put};
ghost use Rattle.contact.specs.Contact.{held_in, SameLists};
ghost use Rattle.calls_code.specs.Encoding.{calls_of, most_calls};
ghost use Rattle.calls_code.specs.Coded.{six};
ghost use Rattle.calls_session.specs.Session.{input_in};
ghost use Rattle.calls_list.specs.Replay.{Replayed};

use calls_code::{ANSWER, CALL, Numbers};
use calls_session::Session;
use contact::ListsMut;

// How many calls there are numbers for, and room for their answers.
fn most_calls(numbers: usize, room: usize) -> usize
    ensures { (result ≡ most_calls numbers room) × (6 * result ≤ numbers) × (6 * result ≤ room) }
{
    (numbers / CALL).min(room / ANSWER)
}

fn put_answer(answers: &mut [u64], at: usize, answer: Numbers)
    requires { at + 6 ≤ length answers.old }
    ensures { answers.new ≡ put answers.old at (six answer) }
{
    answers[at..at + ANSWER].copy_from_slice(&[
        answer.tag, answer.a, answer.b, answer.c, answer.d, answer.e,
    ]);
}

// Runs the calls that the numbers say, up to the first that is none, and as far as there is room for the numbers of each answer.
pub fn replay(
    session: Session,
    run: &[u8],
    records: &[u64],
    calls: &[u64],
    lists: &mut ListsMut<'_>,
    out: &mut [u8],
    answers: &mut [u64],
) -> Session
    ensures { Replayed (calls_of run.now records.now calls.now (length answers.old)) calls.now session result
        (input_in session run.now records.now (held_in lists.old) out.old)
        (input_in result run.now records.now (held_in lists.new) out.new)
        answers.old answers.new × SameLists lists.old lists.new }
{
    let most = most_calls(calls.len(), answers.len());
    let mut current = session;
    for i in 0..most {
        let left = calls_session::one(current, run, records, &calls[CALL * i..], lists, out);
        current = left.session;
        let Some(answer) = left.answer else {
            return current;
        };
        put_answer(answers, ANSWER * i, answer);
    }
    current
}
