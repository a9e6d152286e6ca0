// One turn of the rounds that ask each entry by itself.
#![tactic(auto)]

ghost use Rattle.std.specs.Prelude.{◌≡◌, [], ◌∷◌};
ghost use Rattle.layout.specs.Questions.{number_of};
ghost use Rattle.layout.specs.Layout.{read_row};
ghost use Rattle.rows.specs.Rows as layouts;
ghost use Rattle.store.specs.Rounds.{ask, first_no, Going, turn, asked_by, asked_says};
ghost use Rattle.store.specs.Kinds.{kind_of, layout_of, refusal_in};
ghost use Rattle.restore_rounds.specs.Rounds.{verdict_in, follows, round_asks, numbered_round};

use layout::{Numbered, Question};
use store::{Entry, OmittedContact, Refusal};

// The rounds that ask each entry by itself.
#[derive(Clone, Copy, Debug, PartialEq, Eq)]
pub enum Round {
    // 1
    Order,
    // 2
    Bounds,
    // 3 to 24 and 54
    Rows,
}

// The round that begins with the question of this number. Any other number is that of the rows.
impl From<u8> for Round {
    ghost from_gives = { λ number round. round ≡ numbered_round number };

    fn from(number: u8) -> Round {
        match number {
            1 => Round::Order,
            2 => Round::Bounds,
            _ => Round::Rows,
        }
    }
}

fn device_verdict(version: u32, row: &[u8]) -> Result<(), Question>
    ensures { verdict_in result ≡ refusal_in (read_row (layouts.device version) row.now) }
{
    device::check_device(version, row)?;
    Ok(())
}

fn contact_verdict(version: u32, row: &[u8]) -> Result<(), Question>
    ensures { verdict_in result ≡ refusal_in (read_row (layouts.contact version) row.now) }
{
    contact::ask_contact(version, row)
}

fn queued_verdict(version: u32, row: &[u8]) -> Result<(), Question>
    ensures { verdict_in result ≡ refusal_in (read_row (layouts.queued version) row.now) }
{
    queued::check_queued(version, row)?;
    Ok(())
}

fn courier_verdict(version: u32, row: &[u8]) -> Result<(), Question>
    ensures { verdict_in result ≡ refusal_in (read_row (layouts.courier version) row.now) }
{
    courier::check_courier(version, row)?;
    Ok(())
}

// 3 to 24 and 54, of a row of this kind.
fn row_verdict(kind: u32, version: u32, row: &[u8]) -> Result<(), Question>
    ensures { verdict_in result ≡ refusal_in (read_row (layout_of (kind_of kind) version) row.now) }
{
    // Kept: the new form is no plainer: a kind is a number that C lends, and a table of checks would stand for these arms
    match kind {
        store::DEVICE => device_verdict(version, row),
        store::CONTACT => contact_verdict(version, row),
        store::QUEUED => queued_verdict(version, row),
        store::COURIER => courier_verdict(version, row),
        _ => Err(Question::Code),
    }
}

// 1, of the i-th entry's kind and that of the entry before it.
fn in_order(i: usize, before: u32, kind: u32) -> bool
    ensures { result ≡ follows i before kind }
{
    if i == 0 {
        return kind == store::DEVICE;
    }
    store::CONTACT <= kind && kind <= store::COURIER && before <= kind
}

// A question with this answer.
fn ask(question: Question, yes: bool) -> Result<(), Question>
    ensures { verdict_in result ≡ first_no (ask (number_of question) yes ∷ []) }
{
    if yes { Ok(()) } else { Err(question) }
}

// What a round asks of the i-th entry.
fn verdict(
    run: &[u8],
    omitted: Option<OmittedContact>,
    before: Entry,
    e: Entry,
    round: Round,
    i: usize,
) -> Result<(), Question>
    ensures { verdict_in result ≡ round_asks run.now omitted before e round i }
{
    // Kept: the new form is no plainer: a closure for each round would say in a contract of its own what `round_asks` says once
    match round {
        Round::Order => ask(Question::Order, in_order(i, before.kind, e.kind)),
        Round::Bounds => ask(Question::Bounds, store::is_within(e, run.len())),
        Round::Rows => {
            if store::is_omitted(e, omitted) {
                return ask(Question::Version, e.version == rows::BLOB_VERSION);
            }
            row_verdict(e.kind, e.version, store::part_of(run, e))
        }
    }
}

// One turn, where every answer so far was a yes.
pub fn going_turn(
    run: &[u8],
    omitted: Option<OmittedContact>,
    before: Entry,
    e: Entry,
    round: Round,
    i: usize,
) -> Result<(), Refusal>
    ensures { asked_says result ≡ turn (round_asks run.now omitted before e round i) i Going }
{
    verdict(run, omitted, before, e, round, i).map_err(|question| Refusal { question, place: i })
}

// One turn, behind the answer so far: a refusal is handed on as it is, whatever its number. A round goes by the number of its first question.
pub fn turn<R: Numbered>(
    run: &[u8],
    omitted: Option<OmittedContact>,
    before: Entry,
    e: Entry,
    round: u8,
    i: usize,
    asked: Result<(), Refusal<R>>,
) -> Result<(), Refusal<R>>
    ensures { asked_by R.number result ≡ turn (round_asks run.now omitted before e (numbered_round round) i) i (asked_by R.number asked) }
{
    asked?;
    going_turn(run, omitted, before, e, Round::from(round), i).map_err(|no| no.told_by())
}
