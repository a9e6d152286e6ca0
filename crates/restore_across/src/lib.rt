// Questions 25 to 33, across the rows: of each entry in turn, against those before it. The first entry that has a duplicate before it is known in advance, so that
// an entry is new by its index; a queued row's contact is looked for from where the last one was found on, and what is asked of that contact is kept.
#![tactic(auto)]

ghost use Rattle.std.specs.Prelude.{◌≡◌, eqb};
ghost use Rattle.rows.specs.Checks.{any};
ghost use Rattle.store.specs.Kinds.{CONTACT, kind_of};
ghost use Rattle.store.specs.Store.{is_of, part_of};
ghost use Rattle.restore_across.specs.Owner.{no_owner, owner_omitted, unacked_at, Searchable, OwnerIn, OwnerFrom};
ghost use Rattle.restore_across.specs.Across.{Going, across_by, across_says, turn_says, fresh, contact_of, place_or, tried, near_limit, far_limit, chosen, owner_limit, OwnerFor};
ghost use Rattle.restore_across.specs.Across.{low_in, next_contact_in, depositor_in, SurelyLow, device_turn, contact_turn, queued_turn, courier_turn, entry_turn_as, entry_turn};

use courier::{HeldAt, Kind};
use layout::{Numbered, Question};
use store::{Entry, OmittedContact, Refusal, Wanted};

// What is asked of a queued row's contact: sent_msgno, and where in its row the unacked numbers start and how many they are.
#[derive(Clone, Copy)]
pub struct Owner {
    pub unacked: usize,
    pub count: usize,
    pub sent_msgno: u32,
}

// What is kept from one turn to the next.
#[derive(Clone, Copy)]
pub struct Progress {
    pub next_contact: u64,
    // one above the highest slot so far
    pub slots: u64,
    // where the contact of the last queued row stands
    pub latest: usize,
    pub owner: Owner,
}

// Where no contact was found.
// Kept: what may not change: owner_of answers zeros where no contact was found, and tried and chosen answer upto where nothing stands.
fn no_owner() -> Owner
    ensures { result ≡ no_owner }
{
    Owner {
        unacked: 0,
        count: 0,
        sent_msgno: 0,
    }
}

// Before the first turn.
pub fn begin() -> Progress
    ensures { result ≡ fresh }
{
    Progress {
        next_contact: 0,
        slots: 0,
        latest: 0,
        owner: no_owner(),
    }
}

// ---- what is read in rows

fn next_contact(run: &[u8], e: Entry) -> u64
    ensures { result ≡ next_contact_in run.now e }
{
    let row = store::part_of(run, e);
    let Ok(at) = device::check_device(e.version, row) else {
        return 0;
    };
    at.next_contact
}

// Whether 31 is a yes whatever else the row holds: it is none that is carried, or what stands where a carried row has its depositor is below next.
fn surely_low(row: &[u8], next: u64) -> bool
    ensures { SurelyLow next row.now result }
{
    let Ok((kind, behind)) = fields::byte_at(row, 0) else {
        return true;
    };
    if kind != u8::from(Kind::Carried) {
        return true;
    }
    let Ok((depositor, _)) = fields::u64_at(row, behind) else {
        return true;
    };
    depositor < next
}

// 31: asked of carried rows only. A row is asked its own questions again only where its depositor is not below next.
fn low_depositor(run: &[u8], e: Entry, next: u64) -> bool
    ensures { result ≡ low_in next (depositor_in run.now e) }
{
    let row = store::part_of(run, e);
    if surely_low(row, next) {
        return true;
    }
    let Ok(HeldAt::Carried(at)) = courier::check_courier(e.version, row) else {
        return true;
    };
    at.depositor.0 < next
}

// Of a row that is known to be accepted.
fn owner_in(row: &[u8]) -> Owner
    ensures { OwnerIn row.now result }
{
    let at = contact_known::sent_in(row);
    let unacked = at.unacked;
    Owner {
        unacked: unacked.first,
        count: unacked.count,
        sent_msgno: at.sent_msgno,
    }
}

// The contact left out has its sent_msgno, and no unacked numbers.
fn owner_omitted(omitted: Option<OmittedContact>) -> Owner
    ensures { result ≡ owner_omitted omitted }
{
    let Some(left_out) = omitted else {
        return no_owner();
    };
    Owner {
        unacked: 0,
        count: 0,
        sent_msgno: left_out.sent_msgno,
    }
}

fn owner_from(run: &[u8], omitted: Option<OmittedContact>, c: Entry) -> Owner
    ensures { OwnerFrom run.now omitted c result }
{
    if store::is_omitted(c, omitted) {
        return owner_omitted(omitted);
    }
    let row = store::part_of(run, c);
    owner_in(row)
}

// 29, by halves: the numbers rise.
fn is_unacked(row: &[u8], owner: Owner, msgno: u32) -> bool
    requires { Searchable row.now owner }
    ensures { result ≡ any (eqb msgno) (unacked_at row.now owner) }
{
    let (numbers, _) = row[owner.unacked..].as_chunks::<4>();
    numbers[..owner.count]
        .binary_search_by_key(&msgno, |n| u32::from_be_bytes(*n))
        .is_ok()
}

// ---- where to look

pub fn contact_of(e: Entry) -> Wanted
    ensures { result ≡ contact_of e }
{
    Wanted {
        id: e.id,
        msgno: 0,
        kind: store::CONTACT,
    }
}

// Whether c is the contact of the queued row e.
fn is_its(c: Entry, e: Entry) -> bool
    ensures { result ≡ is_of CONTACT e.id c }
{
    c.kind == store::CONTACT && c.id == e.id
}

// The place of c, if that is below `upto` and c is the contact of e; else the other place.
fn place_or(e: Entry, c: Entry, place: usize, upto: usize, other: usize) -> usize
    ensures { result ≡ place_or e c place upto other }
{
    if place < upto && is_its(c, e) {
        place
    } else {
        other
    }
}

// Where the contact of e is thought to stand: at `latest`, where a stands, or at `hint`, where b does; `upto` where it stands at neither of them, below `upto`.
pub fn tried(e: Entry, a: Entry, latest: usize, b: Entry, hint: usize, upto: usize) -> usize
    ensures { result ≡ tried e a latest b hint upto }
{
    let other = place_or(e, b, hint, upto, upto);
    place_or(e, a, latest, upto, other)
}

// From where on it is looked for: nowhere where it was found at p, else from `latest` on.
pub fn near_limit(p: usize, latest: usize, upto: usize) -> usize
    ensures { result ≡ near_limit p latest upto }
{
    if p < upto {
        return upto;
    }
    latest.min(upto)
}

// How far it is looked for from the start: not at all where it was found.
pub fn far_limit(p: usize, q: usize, near: usize, upto: usize) -> usize
    ensures { result ≡ far_limit p q near upto }
{
    if p < upto || q < upto { 0 } else { near }
}

pub fn chosen(p: usize, q: usize, o: usize, far: usize, upto: usize) -> usize
    ensures { result ≡ chosen p q o far upto }
{
    if p < upto {
        return p;
    }
    if q < upto {
        return q;
    }
    if o < far { o } else { upto }
}

// Nothing is looked for but a queued row's contact.
pub fn owner_limit(e: Entry, i: usize) -> usize
    ensures { result ≡ owner_limit e i }
{
    if e.kind == store::QUEUED { i } else { 0 }
}

// What is asked of the contact c, found at p; nothing where none was found below `upto`. It is what is kept, where the last queued row's contact is the same one.
pub fn going_owner(
    run: &[u8],
    omitted: Option<OmittedContact>,
    c: Entry,
    p: usize,
    upto: usize,
    w: Progress,
) -> Owner
    ensures { OwnerFor run.now omitted c p upto (Going w) result }
{
    if upto <= p {
        return no_owner();
    }
    if p == w.latest {
        return w.owner;
    }
    owner_from(run, omitted, c)
}

// The same, of the answer so far: behind a refusal nothing is kept.
pub fn owner_of<R: Numbered>(
    run: &[u8],
    omitted: Option<OmittedContact>,
    c: Entry,
    p: usize,
    upto: usize,
    state: Result<Progress, Refusal<R>>,
) -> Owner
    ensures { OwnerFor run.now omitted c p upto (across_by R.number state) result }
{
    match state {
        Ok(w) => going_owner(run, omitted, c, p, upto, w),
        Err(_) if upto <= p => no_owner(),
        Err(_) => owner_from(run, omitted, c),
    }
}

// ---- one turn. The i-th entry is e; its contact's entry is c, found at p, and owner what is asked of it; `first` is the first entry that has a duplicate

fn device_turn(run: &[u8], e: Entry, w: Progress) -> Progress
    ensures { Going result ≡ device_turn run.now e w }
{
    Progress {
        next_contact: next_contact(run, e),
        ..w
    }
}

fn contact_turn(e: Entry, i: usize, first: usize, w: Progress) -> Result<Progress, Question>
    ensures { turn_says i result ≡ contact_turn e i first w }
{
    if w.next_contact <= e.id {
        return Err(Question::ContactBelowNext);
    }
    if first <= i {
        return Err(Question::ContactNew);
    }
    Ok(w)
}

// Kept: the new form is no plainer: a struct of entry, contact, places and owner would be made for one call, in restore, and taken apart in turns that each need other parts.
fn queued_turn(
    run: &[u8],
    e: Entry,
    c: Entry,
    i: usize,
    p: usize,
    first: usize,
    owner: Owner,
    w: Progress,
) -> Result<Progress, Question>
    requires { Searchable (part_of run.now c) owner }
    ensures { turn_says i result ≡ queued_turn (part_of run.now c) e i p first owner w }
{
    if i <= p {
        return Err(Question::QueuedContact);
    }
    if e.msgno < 1 || owner.sent_msgno < e.msgno {
        return Err(Question::QueuedMsgno);
    }
    let row = store::part_of(run, c);
    if is_unacked(row, owner, e.msgno) {
        return Err(Question::QueuedUnacked);
    }
    if first <= i {
        return Err(Question::QueuedNew);
    }
    Ok(Progress {
        latest: p,
        owner,
        ..w
    })
}

fn courier_turn(
    run: &[u8],
    e: Entry,
    i: usize,
    first: usize,
    w: Progress,
) -> Result<Progress, Question>
    ensures { turn_says i result ≡ courier_turn run.now e i first w }
{
    if !low_depositor(run, e, w.next_contact) {
        return Err(Question::Depositor);
    }
    if first <= i {
        return Err(Question::SlotNew);
    }
    if e.id == u64::MAX {
        return Err(Question::SlotBelowLast);
    }
    Ok(Progress {
        slots: w.slots.max(e.id + 1),
        ..w
    })
}

// By the entry's kind.
fn kind_turn(
    run: &[u8],
    e: Entry,
    c: Entry,
    i: usize,
    p: usize,
    first: usize,
    owner: Owner,
    w: Progress,
) -> Result<Progress, Question>
    requires { Searchable (part_of run.now c) owner }
    ensures { turn_says i result ≡ entry_turn_as (kind_of e.kind) run.now e c i p first owner w }
{
    // Kept: the new form is no plainer: a kind is a number that C lends, and a table of turns would stand for these arms
    match e.kind {
        store::DEVICE => Ok(device_turn(run, e, w)),
        store::CONTACT => contact_turn(e, i, first, w),
        store::QUEUED => queued_turn(run, e, c, i, p, first, owner, w),
        store::COURIER => courier_turn(run, e, i, first, w),
        _ => Ok(w),
    }
}

// Where every answer so far was a yes.
pub fn going_turn(
    run: &[u8],
    e: Entry,
    c: Entry,
    i: usize,
    p: usize,
    first: usize,
    owner: Owner,
    w: Progress,
) -> Result<Progress, Refusal>
    requires { Searchable (part_of run.now c) owner }
    ensures { across_says result ≡ entry_turn run.now e c i p first owner (Going w) }
{
    kind_turn(run, e, c, i, p, first, owner, w).map_err(|question| Refusal { question, place: i })
}

// Behind the answer so far: a refusal is handed on as it is, whatever its number.
pub fn entry_turn<R: Numbered>(
    run: &[u8],
    e: Entry,
    c: Entry,
    i: usize,
    p: usize,
    first: usize,
    owner: Owner,
    state: Result<Progress, Refusal<R>>,
) -> Result<Progress, Refusal<R>>
    requires { Searchable (part_of run.now c) owner }
    ensures { across_by R.number result ≡ entry_turn run.now e c i p first owner (across_by R.number state) }
{
    going_turn(run, e, c, i, p, first, owner, state?).map_err(|no| no.told_by())
}
