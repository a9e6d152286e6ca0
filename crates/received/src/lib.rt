// `Received` of state.rs: the message numbers of a contact that are covered, 1..contiguous and the ranges above. The ranges stand in a lent
// flat list, from, to, from, to, and `count` says how many there are; a count above the lent pairs counts as the lent pairs.
// The contracts hold on every list. What they mean for the set of covered numbers is said of canonical ones (specs/Proved.antt).
#![tactic(auto)]

ghost use Rattle.std.specs.Prelude.{◌≡◌, ◌*◌, ◌^◌, ◌≤◌, ◌<◌, length};
ghost use Rattle.layout.specs.Says.{answers};
ghost use Rattle.rows.specs.Checks.{any};
ghost use Rattle.numbers.specs.Ranges.{range, inside, contains, covers, below, merged, uncovered, added};
ghost use Rattle.received.specs.Change.{change_of, applied};
ghost use Rattle.received.specs.Lent.{pairs, ranges_of, received_of, received_then, stored, plan_of, list_after, Fitting};
ghost use Rattle.numbers.specs.Lists.{limit_of};

use layout::Question;

// The most ranges that a contact row holds: its counts are u16.
pub const MAX_RANGES: usize = 65_535;

// What a cover leaves. from..to is the range that it makes with those that it touches or overlaps; before and after are how many others stay.
// 1..contiguous counts as the first range, as 0..contiguous: before is 0 where it is part of from..to, which then is no range above.
// moved says whether contiguous did, and added how many numbers were not covered before.
#[derive(Clone, Copy)]
pub struct Change {
    pub before: usize,
    pub after: usize,
    pub count: usize,
    pub contiguous: u32,
    pub from: u32,
    pub to: u32,
    pub moved: bool,
    pub added: u64,
}

// A range, and how many ranges stand behind it.
#[derive(Clone, Copy)]
struct Merged {
    from: u32,
    to: u32,
    after: usize,
}

// Whether all of from..to lies in one of the ranges.
fn in_one(ranges: &[[u32; 2]], from: u32, to: u32) -> bool
    ensures { result ≡ any (inside from to) (ranges_of ranges.now) }
{
    ranges.iter().any(|[a, b]| *a <= from && to <= *b)
}

// How many ranges at the front end below from, without touching it.
fn below(ranges: &[[u32; 2]], from: u32) -> usize
    ensures { (result ≡ below from (ranges_of ranges.now)) × (result ≤ length ranges.now) }
{
    ranges
        .iter()
        .position(|[_, b]| u64::from(from) <= u64::from(*b) + 1)
        .unwrap_or(ranges.len())
}

// from..to made one with the ranges at the front that it touches or overlaps.
fn merge(ranges: &[[u32; 2]], mut from: u32, mut to: u32) -> Merged
    ensures range { (merged from to (ranges_of ranges.now)).range ≡ range result.from result.to }
    ensures after { length (merged from to (ranges_of ranges.now)).behind ≡ result.after }
{
    for (i, [a, b]) in ranges.iter().enumerate() {
        if u64::from(to) + 1 < u64::from(*a) {
            return Merged {
                from,
                to,
                after: ranges.len() - i,
            };
        }
        from = from.min(*a);
        to = to.max(*b);
    }
    Merged { from, to, after: 0 }
}

// How many of at..to lie in none of the ranges, if these rise. Past to there is nothing left to count.
fn uncovered(ranges: &[[u32; 2]], at: u64, to: u32) -> u64
    ensures { result ≡ uncovered at to (ranges_of ranges.now) }
{
    let end = u64::from(to) + 1;
    let mut here = at;
    let mut found = 0;
    for [a, b] in ranges {
        if end <= here {
            return found;
        }
        let start = here.max(end.min(u64::from(*a)));
        found += start - here;
        here = start.max(u64::from(*b) + 1);
    }
    found + end.saturating_sub(here)
}

// The most ranges that may be left in a list of so many numbers.
fn limit(len: usize) -> usize
    ensures { result ≡ limit_of len }
{
    MAX_RANGES.min(len / 2)
}

// Carries a change out: the ranges behind it move to their places, and it is put in front of them, unless it is a part of 1..contiguous.
// Places that held a range and hold none any more become 0.
fn apply(above: &mut [u32], held: usize, change: Change)
    requires { Fitting above.old held change }
    ensures { above.new ≡ stored (applied change (pairs held above.old)) held above.old }
{
    let end = 2 * held;
    let behind = 2 * change.before;
    let freed = end.min(behind + 2 * change.after);
    above.copy_within(end - 2 * change.after..end, behind);
    if 0 < change.before {
        above[behind - 2] = change.from;
        above[behind - 1] = change.to;
    }
    above[freed..end].fill(0);
}

// The covered numbers, in a list that is lent to be read.
#[derive(Clone, Copy)]
pub struct Received<'a> {
    pub contiguous: u32,
    // Kept: no heap: a list is lent longer than its ranges, and the count says how many there are
    pub above: &'a [u32],
    pub count: usize,
}

impl<'a> Received<'a> {
    // The ranges that the list holds, each its from and its to.
    fn ranges(self) -> &'a [[u32; 2]]
        ensures { (ranges_of result.now ≡ pairs self.entry.count self.entry.above.now) × (2 * length result.now ≤ length self.entry.above.now) × (length self.entry.above.now < 2 ^ 64) }
    {
        let (lent, _) = self.above.as_chunks::<2>();
        &lent[..self.count.min(self.above.len() / 2)]
    }

    // Whether from..to is covered.
    pub fn covers(self, from: u32, to: u32) -> bool
        ensures { result ≡ covers (received_of self.entry) from to }
    {
        to <= self.contiguous || in_one(self.ranges(), from, to)
    }

    // Whether a number is covered; 0 is not.
    pub fn contains(self, msgno: u32) -> bool
        ensures { result ≡ contains (received_of self.entry) msgno }
    {
        msgno != 0 && self.covers(msgno, msgno)
    }

    // How many of from..to are not covered.
    fn added(self, from: u32, to: u32) -> u64
        ensures { result ≡ added (received_of self.entry) from to }
    {
        let behind = u64::from(self.contiguous) + 1;
        uncovered(self.ranges(), behind.max(u64::from(from)), to)
    }

    // What covering from..to leaves, if there is room for it.
    fn change_of(self, from: u32, to: u32) -> Change
        ensures { result ≡ change_of (received_of self.entry) from to }
    {
        let ranges = self.ranges();
        let added = self.added(from, to);
        if u64::from(from) <= u64::from(self.contiguous) + 1 {
            let m = merge(ranges, 0, to.max(self.contiguous));
            return Change {
                before: 0,
                after: m.after,
                count: m.after,
                contiguous: m.to,
                from: m.from,
                to: m.to,
                moved: m.to != self.contiguous,
                added,
            };
        }
        let below = below(ranges, from);
        let m = merge(&ranges[below..], from, to);
        let before = below + 1;
        Change {
            before,
            after: m.after,
            count: before + m.after,
            contiguous: self.contiguous,
            from: m.from,
            to: m.to,
            moved: false,
            added,
        }
    }

    // What `insert` would answer; nothing is changed.
    pub fn plan(self, from: u32, to: u32) -> Result<Change, Question>
        ensures { answers result ≡ plan_of (received_of self.entry) (length self.entry.above.now) from to }
    {
        let change = self.change_of(from, to);
        if limit(self.above.len()) < change.count {
            return Err(Question::RangesFit);
        }
        Ok(change)
    }
}

// The same, in a list that is lent to be changed.
#[derive(Drop)]
pub struct ReceivedMut<'a> {
    pub contiguous: u32,
    // Kept: no heap: a list is lent longer than its ranges, and the count says how many there are
    pub above: &'a mut [u32],
    pub count: usize,
}

impl ReceivedMut<'_> {
    fn read(&self) -> Received<'_>
        ensures contiguous { result.contiguous ≡ self.now.contiguous }
        ensures above { result.above.now ≡ self.now.above.now }
        ensures count { result.count ≡ self.now.count }
    {
        Received {
            contiguous: self.contiguous,
            above: self.above,
            count: self.count,
        }
    }

    // Covers from..to: the ranges that it touches or overlaps become one with it, and contiguous moves where it reaches that.
    // A refusal changes nothing. Places that held a range and hold none any more become 0. In the contract `self.exit.1.0` is the list afterwards.
    pub fn insert(self, from: u32, to: u32) -> Result<Change, Question>
        ensures value { answers result ≡ plan_of (received_then self.entry) (length self.entry.above.now) from to }
        ensures above_after { self.exit.1.0.now ≡ list_after (received_then self.entry) self.entry.above.now from to }
    {
        let received = self.read();
        let change = received.plan(from, to)?;
        let held = received.ranges().len();
        apply(self.above, held, change);
        Ok(change)
    }
}
