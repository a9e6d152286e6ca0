// The first entry that has a duplicate before it, at near linear cost in any order. Where every entry is above the one before it there is none. Else the entries are
// added one after the other to a filter of bits, a local array: a key one of whose bits is clear was not added, so its entry is new, and only of the others a duplicate
// is looked for. The filter holds so many keys; of more entries those of one part are added, and then those of the next, by a hash of their keys.
#![tactic(auto)]

ghost use Rattle.std.specs.Prelude.{◌≡◌, ◌<◌, ◌≤◌, length};
ghost use Rattle.store.specs.Kinds.{kind_of};
ghost use Rattle.store.specs.Store.{entry_at};
ghost use Rattle.store.specs.Find.{first_where};
ghost use Rattle.store.specs.Duplicates.{duplicate_of, asks_new, first_duplicate};
ghost use Rattle.restore_duplicates.specs.Above.{msgno_of, is_above, is_stop_at};
ghost use Rattle.restore_duplicates.specs.Keys.{hash_of};
ghost use Rattle.restore_duplicates.specs.Parts.{in_part, reach_of, added_key, turned_to, duplicate_in, duplicates_below, parts_for};

use store::{Entry, Wanted};

// One more than the highest number of 32 bits.
// Kept: no place of point 1: 2^32 parts a number into its halves, and numbers no kind.
const HALF: u64 = 4294967296;

// ---- keys

// The message of a queued row; a row of another kind has none.
fn msgno_of(e: Entry) -> u32
    ensures { result ≡ msgno_of e }
{
    if e.kind == store::QUEUED {
        return e.msgno;
    }
    0
}

// Whether entries of this kind have to be new.
fn asks_new(kind: u32) -> bool
    ensures { result ≡ asks_new (kind_of kind) }
{
    matches!(kind, store::CONTACT | store::QUEUED | store::COURIER)
}

fn duplicate_of(e: Entry) -> Wanted
    ensures { result ≡ duplicate_of e }
{
    Wanted {
        id: e.id,
        msgno: e.msgno,
        kind: e.kind,
    }
}

fn hash_of(e: Entry) -> u64
    ensures { result ≡ hash_of e }
{
    let kind = u64::from(e.kind);
    let msgno = u64::from(msgno_of(e));
    let low = ((e.id % HALF) * 2654435769).wrapping_add((e.id / HALF) * 668265263);
    let high = (msgno * 2246822519).wrapping_add(kind * 3266489917);
    let sum = low.wrapping_add(high);
    sum ^ (sum / HALF)
}

// ---- the entries that rise

// Whether the key of e is above that of b.
fn is_above(b: Entry, e: Entry) -> bool
    ensures { result ≡ is_above b e }
{
    (b.kind, b.id, msgno_of(b)) < (e.kind, e.id, msgno_of(e))
}

// Whether the i-th entry is not above the one before it; the first has none before it.
fn stops_at(entries: &[Entry], i: usize) -> bool
    ensures { result ≡ is_stop_at entries.now i }
{
    let b = restore_entries::entry_at(entries, i.saturating_sub(1));
    let e = restore_entries::entry_at(entries, i);
    i != 0 && !is_above(b, e)
}

// How many entries there are before the first that is not above the one before it.
fn rising(entries: &[Entry]) -> usize
    ensures { result ≡ first_where (is_stop_at entries.now) 0 (length entries.now) }
{
    for i in 0..entries.len() {
        if stops_at(entries, i) {
            return i;
        }
    }
    entries.len()
}

// ---- one pass: the entries of one part

// Whether the key with this hash is of this part.
fn in_part(h: u64, last: usize, part: usize) -> bool
    ensures { result ≡ in_part last part h }
{
    // Kept: the new form is no plainer: std has no From from u64 to usize, and try_from has an error that never comes
    (h / 274877906944) as usize & last == part
}

// How far a duplicate of the i-th entry is looked for: not at all where it need not be new, is of another part or is new by the filter.
fn reach(bits: &mut [u64], e: Entry, i: usize, last: usize, part: usize) -> usize
    ensures { (result ≡ reach_of bits.old last part e i) × (bits.new ≡ added_key bits.old last part e) }
{
    if !asks_new(e.kind) {
        return 0;
    }
    let h = hash_of(e);
    if in_part(h, last, part) && filter::add(bits, h) {
        i
    } else {
        0
    }
}

// The i-th entry, where it is of this part and has a duplicate; else `best`.
fn duplicate_at(
    entries: &[Entry],
    bits: &mut [u64],
    last: usize,
    part: usize,
    i: usize,
    best: usize,
) -> usize
    ensures { (result ≡ turned_to entries.now bits.old last part i best)
        × (bits.new ≡ added_key bits.old last part (entry_at entries.now i)) }
{
    let e = restore_entries::entry_at(entries, i);
    let upto = reach(bits, e, i, last, part);
    let wanted = duplicate_of(e);
    let t = restore_entries::find(entries, wanted, 0, upto);
    if t < upto { i } else { best }
}

// The first entry of this part that has a duplicate, below `best`; `best` where none has.
fn duplicates_in(
    entries: &[Entry],
    bits: &mut [u64],
    last: usize,
    part: usize,
    best: usize,
) -> usize
    ensures { result ≡ first_where (duplicate_in entries.now last part) 0 best }
{
    for i in 0..best {
        let first = duplicate_at(entries, bits, last, part, i, best);
        if first < best {
            return first;
        }
    }
    best
}

// A pass with a filter of so many words.
// Kept: the new form is no plainer: a bound of a const parameter has no type to stand in, so three functions require it
fn first_in<const WORDS: usize>(entries: &[Entry], last: usize, part: usize, best: usize) -> usize
    requires { WORDS ≤ 8192 }
    ensures { result ≡ first_where (duplicate_in entries.now last part) 0 best }
{
    // Kept: no heap: `first_of_few` and `first_of_many` give the filter its words, whatever the store holds
    let mut bits = [0; WORDS];
    duplicates_in(entries, &mut bits, last, part, best)
}

// ---- all passes: the parts below `parts`

fn first_below<const WORDS: usize>(
    entries: &[Entry],
    last: usize,
    parts: usize,
    best: usize,
) -> usize
    requires { WORDS ≤ 8192 }
    ensures { result ≡ first_where (duplicates_below entries.now last parts) 0 best }
{
    let mut first = best;
    for part in 0..parts {
        first = first_in::<WORDS>(entries, last, part, first);
    }
    first
}

// In how many parts many entries are taken: so that a part has some ten thousand keys.
fn parts_for(n: usize) -> usize
    ensures { result ≡ parts_for n }
{
    match n {
        ..=32768 => 1,
        ..=131072 => 4,
        ..=524288 => 16,
        ..=2097152 => 64,
        _ => 256,
    }
}

// None where all entries rise.
fn first_of<const WORDS: usize>(entries: &[Entry], parts: usize) -> usize
    requires { (WORDS ≤ 8192) × (0 < parts) }
    ensures { result ≡ first_duplicate entries.now }
{
    let n = entries.len();
    if rising(entries) == n {
        return n;
    }
    first_below::<WORDS>(entries, parts - 1, parts, n)
}

// The first entry that has a duplicate before it; the number of entries where none has. With a filter of 1 KB, enough for a thousand entries,
// Kept: what may not change: the clause answers how many entries there are where none has a duplicate (first_duplicate).
pub fn first_of_few(entries: &[Entry]) -> usize
    ensures { result ≡ first_duplicate entries.now }
{
    first_of::<128>(entries, 1)
}

// ... and with one of 64 KB.
pub fn first_of_many(entries: &[Entry]) -> usize
    ensures { result ≡ first_duplicate entries.now }
{
    first_of::<8192>(entries, parts_for(entries.len()))
}
