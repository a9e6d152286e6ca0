// The lists of an opened contact, which a caller lends: chains in places of 51 bytes (the row's bytes, and 0 where superseded_s is absent), skipped keys
// in places of 46 bytes (the row's bytes), ranges and numbers flat. They are filled from a row that was read, sized, and written as a row has them.
#![tactic(auto)]

ghost use Rattle.std.specs.Prelude.{◌≡◌, ℕ, ◌+◌, ◌*◌, ◌≤◌, List, IfOk, length, take, drop};
ghost use Rattle.layout.specs.Form.{u32, times, print_many};
ghost use Rattle.layout.specs.Layout.{group};
ghost use Rattle.layout.specs.Says.{written_says};
ghost use Rattle.layout.specs.Write.{Written};
ghost use Rattle.rows.specs.Rows.{chain, skipped, range};
ghost use Rattle.put.specs.Put.{put, Wrote};
ghost use Rattle.contact_lists.specs.Lists.{items, Stands};
ghost use Rattle.contact_lists.specs.Places.{read_places, print_places};
ghost use Rattle.received.specs.Lent.{pairs, flat};
ghost use Rattle.contact_lent.specs.Lent.{size_of, sizes, Granted, chains_of, skipped_of, chain_size};

use layout::Question;
use rows::Dir;

// The bytes of a place: a chain with superseded_s, and a skipped key.
pub const CHAIN_PLACE: usize = 51;

// A chain that is not superseded.
const CHAIN_CURRENT: usize = 43;

pub const SKIPPED_PLACE: usize = 46;

// How many bytes the chain at `at` has, which its flag tells.
fn chain_len(bytes: &[u8], at: usize) -> usize
    requires { at + 43 ≤ length bytes.now }
    ensures { (result ≡ chain_size (drop at bytes.now)) × (result ≤ 51) }
{
    if bytes[at + 42] == 1 {
        CHAIN_PLACE
    } else {
        CHAIN_CURRENT
    }
}

// Kept: no heap: each list is lent, longer than its count, here and below.
// The `count` chains of a row from `first` on, in the first places of a lent list; behind a chain that is not superseded its place is 0.
pub fn fill_chains(row: &[u8], first: usize, count: usize, lent: &mut [u8])
    requires { Stands (group chain) row.now first count × (51 * count ≤ length lent.old) }
    ensures { lent.new ≡ put lent.old 0 (print_places 51 (group chain) (items (group chain) count (drop first row.now))) }
{
    let mut p = first;
    for i in 0..count {
        let n = chain_len(row, p);
        let at = put::put_run(lent, CHAIN_PLACE * i, row, p, n);
        put::put_zeros(lent, at, CHAIN_PLACE - n);
        p += n;
    }
}

// The `count` skipped keys of a row from `first` on, in the first places of a lent list.
pub fn fill_skipped(row: &[u8], first: usize, count: usize, lent: &mut [u8])
    requires { Stands (group skipped) row.now first count × (46 * count ≤ length lent.old) }
    ensures { lent.new ≡ put lent.old 0 (print_places 46 (group skipped) (items (group skipped) count (drop first row.now))) }
{
    put::put_run(lent, 0, row, first, SKIPPED_PLACE * count);
}

// The `count` numbers of a row from `first` on, at the front of a lent list.
pub fn fill_numbers(row: &[u8], first: usize, count: usize, lent: &mut [u32])
    requires { Stands u32 row.now first count × (count ≤ length lent.old) }
    ensures { lent.new ≡ put lent.old 0 (items u32 count (drop first row.now)) }
{
    let mut p = first;
    for i in 0..count {
        let Ok((n, next)) = fields::u32_at(row, p) else {
            return;
        };
        lent[i] = n;
        p = next;
    }
}

// The `count` ranges of a row from `first` on, at the front of a lent list.
pub fn fill_ranges(row: &[u8], first: usize, count: usize, lent: &mut [u32])
    requires { Stands (group range) row.now first count × (2 * count ≤ length lent.old) }
    ensures { lent.new ≡ put lent.old 0 (flat (items (group range) count (drop first row.now))) }
{
    fill_numbers(row, first, 2 * count, lent);
}

// A record in a lent place.
trait Place {
    const BYTES: usize;

    ghost BYTES: { ℕ };

    ghost row_size: { List ℕ → Written };

    // How many bytes a row has for the record in the place at `at`, or the question that reading it would refuse.
    fn size(lent: &[u8], at: usize) -> Result<usize, Question>
        requires { at + BYTES ≤ length lent.now }
        ensures { (written_says result ≡ row_size (drop at lent.now)) × IfOk result (λ n. n ≤ BYTES) };
}

struct Chain;

impl Place for Chain {
    const BYTES: usize = CHAIN_PLACE;

    ghost BYTES = { 51 };

    ghost row_size = { λ place. size_of (group chain) ((group chain).read (take 51 place)) };

    fn size(lent: &[u8], at: usize) -> Result<usize, Question> {
        fields::code_at::<Dir>(lent, at + 1)?;
        let (superseded, _next) = fields::flag_at(lent, at + 42)?;
        if superseded {
            return Ok(CHAIN_PLACE);
        }
        Ok(CHAIN_CURRENT)
    }
}

struct Skipped;

impl Place for Skipped {
    const BYTES: usize = SKIPPED_PLACE;

    ghost BYTES = { 46 };

    ghost row_size = { λ place. size_of (group skipped) ((group skipped).read (take 46 place)) };

    fn size(lent: &[u8], at: usize) -> Result<usize, Question> {
        fields::code_at::<Dir>(lent, at + 1)?;
        Ok(SKIPPED_PLACE)
    }
}

// How many bytes a row has for the records in the first `count` places, or the question that reading them would refuse.
fn places_size<P: Place>(lent: &[u8], count: usize) -> Result<usize, Question>
    requires { P.BYTES * count ≤ length lent.now }
    ensures { written_says result ≡ sizes P.BYTES P.row_size count lent.now }
{
    let mut n: usize = 0;
    for i in 0..count {
        n += P::size(lent, P::BYTES * i)?;
    }
    Ok(n)
}

pub fn chains_size(lent: &[u8], count: usize) -> Result<usize, Question>
    requires { 51 * count ≤ length lent.now }
    ensures { written_says result ≡ size_of (times (group chain) count) (read_places 51 (group chain) count lent.now) }
{
    places_size::<Chain>(lent, count)
}

pub fn skipped_size(lent: &[u8], count: usize) -> Result<usize, Question>
    requires { 46 * count ≤ length lent.now }
    ensures { written_says result ≡ size_of (times (group skipped) count) (read_places 46 (group skipped) count lent.now) }
{
    places_size::<Skipped>(lent, count)
}

// The chains of the first `count` places, as a row has them; the position behind them.
pub fn put_chains(out: &mut [u8], at: usize, lent: &[u8], count: usize) -> usize
    requires { (51 * count ≤ length lent.now) × Granted 51 (group chain) count lent.now × (at + length (print_many (group chain) (chains_of count lent.now)) ≤ length out.old) }
    ensures { (result ≡ at + length (print_many (group chain) (chains_of count lent.now))) × Wrote out.old at (print_many (group chain) (chains_of count lent.now)) out.new result }
{
    let mut p = at;
    for i in 0..count {
        let n = chain_len(lent, CHAIN_PLACE * i);
        p = put::put_run(out, p, lent, CHAIN_PLACE * i, n);
    }
    p
}

// The skipped keys of the first `count` places, as a row has them; the position behind them.
pub fn put_skipped(out: &mut [u8], at: usize, lent: &[u8], count: usize) -> usize
    requires { (46 * count ≤ length lent.now) × Granted 46 (group skipped) count lent.now × (at + length (print_many (group skipped) (skipped_of count lent.now)) ≤ length out.old) }
    ensures { (result ≡ at + length (print_many (group skipped) (skipped_of count lent.now))) × Wrote out.old at (print_many (group skipped) (skipped_of count lent.now)) out.new result }
{
    put::put_run(out, at, lent, 0, SKIPPED_PLACE * count)
}

// The first `count` numbers of a lent list; the position behind them.
pub fn put_numbers(out: &mut [u8], at: usize, list: &[u32], count: usize) -> usize
    requires { (count ≤ length list.now) × (at + 4 * count ≤ length out.old) }
    ensures { (result ≡ at + 4 * count) × Wrote out.old at (print_many u32 (take count list.now)) out.new result }
{
    let mut p = at;
    for n in &list[..count] {
        p = put::put_be(out, p, 4, u64::from(*n));
    }
    p
}

// The first `count` ranges of a lent list.
pub fn put_ranges(out: &mut [u8], at: usize, list: &[u32], count: usize) -> usize
    requires { (2 * count ≤ length list.now) × (at + 8 * count ≤ length out.old) }
    ensures { (result ≡ at + 8 * count) × Wrote out.old at (print_many (group range) (pairs count list.now)) out.new result }
{
    put_numbers(out, at, list, 2 * count)
}
