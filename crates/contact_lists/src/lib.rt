// The counted lists of a contact row: where each starts and ends, and how many items it has. Nothing is copied.
#![tactic(auto)]

ghost use Rattle.std.specs.Prelude.{◌≡◌, ℕ, ◌*◌, ◌≤◌, List};
ghost use Rattle.layout.specs.Veil.{plain};
ghost use Rattle.layout.specs.Form.{bytes, u16, u32};
ghost use Rattle.layout.specs.Field.{Field, read_at};
ghost use Rattle.layout.specs.Layout.{group, list};
ghost use Rattle.layout.specs.Says.{answers, end_says};
ghost use Rattle.rows.specs.Rows.{chain, skipped, range};
ghost use Rattle.reader.specs.Reader.{ended};
ghost use Rattle.contact_lists.specs.Lists.{list_says, ListedAt};
ghost use Rattle.contact_lists.specs.Walked.{found, end_of};

use layout::Question;
use rows::Dir;

// How many bytes an item has, where all of a list have as many.
pub const SKIPPED_BYTES: usize = 46;

const RANGE_BYTES: usize = 8;

const NUMBER_BYTES: usize = 4;

// The items of a list: from first up to next.
#[derive(Clone, Copy)]
pub struct ListAt {
    pub first: usize,
    pub next: usize,
    pub count: usize,
}

// An item of a list: where one ends.
trait Item {
    ghost ends: { List ℕ → ℕ → Field (Unit {0}) };

    fn end(row: &[u8], at: usize) -> Result<usize, Question>
        ensures { end_says result ≡ ends row.now at };
}

struct Chain;

impl Item for Chain {
    ghost ends = { λ row at. ended (read_at (group chain) row at) };

    // gen, dir, next, key, and superseded_s behind its flag.
    fn end(row: &[u8], at: usize) -> Result<usize, Question> {
        let (_gen, at1) = fields::byte_at(row, at)?;
        let (_dir, at2) = fields::code_at::<Dir>(row, at1)?;
        let (_next, at3) = fields::u64_at(row, at2)?;
        let (_key, at4) = fields::run_at(row, at3, 32)?;
        let (superseded, at5) = fields::flag_at(row, at4)?;
        if !superseded {
            return Ok(at5);
        }
        let (_superseded_s, at6) = fields::u64_at(row, at5)?;
        Ok(at6)
    }
}

struct Skipped;

impl Item for Skipped {
    ghost ends = { λ row at. ended (read_at (group skipped) row at) };

    // In a row that holds all of a key's bytes only the dir among them is asked anything.
    fn end(row: &[u8], at: usize) -> Result<usize, Question> {
        if row.len().saturating_sub(at) < SKIPPED_BYTES {
            return reader::skipped_end(row, at);
        }
        fields::code_at::<Dir>(row, at + 1)?;
        Ok(at + SKIPPED_BYTES)
    }
}

// A count, and then so many items, one behind the other.
fn items_at<I: Item>(row: &[u8], at: usize) -> Result<ListAt, Question>
    ensures { answers result ≡ found (end_of (I.ends row.now)) (read_at u16 row.now at) }
{
    let (count, first) = fields::u16_at(row, at)?;
    let mut next = first;
    for _ in 0..count {
        next = I::end(row, next)?;
    }
    Ok(ListAt {
        first,
        next,
        count: usize::from(count),
    })
}

// A count, and then so many items of `width` bytes, of which nothing is asked.
fn plain_at(row: &[u8], at: usize, width: usize) -> Result<ListAt, Question>
    requires { width ≤ 8 }
    ensures { answers result ≡ found (λ n first. ended (read_at (bytes plain (width * n)) row.now first)) (read_at u16 row.now at) }
{
    let (count, first) = fields::u16_at(row, at)?;
    let count = usize::from(count);
    let (_start, next) = fields::run_at(row, first, width * count)?;
    Ok(ListAt { first, next, count })
}

pub fn chains_at(row: &[u8], at: usize) -> Result<ListAt, Question>
    ensures { (list_says (group chain) row.now result ≡ read_at (list (group chain)) row.now at) × ListedAt (group chain) row.now result }
{
    items_at::<Chain>(row, at)
}

pub fn skipped_at(row: &[u8], at: usize) -> Result<ListAt, Question>
    ensures { (list_says (group skipped) row.now result ≡ read_at (list (group skipped)) row.now at) × ListedAt (group skipped) row.now result }
{
    items_at::<Skipped>(row, at)
}

pub fn ranges_at(row: &[u8], at: usize) -> Result<ListAt, Question>
    ensures { (list_says (group range) row.now result ≡ read_at (list (group range)) row.now at) × ListedAt (group range) row.now result }
{
    plain_at(row, at, RANGE_BYTES)
}

pub fn numbers_at(row: &[u8], at: usize) -> Result<ListAt, Question>
    ensures { (list_says u32 row.now result ≡ read_at (list u32) row.now at) × ListedAt u32 row.now result }
{
    plain_at(row, at, NUMBER_BYTES)
}
