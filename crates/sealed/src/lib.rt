// What the rows that hold a sealed text share: which lengths are allowed, and the text as a part of its row.
#![tactic(auto)]

ghost use Rattle.std.specs.Prelude.{◌≡◌, ℕ, ◌+◌, ◌≤◌, List, length, drop, eqb};
ghost use Rattle.layout.specs.Layout.{Layout, read_row};
ghost use Rattle.layout.specs.Says.{answers, made, written_says, leaves};
ghost use Rattle.layout.specs.Write.{asked, writes};
ghost use Rattle.put.specs.Put.{Wrote};
ghost use Rattle.rows.specs.Checks.{any, sealed_queued, sealed_carried};
ghost use Rattle.rows.specs.Checks as checks;

use layout::Question;

// The lengths that a text may have before it is sealed.
pub const INNER_BUCKETS: [usize; 8] = [32, 64, 128, 256, 512, 1024, 2048, 4048];

// How much sealing adds.
pub const TAG_LEN: usize = 16;

// The longest text that a courier carries, before it is sealed.
pub const COURIER_INNER_MAX: usize = 2048;

// Whether a text of this length fills a bucket: the table is searched.
fn is_bucket(inner: usize) -> bool
    ensures { result ≡ any (λ bucket. eqb inner bucket) checks.INNER_BUCKETS }
{
    INNER_BUCKETS.contains(&inner)
}

// Whether a queued row's sealed text may be this long.
pub fn sealed_queued(len: usize) -> bool
    ensures { result ≡ sealed_queued len }
{
    if len < TAG_LEN {
        return false;
    }
    is_bucket(len - TAG_LEN)
}

// Whether a carried row's sealed text may be this long. A row that is read and written again is asked twice; inlined, the second answer is known.
#[inline(always)]
pub fn sealed_carried(len: usize) -> bool
    ensures { result ≡ sealed_carried len }
{
    if len < TAG_LEN {
        return false;
    }
    let inner = len - TAG_LEN;
    if COURIER_INNER_MAX < inner {
        return false;
    }
    is_bucket(inner)
}

// The part of a row from a position on, which is empty past the row's end: how a sealed text is handed on.
pub fn sealed_text(row: &[u8], at: usize) -> &[u8]
    ensures { result.now ≡ drop at row.now }
{
    let len = row.len();
    if at <= len {
        return &row[at..];
    }
    &row[len..]
}

// A struct of a row that ends in a sealed text: all but the text, which stays in the row.
pub trait SealedRow: Copy {
    // what rows of each version hold
    ghost value: { Type 0 };

    ghost layout: { ℕ → Layout value };

    // what is read off a row: where its sealed text starts, and the struct
    ghost parts: { List ℕ → value → ℕ × Self };

    // the row that the struct and a sealed text stand for
    ghost image: { Self → List ℕ → List ℕ };

    // Where the row's sealed text starts, and the struct.
    fn read(version: u32, row: &[u8]) -> Result<(usize, Self), Question>
        ensures { answers result ≡ made (parts row.now) (read_row (layout version) row.now) };

    // The length of the row with this sealed text, or the question that reading it would answer no.
    fn size(self, sealed: &[u8]) -> Result<usize, Question>
        ensures { written_says result ≡ asked (layout 3) (image self sealed.now) };

    // Writes the row with this sealed text, where there is room; the place behind it.
    fn put(self, sealed: &[u8], out: &mut [u8], at: usize) -> usize
        requires { at + length (image self sealed.now) ≤ length out.old }
        ensures { (result ≡ at + length (image self sealed.now)) × Wrote out.old at (image self sealed.now) out.new result };

    // Writes the row with this sealed text. Asks what reading the row would ask, then for room; a refusal writes nothing.
    fn row(self, sealed: &[u8], out: &mut [u8]) -> Result<usize, Question>
        ensures { leaves result out.new ≡ writes (layout 3) (image self sealed.now) out.old }
    {
        let n = self.size(sealed)?;
        if out.len() < n {
            return Err(Question::Output);
        }
        self.put(sealed, out, 0);
        Ok(n)
    }
}
