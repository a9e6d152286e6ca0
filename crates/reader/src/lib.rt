// The cursor of state.rs: a row and a position in it, which each of its methods moves behind what it takes. It is private, as there; `range_at` and `skipped_end` read through it, field by field up to the first refusal.
#![tactic(auto)]

ghost use Rattle.std.specs.Prelude.{◌≡◌, length};
ghost use Rattle.layout.specs.Questions.{ROW_END};
ghost use Rattle.layout.specs.Veil.{plain};
ghost use Rattle.layout.specs.Form.{bytes, u8, u16, u32, u64, flag, no_more};
ghost use Rattle.layout.specs.Field.{read_at};
ghost use Rattle.layout.specs.Layout.{group};
ghost use Rattle.layout.specs.Says.{says, end_says};
ghost use Rattle.rows.specs.Rows.{dir, range, skipped};
ghost use Rattle.reader.specs.Reader.{taken, taken_as, Stays, range_says, ended};

use layout::Question;
use rows::Dir;

#[derive(Drop)]
struct Reader<'a> {
    row: &'a [u8],
    at: usize,
}

impl<'a> Reader<'a> {
    fn new(row: &'a [u8], at: usize) -> Reader<'a>
        ensures { (result.row ≡ row.entry) × (result.at ≡ at) }
    {
        Reader { row, at }
    }

    // Behind what a field's reader took at the position.
    fn past<T: Copy>(&mut self, field: Result<(T, usize), Question>) -> Result<T, Question>
        ensures { (taken result self.new.at ≡ says field) × Stays self.old self.new result }
    {
        let (value, next) = field?;
        self.at = next;
        Ok(value)
    }

    fn take(&mut self, length: usize) -> Result<&'a [u8], Question>
        ensures { (taken_as (λ run. run.now) result self.new.at ≡ read_at (bytes plain length) self.old.row.now self.old.at) × Stays self.old self.new result }
    {
        let (start, next) = fields::run_at(self.row, self.at, length)?;
        self.at = next;
        Ok(&self.row[start..next])
    }

    fn byte(&mut self) -> Result<u8, Question>
        ensures { (taken result self.new.at ≡ read_at u8 self.old.row.now self.old.at) × Stays self.old self.new result }
    {
        self.past(fields::byte_at(self.row, self.at))
    }

    fn flag(&mut self) -> Result<bool, Question>
        ensures { (taken result self.new.at ≡ read_at flag self.old.row.now self.old.at) × Stays self.old self.new result }
    {
        self.past(fields::flag_at(self.row, self.at))
    }

    fn dir(&mut self) -> Result<Dir, Question>
        ensures { (taken result self.new.at ≡ read_at dir self.old.row.now self.old.at) × Stays self.old self.new result }
    {
        self.past(fields::code_at(self.row, self.at))
    }

    fn u32(&mut self) -> Result<u32, Question>
        ensures { (taken result self.new.at ≡ read_at u32 self.old.row.now self.old.at) × Stays self.old self.new result }
    {
        self.past(fields::u32_at(self.row, self.at))
    }

    fn u64(&mut self) -> Result<u64, Question>
        ensures { (taken result self.new.at ≡ read_at u64 self.old.row.now self.old.at) × Stays self.old self.new result }
    {
        self.past(fields::u64_at(self.row, self.at))
    }

    // How many items a list has.
    fn count(&mut self) -> Result<u16, Question>
        ensures { (taken result self.new.at ≡ read_at u16 self.old.row.now self.old.at) × Stays self.old self.new result }
    {
        self.past(fields::u16_at(self.row, self.at))
    }

    // Whether nothing is left.
    fn end(&self) -> Result<(), Question>
        ensures { taken result (length self.now.row.now) ≡ read_at (no_more ROW_END) self.now.row.now self.now.at }
    {
        if self.at < self.row.len() {
            return Err(Question::RowEnd);
        }
        Ok(())
    }
}

// The range at a position.
pub fn range_at(row: &[u8], at: usize) -> Result<((u32, u32), usize), Question>
    ensures { range_says result ≡ read_at (group range) row.now at }
{
    let mut reader = Reader::new(row, at);
    let from = reader.u32()?;
    let to = reader.u32()?;
    Ok(((from, to), reader.at))
}

// Where a skipped key ends: gen, dir, idx, key, created_s.
pub fn skipped_end(row: &[u8], at: usize) -> Result<usize, Question>
    ensures { end_says result ≡ ended (read_at (group skipped) row.now at) }
{
    let mut reader = Reader::new(row, at);
    reader.byte()?;
    reader.dir()?;
    reader.u32()?;
    reader.take(32)?;
    reader.u64()?;
    Ok(reader.at)
}
