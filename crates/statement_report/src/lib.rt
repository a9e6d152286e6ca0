// The text of a sheet, from what its reader leaves: the state behind the last byte, the run with the blob bytes and the records of the lines.
// The store that was read is restored, and its text written; a refusal has a line of its own. A state that no reader left may say more lines or blob bytes than
// the lent lists have room for: as many count as there is room for.
#![tactic(auto)]

ghost use Rattle.std.specs.Prelude.{◌≡◌, ◌≤◌, length};
ghost use Rattle.layout.specs.Write.{stored};
ghost use Rattle.layout.specs.Says.{leaves};
ghost use Rattle.sheet.specs.Machine.{answer_of};
ghost use Rattle.sheet_entries.specs.Table.{entries_from};
ghost use Rattle.statement_text.specs.Text.{text_of};
ghost use Rattle.statement_text.specs.Lines.{TEXT_BYTES};
ghost use Rattle.statement_report.specs.Report.{read_text, report_of};

use layout::Question;
use sheet::{BLOB_BYTES, LINES, RECORD, Read, State};

const LETTER_R: u8 = 0x52;

const LETTER_X: u8 = 0x58;

// The text of a store of n entries.
// Kept: here and below, the new form is no plainer: std has no `From` from `usize` to `u64`, and try_from has an error that never comes.
fn report_store(run: &[u8], records: &[u64], n: usize, out: &mut [u8]) -> Result<usize, Question>
    requires { (length run.now ≤ 61440) × (n ≤ 512) }
    ensures out_after { leaves result out.new ≡ stored (text_of run.now (entries_from n records.now)) out.old }
    ensures records_len_bound { length (text_of run.now (entries_from n records.now)) ≤ TEXT_BYTES }
{
    match sheet_entries::restore(run, records, n) {
        Ok(granted) => statement_text::write_granted(run, records, n, granted.next_slot, out),
        Err(refusal) => {
            let number = u64::from(refusal.question.number());
            statement_text::write_refused(LETTER_R, number, refusal.place as u64, out)
        }
    }
}

// The text of so many lines and blob bytes.
fn report_read(run: &[u8], records: &[u64], read: Read, out: &mut [u8]) -> Result<usize, Question>
    ensures out_after { leaves result out.new ≡ stored (read_text read run.now records.now) out.old }
    ensures records_len_bound { length (read_text read run.now records.now) ≤ TEXT_BYTES }
{
    let bytes = read.bytes.min(sheet::room_for(BLOB_BYTES, run.len()));
    let n = read
        .lines
        .min(sheet::room_for(LINES, records.len() / RECORD));
    report_store(&run[..bytes], records, n, out)
}

// The whole text that the program `statement` prints.
pub fn report(state: State, run: &[u8], records: &[u64], out: &mut [u8]) -> Result<usize, Question>
    ensures out_after { leaves result out.new ≡ stored (report_of (answer_of state) run.now records.now) out.old }
    ensures records_len_bound { length (report_of (answer_of state) run.now records.now) ≤ TEXT_BYTES }
{
    match sheet::finish(state) {
        Ok(read) => report_read(run, records, read, out),
        Err(refusal) => {
            let number = u64::from(refusal.number);
            statement_text::write_refused(LETTER_X, number, refusal.line as u64, out)
        }
    }
}
