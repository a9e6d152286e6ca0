// Veil, document 01's: a row alone, copied with 0 for its veiled bytes. The row is read, the veiled fields are set to 0, and it is written again;
// a contact row is checked, and copied part by part.
#![tactic(auto)]

ghost use Rattle.std.specs.Prelude.{◌≡◌};
ghost use Rattle.rows.specs.Rows as layouts;
ghost use Rattle.layout.specs.Says.{leaves};
ghost use Rattle.veil.specs.Veil.{veils, veil_of, VeiledText, queued_without_s, held_without_s};

use courier_row::Held;
use layout::Question;
use queued_row::Outgoing;
use sealed::SealedRow;
use store::{CONTACT, COURIER, DEVICE, QUEUED};

// The longest sealed text.
const SEALED_MAX: usize = 4064;

// Veiled: the beacon key.
fn veil_device(version: u32, row: &[u8], out: &mut [u8]) -> Result<usize, Question>
    ensures { leaves result out.new ≡ veils (layouts.device version) row.now out.old }
{
    let mut device = device_row::read_device(version, row)?;
    device.beacon_key = [0; 32];
    device.row(out)
}

// A row with a sealed text, of whose other fields only s is veiled.
trait Veiled: SealedRow {
    ghost blanked: { Self → Self };

    fn without_s(self) -> Self
        ensures { result ≡ blanked self };
}

// Its s is that of the own envelope.
impl Veiled for Outgoing {
    ghost blanked = { queued_without_s };

    fn without_s(self) -> Self {
        let mut queued = self;
        queued.s = [0; 16];
        queued
    }
}

// Only a tombstone has an s.
impl Veiled for Held {
    ghost blanked = { held_without_s };

    fn without_s(self) -> Self {
        let mut held = self;
        held.s = [0; 16];
        held
    }
}

// Veiled: s and the sealed text. What is required is proved of each row here, where a law of the trait could not cite it.
fn veil_sealed<R: Veiled>(version: u32, row: &[u8], out: &mut [u8]) -> Result<usize, Question>
    requires { VeiledText R.layout R.parts R.image R.blanked version row.now }
    ensures { leaves result out.new ≡ veils (R.layout version) row.now out.old }
{
    let (sealed_at, read) = R::read(version, row)?;
    // Kept: a text's zeros need memory of a fixed size, since there is no heap
    let zeros = [0u8; SEALED_MAX];
    let len = row.len() - sealed_at;
    read.without_s().row(&zeros[..len], out)
}

// Veiled: the card's beacon key, the doors, the route key, and the keys of chains, pending and skipped. The card's 1184-byte key is not.
fn veil_contact(version: u32, row: &[u8], out: &mut [u8]) -> Result<usize, Question>
    ensures { leaves result out.new ≡ veils (layouts.contact version) row.now out.old }
{
    let at = contact::check_contact(version, row)?;
    let n = row.len();
    if out.len() < n {
        return Err(Question::Output);
    }
    let keys_at = veil_contact::veil_paired(out, 0, row, at.paired);
    let chained_at = veil_contact::veil_keys(out, keys_at, at.keys);
    let numbers_at = veil_contact::veil_chained(out, chained_at, row, at.chained);
    put::put_run(out, numbers_at, row, numbers_at, n - numbers_at);
    Ok(n)
}

// A row of the kind 0 device, 1 contact, 2 queued or 3 courier. Another kind is refused before all else.
pub fn veil(kind: u32, version: u32, row: &[u8], out: &mut [u8]) -> Result<usize, Question>
    ensures { leaves result out.new ≡ veil_of kind version row.now out.old }
{
    // Kept: a kind is a number that C gives, and each number has an answer; version, row and out go one by one through C and the checks.
    match kind {
        DEVICE => veil_device(version, row, out),
        CONTACT => veil_contact(version, row, out),
        QUEUED => veil_sealed::<Outgoing>(version, row, out),
        COURIER => veil_sealed::<Held>(version, row, out),
        _ => Err(Question::Code),
    }
}
