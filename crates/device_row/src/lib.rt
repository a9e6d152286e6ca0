// Device rows read into a struct and written from it, as state.rs has them.
#![tactic(auto)]

ghost use Rattle.std.specs.Prelude.{◌≡◌, ◌+◌, ◌≤◌, length};
ghost use Rattle.layout.specs.Layout.{read_row};
ghost use Rattle.layout.specs.Write.{asked, writes};
ghost use Rattle.put.specs.Put.{Wrote};
ghost use Rattle.rows.specs.Rows as layouts;
ghost use Rattle.layout.specs.Says.{answers, made, written_says, leaves};
ghost use Rattle.device_row.specs.Row.{device_of, DeviceTyped, image, courier_part};

use device::CourierConfig;
use layout::Question;

#[derive(Clone, Copy)]
pub struct Device {
    pub next_contact: u64,
    pub beacon_day: u32,
    pub courier: CourierConfig,
    pub read_receipts: bool,
    pub beacon_key: [u8; 32],
}

// Where a device row's key starts.
const BEACON_KEY_AT: usize = 4;

pub fn read_device(version: u32, row: &[u8]) -> Result<Device, Question>
    ensures { answers result ≡ made device_of (read_row (layouts.device version) row.now) }
{
    let at = device::check_device(version, row)?;
    Ok(Device {
        next_contact: at.next_contact,
        beacon_day: at.beacon_day,
        courier: at.courier,
        read_receipts: at.read_receipts,
        beacon_key: put::copy_array(row, BEACON_KEY_AT),
    })
}

impl Device {
    // How many bytes a device row has.
    pub const ROW_LEN: usize = 49;

    // Asks what reading the row would ask, then for room; a refusal writes nothing.
    // Kept: the new form is no plainer: SealedRow::row has this outline too; a trait over both is no plainer, since here there is no sealed text to pass on
    pub fn row(self, out: &mut [u8]) -> Result<usize, Question>
        ensures { leaves result out.new ≡ writes (layouts.device 3) (image self) out.old }
    {
        let n = device_size(self)?;
        if out.len() < n {
            return Err(Question::Output);
        }
        put_device(out, 0, self);
        Ok(n)
    }
}

// What the struct's type says of it, as a fact.
fn typed(device: Device) -> bool
    ensures { DeviceTyped device }
{
    true
}

// The length of the device's row, or the question that reading it would answer no.
fn device_size(device: Device) -> Result<usize, Question>
    ensures { written_says result ≡ asked (layouts.device 3) (image device) }
{
    typed(device);
    let courier = device.courier;
    CourierConfig::new(courier.enabled, courier.copies, courier.lifetime_min)?;
    Ok(Device::ROW_LEN)
}

// Writes the device's row where there is room; the place behind it.
#[tactic(auto, using(crate::proofs::Image::room))]
fn put_device(out: &mut [u8], at: usize, device: Device) -> usize
    requires { at + length (image device) ≤ length out.old }
    ensures { (result ≡ at + length (image device)) × Wrote out.old at (image device) out.new result }
{
    typed(device);
    let beacon_key_at = put::put_be(out, at, 4, u64::from(device.beacon_day));
    let beacon_key = device.beacon_key;
    let next_contact_at = put::put_array(out, beacon_key_at, &beacon_key);
    let read_receipts_at = put::put_be(out, next_contact_at, 8, device.next_contact);
    let courier_at = put::put_byte(out, read_receipts_at, u8::from(device.read_receipts));
    put_courier(out, courier_at, device.courier)
}

// The row from the courier settings on.
fn put_courier(out: &mut [u8], at: usize, courier: CourierConfig) -> usize
    requires { at + 4 ≤ length out.old }
    ensures { (result ≡ at + 4) × Wrote out.old at (courier_part courier) out.new result }
{
    let copies_at = put::put_byte(out, at, u8::from(courier.enabled));
    let lifetime_min_at = put::put_byte(out, copies_at, courier.copies);
    put::put_be(out, lifetime_min_at, 2, u64::from(courier.lifetime_min))
}
