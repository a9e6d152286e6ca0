// Device rows, as state.rs has them: the courier settings, and the questions of a row.
#![tactic(auto)]

ghost use Rattle.std.specs.Prelude.{◌≡◌};
ghost use Rattle.layout.specs.Layout.{read_row};
ghost use Rattle.rows.specs.Rows as layouts;
ghost use Rattle.layout.specs.Says.{answers, answer_says};
ghost use Rattle.device.specs.Device.{new_config, default_config, device_from, Placed};

use layout::Question;

// The device's courier settings: the envelope lifetime in minutes, the copy budget, and whether it carries at all.
#[derive(Clone, Copy)]
pub struct CourierConfig {
    pub lifetime_min: u16,
    pub copies: u8,
    pub enabled: bool,
}

impl CourierConfig {
    pub const MIN_COPIES: u8 = 1;

    pub const MAX_COPIES: u8 = 16;

    pub const MIN_LIFETIME_MIN: u16 = 60;

    pub const MAX_LIFETIME_MIN: u16 = 10080;

    pub const DEFAULT_ENABLED: bool = true;

    pub const DEFAULT_COPIES: u8 = 6;

    pub const DEFAULT_LIFETIME_MIN: u16 = 1440;

    // Question 11.
    pub fn new(enabled: bool, copies: u8, lifetime_min: u16) -> Result<CourierConfig, Question>
        ensures { answers result ≡ new_config enabled copies lifetime_min }
    {
        if copies < Self::MIN_COPIES || Self::MAX_COPIES < copies {
            return Err(Question::CourierConfig);
        }
        if lifetime_min < Self::MIN_LIFETIME_MIN || Self::MAX_LIFETIME_MIN < lifetime_min {
            return Err(Question::CourierConfig);
        }
        Ok(CourierConfig {
            lifetime_min,
            copies,
            enabled,
        })
    }

    pub fn default() -> CourierConfig
        ensures { result ≡ default_config }
    {
        CourierConfig {
            lifetime_min: Self::DEFAULT_LIFETIME_MIN,
            copies: Self::DEFAULT_COPIES,
            enabled: Self::DEFAULT_ENABLED,
        }
    }
}

// A device row's numbers.
#[derive(Clone, Copy)]
pub struct DeviceAt {
    pub next_contact: u64,
    pub beacon_day: u32,
    pub courier: CourierConfig,
    pub read_receipts: bool,
}

// The questions of a device row; nothing is copied.
pub fn check_device(version: u32, row: &[u8]) -> Result<DeviceAt, Question>
    ensures { (answer_says (device_from row.now) result ≡ read_row (layouts.device version) row.now) × Placed row.now result }
{
    if version != rows::BLOB_VERSION {
        return Err(Question::Version);
    }
    let (beacon_day, at1) = fields::u32_at(row, 0)?;
    let (_beacon_key, at2) = fields::run_at(row, at1, 32)?;
    let (next_contact, at3) = fields::u64_at(row, at2)?;
    let (read_receipts, at4) = fields::flag_at(row, at3)?;
    let (enabled, at5) = fields::flag_at(row, at4)?;
    let (copies, at6) = fields::byte_at(row, at5)?;
    let (lifetime_min, at7) = fields::u16_at(row, at6)?;
    let courier = CourierConfig::new(enabled, copies, lifetime_min)?;
    if at7 < row.len() {
        return Err(Question::RowEnd);
    }
    Ok(DeviceAt {
        next_contact,
        beacon_day,
        courier,
        read_receipts,
    })
}
