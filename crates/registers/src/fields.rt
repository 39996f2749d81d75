// Registers by address, and the fields of a register's byte: those of one bit by number, through `has`. Constants and no enums: an
// address is an index and a bit's number an amount to shift by, so each use of an enum would begin by casting it back. The registers are
// `[u8; 62]` and an image is `[u8; 19]` where they are named: an alias would not reach the definitions, which have words of their own.
ghost use Rattle.std.specs.Prelude.{◌≡◌, ◌/◌, ◌%◌, ◌^◌, ◌<◌};
ghost use Rattle.laws.specs.Bytes.{bit};
ghost use Rattle.registers.specs.Map.{counter_HG, counter_LG, any_motion_dur, HG_hyst, LG_hyst, range, bandwidth, wake_up_pause};

pub const CHIP_ID: usize = 0x00;

pub const VERSION: usize = 0x01;

pub const ACC_LSB: usize = 0x02;

pub const ACC_MSB: usize = 0x03;

pub const TEMP: usize = 0x08;

pub const STATUS: usize = 0x09;

pub const CONTROL: usize = 0x0a;

pub const CRITERIA: usize = 0x0b;

pub const LG_THRES: usize = 0x0c;

pub const LG_DUR: usize = 0x0d;

pub const HG_THRES: usize = 0x0e;

pub const HG_DUR: usize = 0x0f;

pub const ANY_MOTION_THRES: usize = 0x10;

pub const HYSTERESIS: usize = 0x11;

pub const MEASUREMENT: usize = 0x14;

pub const OPERATION: usize = 0x15;

pub const OFFSET_LSB: usize = 0x16;

pub const OFFSET_MSB: usize = 0x1a;

// Bits of ACC_LSB.
pub const NEW_DATA: u8 = 0;

// Bits of STATUS.
pub const ST_RESULT: u8 = 7;

// Bits of CONTROL.
pub const RESET_INT: u8 = 6;

pub const UPDATE_IMAGE: u8 = 5;

pub const EE_W: u8 = 4;

pub const SELF_TEST_1: u8 = 3;

pub const SELF_TEST_0: u8 = 2;

pub const SOFT_RESET: u8 = 1;

pub const SLEEP: u8 = 0;

// Bits of CRITERIA.
pub const ALERT: u8 = 7;

pub const ANY_MOTION: u8 = 6;

pub const ENABLE_HG: u8 = 1;

pub const ENABLE_LG: u8 = 0;

// Bits of OPERATION.
pub const SPI4: u8 = 7;

pub const ENABLE_ADV_INT: u8 = 6;

pub const NEW_DATA_INT: u8 = 5;

pub const LATCH_INT: u8 = 4;

pub const SHADOW_DIS: u8 = 3;

pub const WAKE_UP: u8 = 0;

// Bit k of a byte; there is none above 7.
pub fn has(byte: u8, k: u8) -> bool
    ensures { result ≡ bit byte k }
{
    k <= 7 && (byte >> k) & 1 == 1
}

// A field of WIDTH bits, its lowest at SHIFT.
fn field<const SHIFT: u8, const WIDTH: u8>(byte: u8) -> u8
    requires shift { SHIFT < 8 }
    requires width { WIDTH < 8 }
    ensures { result ≡ byte / 2 ^ SHIFT % 2 ^ WIDTH }
{
    (byte >> SHIFT) & ((1 << WIDTH) - 1)
}

// The fields of more than one bit, by the data sheet's names: each says its place in the register, and no more.

pub fn counter_hg(criteria: u8) -> u8
    ensures { result ≡ counter_HG criteria }
{
    field::<4, 2>(criteria)
}

pub fn counter_lg(criteria: u8) -> u8
    ensures { result ≡ counter_LG criteria }
{
    field::<2, 2>(criteria)
}

pub fn any_motion_dur(hysteresis: u8) -> u8
    ensures { result ≡ any_motion_dur hysteresis }
{
    field::<6, 2>(hysteresis)
}

pub fn hg_hyst(hysteresis: u8) -> u8
    ensures { result ≡ HG_hyst hysteresis }
{
    field::<3, 3>(hysteresis)
}

pub fn lg_hyst(hysteresis: u8) -> u8
    ensures { result ≡ LG_hyst hysteresis }
{
    field::<0, 3>(hysteresis)
}

pub fn range(measurement: u8) -> u8
    ensures { result ≡ range measurement }
{
    field::<3, 2>(measurement)
}

pub fn bandwidth(measurement: u8) -> u8
    ensures { result ≡ bandwidth measurement }
{
    field::<0, 3>(measurement)
}

pub fn wake_up_pause(operation: u8) -> u8
    ensures { result ≡ wake_up_pause operation }
{
    field::<1, 2>(operation)
}
