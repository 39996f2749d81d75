// Codes, offsets and temperatures, and the register bits that hold them.
ghost use Rattle.std.specs.Prelude.{◌≡◌, ◌*◌, pos};
ghost use Rattle.registers.specs.Codes.{offset, ten_bits, code_low, code_high, range_g, code, temperature};

use crate::fields::NEW_DATA;

// Millionths of g from which on a code is a limit, whatever the offset and the range: a million g.
const FAR: i64 = 1_000_000_000_000;

// The ten-bit offset, joined from two registers.
pub fn offset(lsb: u8, msb: u8) -> u16
    ensures { result ≡ offset lsb msb }
{
    (u16::from(msb) << 2) | u16::from(lsb >> 6)
}

// The lowest ten bits of a code.
fn ten_bits(code: i16) -> u16
    ensures { result ≡ ten_bits code }
{
    code.cast_unsigned() & 0x3ff
}

// The register of a code's bits 1..0, with new_data set.
pub fn code_low(code: i16) -> u8
    ensures { result ≡ code_low code }
{
    ((ten_bits(code) & 3) as u8) << 6 | 1 << NEW_DATA
}

// The register of a code's bits 9..2.
pub fn code_high(code: i16) -> u8
    ensures { result ≡ code_high code }
{
    (ten_bits(code) >> 2) as u8
}

// The range in millionths of g that the two bits of `range` choose.
#[tactic(auto, unfolding(crate::specs::Codes::range_g))]
fn divisor(range: u8) -> i64
    ensures { result ≡ pos (range_g range * 1000000) }
{
    match range {
        0 => 2000000,
        1 => 4000000,
        _ => 8000000,
    }
}

// The code of an acceleration in millionths of g. Without its first line the product could overflow.
#[tactic(auto, unfolding(crate::specs::Codes::code))]
pub fn code(acceleration: i64, offset: u16, range: u8) -> i16
    ensures { result ≡ code acceleration offset range }
{
    let near = acceleration.clamp(-FAR, FAR);
    let scaled = (near + (i64::from(offset) - 512) * 31250) * 512;
    (scaled / divisor(range)).clamp(-512, 511) as i16
}

// The temperature register of thousandths of a degree.
#[tactic(auto, unfolding(crate::specs::Codes::temperature))]
pub fn temperature(millicelsius: i32) -> u8
    ensures { result ≡ temperature millicelsius }
{
    ((i64::from(millicelsius) + 30000) / 500).clamp(0, 255) as u8
}
