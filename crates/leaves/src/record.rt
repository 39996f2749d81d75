// A record: its kind, three bytes, a number of 32 bits and three of 64. An answer: two numbers of 64 bits. All are big-endian.
use crate::kind::Kind;

#[derive(Clone, Copy)]
pub(crate) struct Record {
    pub(crate) kind: Kind,
    pub(crate) a: u8,
    pub(crate) b: u8,
    pub(crate) c: u8,
    pub(crate) n: u32,
    pub(crate) x: u64,
    pub(crate) y: u64,
    pub(crate) z: u64,
}

// Each slice has as many bytes as its number, which is proved, so no `unwrap` fails; `first_chunk` would need one too.
impl From<&[u8; 32]> for Record {
    fn from(bytes: &[u8; 32]) -> Record {
        Record {
            kind: bytes[0].into(),
            a: bytes[1],
            b: bytes[2],
            c: bytes[3],
            n: u32::from_be_bytes(bytes[4..8].try_into().unwrap()),
            x: u64::from_be_bytes(bytes[8..16].try_into().unwrap()),
            y: u64::from_be_bytes(bytes[16..24].try_into().unwrap()),
            z: u64::from_be_bytes(bytes[24..32].try_into().unwrap()),
        }
    }
}

#[derive(Clone, Copy)]
pub(crate) struct Answer(pub(crate) u64, pub(crate) u64);

impl Answer {
    pub(crate) fn bytes(self) -> [u8; 16] {
        (u128::from(self.0) << 64 | u128::from(self.1)).to_be_bytes()
    }
}

impl Record {
    // The codes of the three axes.
    pub(crate) fn codes(self) -> [i16; 3] {
        [signed16(self.x), signed16(self.y), signed16(self.z)]
    }
}

// The lowest 16 bits as a signed number.
pub(crate) fn signed16(n: u64) -> i16 {
    ((n & 0xffff) as u16).cast_signed()
}

// A code, with 32768 added.
pub(crate) fn raised(code: i16) -> u64 {
    u64::from(code.cast_unsigned() ^ 0x8000)
}

// Two truths in one number.
pub(crate) fn truths(x: bool, y: bool) -> u64 {
    u64::from(x) << 1 | u64::from(y)
}
