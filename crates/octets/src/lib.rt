// Reads big-endian numbers of 16 and 32 bits in a slice of octets.
#![tactic(auto)]

ghost use Rattle.std.specs.Prelude.{◌≡◌, ◌+◌, ◌≤◌, length};
ghost use Rattle.octets.specs.Octets.{be16, be32};

// How many values an octet has, and how many a half of a 32-bit number.
pub const OCTET_VALUES: u16 = 0x100;

pub const HALF_VALUES: u32 = 0x1_0000;

// The 16-bit number at an offset.
#[tactic(auto, unfolding(crate::specs::Octets::be16))]
pub fn get16(s: &[u8], at: usize) -> u16
    requires room { at + 2 ≤ length s.now }
    ensures value { result ≡ be16 s.now at }
{
    u16::from_be_bytes([s[at], s[at + 1]])
}

// The 32-bit number at an offset.
#[tactic(auto, unfolding(crate::specs::Octets::be16, crate::specs::Octets::be32))]
pub fn get32(s: &[u8], at: usize) -> u32
    requires room { at + 4 ≤ length s.now }
    ensures value { result ≡ be32 s.now at }
{
    u32::from_be_bytes([s[at], s[at + 1], s[at + 2], s[at + 3]])
}
