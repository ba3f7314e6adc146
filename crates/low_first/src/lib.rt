// Reads 16-bit numbers with the first octet low, only for speed: x86-64 stores numbers this way, so both octets are one
// load, and a loop over them becomes vector code.
#![tactic(auto)]

ghost use Rattle.std.specs.Prelude.{◌≡◌, ◌+◌, ◌≤◌, length};
ghost use Rattle.octets.specs.Octets.{be16};
ghost use Rattle.low_first.specs.LowFirst.{low_first};

// The two octets at an offset, the first one low.
pub fn low_first_at(s: &[u8], i: usize) -> u16
    requires room { i + 2 ≤ length s.now }
    ensures value { result ≡ low_first s.now i }
{
    u16::from_le_bytes([s[i], s[i + 1]])
}

// The big-endian number at an offset, as octets::get16 gives it: the two octets of one load, swapped.
#[tactic(auto, unfolding(octets::specs::Octets::be16))]
pub fn get16(s: &[u8], i: usize) -> u16
    requires room { i + 2 ≤ length s.now }
    ensures value { result ≡ be16 s.now i }
{
    low_first_at(s, i).swap_bytes()
}
