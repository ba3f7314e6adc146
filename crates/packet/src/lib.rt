// The format of a CCFB packet: its constants, and the size of a block.
#![tactic(auto)]

ghost use Rattle.std.specs.Prelude.{◌≡◌};
ghost use Rattle.packet.specs.Sizes.{block_octets};

// A packet starts with version 2 (2 bits), the padding flag, FMT 11 (5 bits) and type 205 (8 bits).
pub const VERSION: u8 = 2;

pub const FORMAT: u8 = 11;

pub const PACKET_TYPE: u8 = 205;

// The lowest bit of the version, and the padding flag, in the first octet.
pub const VERSION_UNIT: u8 = 64;

pub const PADDING_UNIT: u8 = 32;

// Where the SSRC of the sender stands.
pub const SENDER_AT: usize = 4;

// A packet's header, a block's header and RTS, in octets; a packet without blocks has the first and the last.
pub const PACKET_HEADER_OCTETS: usize = 8;

pub const BLOCK_HEADER_OCTETS: usize = 8;

pub const RTS_OCTETS: usize = 4;

pub const PACKET_FRAME: usize = PACKET_HEADER_OCTETS + RTS_OCTETS;

// A block has at most so many reports.
pub const MOST_REPORTS: u16 = 16384;

// Blocks and packets are whole 32-bit words.
pub const WORD_OCTETS: usize = 4;

// The octets of a block of so many reports.
pub fn block_octets(num_reports: u16) -> usize
    ensures value { result ≡ block_octets num_reports }
{
    (BLOCK_HEADER_OCTETS + 2 * (num_reports as usize) + 3) / WORD_OCTETS * WORD_OCTETS
}
