// Writes the header of a CCFB packet.
#![tactic(auto)]

ghost use Rattle.std.specs.Prelude.{◌≡◌, ◌≤◌, length};
ghost use Rattle.std.proofs.lemmas.List.Edits.{sets};
ghost use Rattle.packet.specs.Sizes.{packet_header_octets, most_octets};
ghost use Rattle.packet.specs.Packet.{packet_header};

use packet::{SENDER_AT, WORD_OCTETS};

// The first 16 bits of a packet: version 2, no padding, FMT 11, type 205.
const FIRST_BITS: u16 = 0x8BCD;

// Writes the header of a packet of so many octets.
#[tactic(auto, using(octets::proofs::Sets::sets_twice))]
pub fn put_header(out: &mut [u8], size: usize, sender: u32)
    requires room { packet_header_octets ≤ length out.old }
    requires some { 4 ≤ size }
    requires few { size ≤ most_octets }
    ensures content { out.new ≡ sets out.old 0 (packet_header size sender) }
{
    octets_put::put16(out, 0, FIRST_BITS);
    octets_put::put16(out, 2, (size / WORD_OCTETS - 1) as u16);
    octets_put::put32(out, SENDER_AT, sender);
}
