// The header of a CCFB packet, which may be any octets: a walk over the blocks starts behind it.
#![tactic(auto)]

ghost use Rattle.std.specs.Prelude.{◌≡◌};
ghost use Rattle.packet_header.specs.Header.{start_of};

use packet::{
    FORMAT, PACKET_FRAME, PACKET_HEADER_OCTETS, PACKET_TYPE, PADDING_UNIT, VERSION, VERSION_UNIT,
    WORD_OCTETS,
};
use refusal::Refusal;

// Where a walk over the blocks of a packet stands: an offset into the packet.
#[derive(Clone, Copy)]
pub struct Cursor {
    pub at: usize,
}

// A cursor at the first block, or the first of the header's refusals, 21 to 25.
#[tactic(auto, using(crate::proofs::Starts::starts))]
pub fn read_header(packet: &[u8]) -> Result<Cursor, Refusal>
    ensures value { result ≡ start_of packet.now }
{
    if packet.len() < PACKET_FRAME {
        return Err(Refusal::PacketTooShort);
    }
    let first = packet[0];
    if first / VERSION_UNIT != VERSION {
        return Err(Refusal::BadVersion);
    }
    if packet[1] != PACKET_TYPE {
        return Err(Refusal::BadType);
    }
    if first % PADDING_UNIT != FORMAT {
        return Err(Refusal::BadType);
    }
    if WORD_OCTETS * ((octets::get16(packet, 2) as usize) + 1) != packet.len() {
        return Err(Refusal::BadLength);
    }
    if first / PADDING_UNIT % 2 != 0 {
        return Err(Refusal::Padded);
    }
    Ok(Cursor {
        at: PACKET_HEADER_OCTETS,
    })
}
