// The walk over the packets of a datagram, a packet at a time. It accepts any octets and any offset.
#![tactic(auto)]

ghost use Rattle.std.specs.Prelude.{◌≡◌};
ghost use Rattle.datagram.specs.Walk.{packet_at_of};

use datagram::{RTCP_HEADER_OCTETS, RtcpPacket};
use packet::{PADDING_UNIT, VERSION, VERSION_UNIT, WORD_OCTETS};
use refusal::Refusal;

// The packet that stands at an offset, or the end, or that no packet stands there.
#[tactic(auto, using(crate::proofs::Fields::steps))]
pub fn next_packet(datagram: &[u8], at: usize) -> Result<Option<RtcpPacket>, Refusal>
    ensures value { result ≡ packet_at_of datagram.now at }
{
    if datagram.len() <= at {
        return Ok(None);
    }
    let left = datagram.len() - at;
    if left < RTCP_HEADER_OCTETS {
        return Err(Refusal::BadDatagram);
    }
    let first = datagram[at];
    if first / VERSION_UNIT != VERSION {
        return Err(Refusal::BadDatagram);
    }
    let size = WORD_OCTETS * ((octets::get16(datagram, at + 2) as usize) + 1);
    if left < size {
        return Err(Refusal::BadDatagram);
    }
    if size < left && first / PADDING_UNIT % 2 != 0 {
        return Err(Refusal::BadDatagram);
    }
    Ok(Some(RtcpPacket {
        packet_type: datagram[at + 1],
        format: first % PADDING_UNIT,
        at,
        size,
    }))
}
