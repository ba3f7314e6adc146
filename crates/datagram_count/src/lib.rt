// How many CCFB packets a datagram holds. It accepts any octets; the header alone tells a CCFB packet.
#![tactic(auto)]

ghost use Rattle.std.specs.Prelude.{◌≡◌};
ghost use Rattle.datagram.specs.Walk.{packets_from, packets_of};
ghost use Rattle.datagram.specs.Feedback.{is_ccfb};
ghost use Rattle.datagram_count.specs.Count.{count_of};

use packet::{FORMAT, PACKET_TYPE};
use refusal::Refusal;

// Whether these are the type and the FMT of a CCFB packet. Only our own crates call it.
pub fn is_ccfb(packet_type: u8, format: u8) -> bool
    ensures value { result ≡ is_ccfb packet_type format }
{
    packet_type == PACKET_TYPE && format == FORMAT
}

// How many CCFB packets the walk that starts at an offset finds. Only our own crates call it.
#[tactic(auto, using(crate::proofs::Counts::counts))]
pub fn count_from(datagram: &[u8], from: usize) -> Result<usize, Refusal>
    ensures value { result ≡ count_of (packets_from datagram.now from) }
{
    let mut at = from;
    let mut n = 0;
    while let Some(p) = datagram_walk::next_packet(datagram, at)? {
        if is_ccfb(p.packet_type, p.format) {
            n += 1;
        }
        at = p.at + p.size;
    }
    Ok(n)
}

// How many CCFB packets a datagram holds.
pub fn count_feedback(datagram: &[u8]) -> Result<usize, Refusal>
    ensures value { result ≡ count_of (packets_of datagram.now) }
{
    count_from(datagram, 0)
}
