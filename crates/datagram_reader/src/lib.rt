// CCFB packet k of a datagram, checked as the reader checks a packet. It accepts any octets, and answers or gives the
// first refusal. All headers are checked first, those after packet k too.
#![tactic(auto)]

ghost use Rattle.std.specs.Prelude.{◌≤◌, ◌≡◌, length};
ghost use Rattle.datagram.specs.Walk.{packet_end, packet_part, packets_from, packets_of};
ghost use Rattle.datagram_reader.specs.Reading.{located_feedback, lent_part, read_feedback, read_part};
ghost use Rattle.datagram_reader.specs.Steps.{found_before_of};

use datagram::RtcpPacket;
use refusal::Refusal;

// A packet that was found, if the rest of the datagram is packets too.
#[tactic(auto, using(crate::proofs::Answers::found_sound))]
fn found_in_whole(datagram: &[u8], p: RtcpPacket) -> Result<RtcpPacket, Refusal>
    requires within { packet_end p ≤ length datagram.now }
    ensures value { result ≡ found_before_of p (packets_from datagram.now (packet_end p)) }
{
    datagram_count::count_from(datagram, p.at + p.size)?;
    Ok(p)
}

// CCFB packet k of a datagram, by the headers.
#[tactic(auto, using(crate::proofs::Answers::searches))]
fn locate(datagram: &[u8], k: usize) -> Result<RtcpPacket, Refusal>
    ensures value { result ≡ located_feedback (packets_of datagram.now) k }
{
    let mut at = 0;
    let mut left = k;
    while let Some(p) = datagram_walk::next_packet(datagram, at)? {
        if datagram_count::is_ccfb(p.packet_type, p.format) {
            if left == 0 {
                return found_in_whole(datagram, p);
            }
            left -= 1;
        }
        at = p.at + p.size;
    }
    Err(Refusal::NoPacket)
}

// The octets of a packet of a datagram.
fn part_of<'a>(datagram: &'a [u8], p: RtcpPacket) -> &'a [u8]
    requires within { packet_end p ≤ length datagram.now }
    ensures part { result.now ≡ packet_part datagram.now p }
{
    &datagram[p.at..p.at + p.size]
}

// CCFB packet k, from 0, of a datagram: where it stands.
#[tactic(auto, using(crate::proofs::Answers::accepted_sound, crate::proofs::Within::located_within))]
pub fn feedback(datagram: &[u8], k: usize) -> Result<RtcpPacket, Refusal>
    ensures value { result ≡ read_feedback datagram.now k }
{
    let p = locate(datagram, k)?;
    reader::read(part_of(datagram, p))?;
    Ok(p)
}

// The part of the datagram that is CCFB packet k, from 0.
#[tactic(auto, using(crate::proofs::Within::feedback_within))]
pub fn feedback_part<'a>(datagram: &'a [u8], k: usize) -> Result<&'a [u8], Refusal>
    ensures part { lent_part result ≡ read_part datagram.now k }
{
    Ok(part_of(datagram, feedback(datagram, k)?))
}
