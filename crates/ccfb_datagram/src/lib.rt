// The calls for C that find packets in a datagram: how many CCFB packets there are, CCFB packet k, and packet after packet
// of any type.
#![tactic(auto)]

ghost use Rattle.std.specs.Prelude.{◌≡◌, [], ◌∷◌};
ghost use Rattle.datagram.specs.Walk.{packet_at_of, packets_of};
ghost use Rattle.datagram_count.specs.Count.{count_of};
ghost use Rattle.datagram_reader.specs.Reading.{read_feedback};
ghost use Rattle.ccfb_calls.specs.Called.{called};
ghost use Rattle.ccfb_datagram.specs.Datagrams.{count_called, feedback_called, packet_called};

use refusal::Refusal;

// How many CCFB packets a datagram holds. Refusal 31.
#[unsafe(no_mangle)]
pub extern "C" fn ccfb_feedback_count(datagram: &[u8], count: &mut usize) -> u8
    ensures after { called result (count.new ∷ [])
        ≡ count_called (count_of (packets_of datagram.now)) (count.old ∷ []) }
{
    let answer = datagram_count::count_feedback(datagram);
    match answer {
        Ok(n) => {
            *count = n;
            0
        }
        Err(e) => refusal::number(e),
    }
}

// CCFB packet k, from 0: where it starts, and how many octets it has. Refusals 31, 32, 21, 25 to 28; both numbers are
// then 0.
#[unsafe(no_mangle)]
pub extern "C" fn ccfb_feedback(
    datagram: &[u8],
    k: usize,
    packet_at: &mut usize,
    packet_length: &mut usize,
) -> u8
    ensures after { called result (packet_at.new ∷ packet_length.new ∷ [])
        ≡ feedback_called (read_feedback datagram.now k) }
{
    let answer = datagram_reader::feedback(datagram, k);
    match answer {
        Ok(found) => {
            *packet_at = found.at;
            *packet_length = found.size;
            0
        }
        Err(e) => {
            *packet_at = 0;
            *packet_length = 0;
            refusal::number(e)
        }
    }
}

// The packet at an offset, of any type, and the offset moves behind it. Refusal 31, and 32 where the datagram ends.
#[unsafe(no_mangle)]
pub extern "C" fn ccfb_next_packet(
    datagram: &[u8],
    at: &mut usize,
    packet_type: &mut u8,
    format: &mut u8,
    packet_at: &mut usize,
    packet_length: &mut usize,
) -> u8
    ensures after { called result
        (at.new ∷ packet_type.new ∷ format.new ∷ packet_at.new
        ∷ packet_length.new ∷ [])
        ≡ packet_called (packet_at_of datagram.now at.old)
        (at.old ∷ packet_type.old ∷ format.old ∷ packet_at.old
        ∷ packet_length.old ∷ []) }
{
    match datagram_walk::next_packet(datagram, *at) {
        Ok(Some(p)) => {
            *at = p.at + p.size;
            *packet_type = p.packet_type;
            *format = p.format;
            *packet_at = p.at;
            *packet_length = p.size;
            0
        }
        Ok(None) => refusal::number(Refusal::NoPacket),
        Err(fault) => refusal::number(fault),
    }
}
