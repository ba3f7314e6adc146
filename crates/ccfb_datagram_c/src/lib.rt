// The calls of ccfb_datagram, exported for C. A crate that other crates build on exports nothing itself.
#![tactic(auto)]

ghost use Rattle.std.specs.Prelude.{◌≡◌, [], ◌∷◌};
ghost use Rattle.datagram.specs.Walk.{packet_at_of, packets_of};
ghost use Rattle.datagram_count.specs.Count.{count_of};
ghost use Rattle.datagram_reader.specs.Reading.{read_feedback};
ghost use Rattle.ccfb_calls.specs.Called.{called};
ghost use Rattle.ccfb_datagram.specs.Datagrams.{count_called, feedback_called, packet_called};

#[unsafe(no_mangle)]
pub extern "C" fn ccfb_feedback_count(datagram: &[u8], count: &mut usize) -> u8
    ensures after { called result (count.new ∷ [])
        ≡ count_called (count_of (packets_of datagram.now)) (count.old ∷ []) }
{
    ccfb_datagram::ccfb_feedback_count(datagram, count)
}

#[unsafe(no_mangle)]
pub extern "C" fn ccfb_feedback(
    datagram: &[u8],
    k: usize,
    packet_at: &mut usize,
    packet_length: &mut usize,
) -> u8
    ensures after { called result (packet_at.new ∷ packet_length.new ∷ [])
        ≡ feedback_called (read_feedback datagram.now k) }
{
    ccfb_datagram::ccfb_feedback(datagram, k, packet_at, packet_length)
}

#[unsafe(no_mangle)]
pub extern "C" fn ccfb_next_packet(
    datagram: &[u8],
    at: &mut usize,
    packet_type: &mut u8,
    format: &mut u8,
    packet_at: &mut usize,
    packet_length: &mut usize,
) -> u8
    ensures after { called result
        (at.new ∷ packet_type.new ∷ format.new ∷ packet_at.new
        ∷ packet_length.new ∷ [])
        ≡ packet_called (packet_at_of datagram.now at.old)
        (at.old ∷ packet_type.old ∷ format.old ∷ packet_at.old
        ∷ packet_length.old ∷ []) }
{
    ccfb_datagram::ccfb_next_packet(datagram, at, packet_type, format, packet_at, packet_length)
}
