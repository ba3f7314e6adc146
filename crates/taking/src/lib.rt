// Takes what is whole of the octets of an arrival file that are at hand: the header, and then records.
#![tactic(auto, unfolding(arrival_file::specs::Pieces::taken_here))]

ghost use Rattle.arrival_file.specs.Pieces.{taken_here};
ghost use Rattle.recording.specs.Recorded.{recorded, after_record};
ghost use Rattle.recording.specs.Steps.{TakenTo};

use arrival_file::{FILE_HEADER_OCTETS, Phase};
use recording::Taken;

// Takes the header, and the whole records after it.
fn take_file(places: &mut [u64], cells: &mut [u64], s: &[u8], rts: u32, gap: u16) -> Taken
    ensures after { TakenTo places.new cells.new s.now result
        (taken_here after_record Phase.Header (recorded places.old cells.old rts gap) s.now) }
{
    if s.len() < FILE_HEADER_OCTETS {
        return Taken {
            phase: Phase::Header,
            rts,
            gap,
            at: 0,
        };
    }
    match arrival_file::check_header(s) {
        Ok(()) => recording::take_records(places, cells, s, FILE_HEADER_OCTETS, rts, gap),
        Err(e) => Taken {
            phase: Phase::Faulty(e),
            rts,
            gap,
            at: s.len(),
        },
    }
}

// Takes what is whole of the octets at hand.
pub fn take(
    places: &mut [u64],
    cells: &mut [u64],
    s: &[u8],
    phase: Phase,
    rts: u32,
    gap: u16,
) -> Taken
    ensures after { TakenTo places.new cells.new s.now result
        (taken_here after_record phase (recorded places.old cells.old rts gap) s.now) }
{
    match phase {
        Phase::Header => take_file(places, cells, s, rts, gap),
        Phase::Records => recording::take_records(places, cells, s, 0, rts, gap),
        Phase::Faulty(_) => Taken {
            phase,
            rts,
            gap,
            at: s.len(),
        },
    }
}
