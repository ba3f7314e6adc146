// Takes whole records of an arrival file into a store: each is an arrival. The last known time is kept, and the gap: the
// most numbers that one arrival passed over.
#![tactic(auto)]

ghost use Rattle.std.specs.Prelude.{◌≡◌, ◌/◌, ◌≤◌, length, drop};
ghost use Rattle.arrival_record.specs.Record.{record_octets};
ghost use Rattle.arrival_file.specs.Pieces.{taken};
ghost use Rattle.recording.specs.Recorded.{gap_after, recorded, after_record};
ghost use Rattle.recording.specs.Steps.{TakenTo};

use admission::ArrivalKind;
use arrival_file::Phase;
use arrival_record::RECORD_OCTETS;
use refusal::Refusal;

// How far the octets at hand were taken: `at` is the offset of the first that was not. RTS and the gap are those of all
// records so far.
#[derive(Clone, Copy)]
pub struct Taken {
    pub phase: Phase,
    pub rts: u32,
    pub gap: u16,
    pub at: usize,
}

// The gap after an arrival with this answer.
fn gap_after(gap: u16, answer: Result<ArrivalKind, Refusal>) -> u16
    ensures value { result ≡ gap_after gap answer }
{
    match answer {
        Ok(ArrivalKind::Ahead(n)) => gap.max(n),
        _ => gap,
    }
}

// Takes the whole records starting at an offset, up to the first with a fault.
pub fn take_records(
    places: &mut [u64],
    cells: &mut [u64],
    s: &[u8],
    from: usize,
    rts: u32,
    gap: u16,
) -> Taken
    requires within { from ≤ length s.now }
    ensures after { TakenTo places.new cells.new s.now result
        (taken after_record (length (drop from s.now) / record_octets)
        (recorded places.old cells.old rts gap) (drop from s.now)) }
{
    let mut last = rts;
    let mut largest = gap;
    for octets in s[from..].chunks_exact(RECORD_OCTETS) {
        match arrival_record::read_record(octets) {
            Ok(r) => {
                // RTS comes first on purpose: the time is then not kept in memory over the arrival.
                last = r.time.unwrap_or(last);
                let answer = arrivals::arrive(places, cells, r.ssrc, r.number, r.mark, r.time);
                largest = gap_after(largest, answer);
            }
            Err(e) => {
                return Taken {
                    phase: Phase::Faulty(e),
                    rts: last,
                    gap: largest,
                    at: s.len(),
                };
            }
        }
    }
    Taken {
        phase: Phase::Records,
        rts: last,
        gap: largest,
        at: s.len() - (s.len() - from) % RECORD_OCTETS,
    }
}
