// The call for C that records an arrival in a store that the caller lends.
#![tactic(auto)]

ghost use Rattle.std.specs.Prelude.{◌≡◌};
ghost use Rattle.metric.specs.Metric.{time_of};
ghost use Rattle.arrivals.specs.Arrivals.{arrived};
ghost use Rattle.admission.specs.Decision.{arrival_answer};
ghost use Rattle.ccfb_arrivals.specs.Arrivals.{arrival_after, arrive_called, arrival_refusal, arrival_behind};

use admission::Entry;
use refusal::Refusal;

// The kinds of accepted arrival, as include/ccfb.h numbers them.
const KIND_FIRST: u16 = 0;

const KIND_AHEAD: u16 = 1;

const KIND_LATE: u16 = 2;

const KIND_COPY: u16 = 3;

// Hands over the answer to an arrival of which this was decided: 0, its kind and how many numbers it passed over, or the
// number of the refusal.
fn hand_over(arrival: &mut [u16; 2], decision: Result<Entry, Refusal>) -> u8
    ensures answer { result ≡ arrival_refusal (arrival_answer decision) }
    ensures behind { arrival.new ≡ arrival_behind (arrival_answer decision) arrival.old }
{
    let (kind, passed_over) = match decision {
        Ok(Entry::First(_)) => (KIND_FIRST, 0),
        Ok(Entry::Ahead(_, found)) => (KIND_AHEAD, admission::passed_over(found)),
        Ok(Entry::Late(_)) => (KIND_LATE, 0),
        Ok(Entry::Copy(_)) => (KIND_COPY, 0),
        Err(e) => return refusal::number(e),
    };
    arrival[0] = kind;
    arrival[1] = passed_over;
    0
}

// Records one arrival. Refusals 4, 1; 3 if the stream is held, else 2. The two numbers behind `arrival` are the fields
// of a struct ccfb_arrival. The word is made first, and the kind handed over before the store is changed, on purpose:
// fewer values then have to be kept.
#[unsafe(no_mangle)]
pub extern "C" fn ccfb_arrive(
    places: &mut [u64],
    cells: &mut [u64],
    ssrc: u32,
    number: u16,
    mark: u8,
    time_known: bool,
    time: u32,
    arrival: &mut [u16; 2],
) -> u8
    ensures after { arrival_after result places.new cells.new arrival.new
        ≡ arrive_called
        (arrived places.old cells.old ssrc number mark (time_of time_known time))
        arrival.old }
{
    let word = cells::filled_word(mark, metric::time_of(time_known, time));
    let decision = admission::decide(places, cells, ssrc, number, mark);
    let refused = hand_over(arrival, decision);
    arrivals::carry_out(places, cells, ssrc, number, mark, word, decision);
    refused
}
