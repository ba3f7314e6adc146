// The metric of a cell at RTS: the arrival time offset (ATO) of its time, and its 16 bits.
#![tactic(auto)]

ghost use Rattle.std.specs.Prelude.{◌≡◌, ◌<◌};
ghost use Rattle.metric.specs.Metric.{ato_of_age, ato_of, mark_unit, encode_of};

use arrival_offset::AFTER_RTS;
use metric::Arrived;

// The age of a time, seen from RTS. An unknown time counts as one after RTS: neither has an offset. So an unknown time
// is chosen like any other case and needs no jump.
fn age_of(time: Option<u32>, rts: u32) -> u32
    ensures value { ato_of_age result ≡ ato_of time rts }
{
    match time {
        None => AFTER_RTS,
        Some(t) => arrival_offset::age(rts, t),
    }
}

// The arrival time offset of a time, seen from RTS.
pub fn ato(time: Option<u32>, rts: u32) -> u16
    ensures value { result ≡ ato_of time rts }
    ensures bits { result < mark_unit }
{
    arrival_offset::ato_of_age(age_of(time, rts))
}

// The metric of a cell at RTS.
pub fn encode(cell: Option<Arrived>, rts: u32) -> u16
    ensures value { result ≡ encode_of cell rts }
{
    match cell {
        None => 0,
        Some(Arrived { mark, time }) => metric::assembled(mark, ato(time, rts)),
    }
}
