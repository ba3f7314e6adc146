// Reading a metric back from its 16 bits.
#![tactic(auto)]

ghost use Rattle.std.specs.Prelude.{◌≡◌};
ghost use Rattle.metric.specs.Metric.{decode_of};

use metric::{MARK_UNIT, Metric, OVER_RANGE, RECEIVED_BIT};

// What a metric says.
pub fn decode(m: u16) -> Metric
    ensures value { result ≡ decode_of m }
{
    if m < RECEIVED_BIT {
        return Metric::NotReceived;
    }
    let mark = (m / MARK_UNIT % 4) as u8;
    let offset = m % MARK_UNIT;
    if offset < OVER_RANGE {
        return Metric::Received {
            mark: mark,
            offset: offset,
        };
    }
    if offset == OVER_RANGE {
        return Metric::OverRange { mark: mark };
    }
    Metric::NoTime { mark: mark }
}
