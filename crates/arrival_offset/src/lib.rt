// The arrival time offset (ATO) of an age: how long before RTS a packet arrived.
#![tactic(auto)]

ghost use Rattle.std.specs.Prelude.{◌≡◌, ◌<◌};
ghost use Rattle.metric.specs.Metric.{age_of, ato_of_age, mark_unit};

use metric::{NO_TIME, OFFSET_UNIT, OVER_RANGE};

// The longest age that has an offset, 8189/1024 s.
const LONGEST_AGE: u32 = 524096;

// An age of 2^31 or more counts as a time after RTS.
pub const AFTER_RTS: u32 = 0x8000_0000;

// How many values a u16 has: a cast of less loses nothing.
const U16S: u32 = 0x1_0000;

// (rts - time) modulo 2^32.
pub fn age(rts: u32, time: u32) -> u32
    ensures value { result ≡ age_of rts time }
{
    rts.wrapping_sub(time)
}

// The arrival time offset of an age.
// Branch-free on purpose: over many cells these branches are unpredictable and cost time.
#[tactic(auto, unfolding(metric::specs::Metric::ato_of_age))]
pub fn ato_of_age(age: u32) -> u16
    ensures value { result ≡ ato_of_age age }
    ensures bits { result < mark_unit }
{
    let rounded = (age / OFFSET_UNIT % U16S) as u16;
    let offset = if LONGEST_AGE < age {
        OVER_RANGE
    } else {
        rounded
    };
    if AFTER_RTS <= age { NO_TIME } else { offset }
}
