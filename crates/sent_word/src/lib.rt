// What is known of a sent number, and how the 64-bit word of its cell stores it.
#![tactic(auto)]

ghost use Rattle.std.specs.Prelude.{◌≡◌};
ghost use Rattle.sent_word.specs.Status.{arrival_time, status_of};
ghost use Rattle.sent_word.specs.Word.{held_status, read_word_of, registered_word, received_word, word_reported};

use metric::{Metric, OFFSET_UNIT, RECEIVED_BIT, TIMES};

// What feedback has said of a registered number. The last three: received, with the ECN mark, and with the time of
// arrival where it is known.
#[derive(Clone, Copy)]
pub enum Status {
    NotReported,
    Missing,
    Received { mark: u8, time: u32 },
    OverRange { mark: u8 },
    NoTime { mark: u8 },
}

// A word has one of four kinds: NOT_REGISTERED, NOT_REPORTED, MISSING or RECEIVED.
const KINDS: u64 = 4;

const NOT_REGISTERED: u64 = 0;

pub const NOT_REPORTED: u64 = 1;

const MISSING: u64 = 2;

// A received word is RECEIVED + METRIC_UNIT * metric + RTS_UNIT * RTS.
const RECEIVED: u64 = 3;

const METRIC_UNIT: u64 = 0x1_0000;

const RTS_UNIT: u64 = 0x1_0000_0000;

// When a packet arrived, by its offset and RTS.
fn arrival_time(rts: u32, offset: u16) -> u32
    ensures value { result ≡ arrival_time rts offset }
{
    rts.wrapping_sub(OFFSET_UNIT * (offset as u32))
}

// What a metric says of its number, in a packet with that RTS.
pub fn status_of(m: Metric, rts: u32) -> Status
    ensures value { result ≡ status_of m rts }
{
    match m {
        Metric::NotReceived => Status::Missing,
        Metric::Received { mark, offset } => Status::Received {
            mark: mark,
            time: arrival_time(rts, offset),
        },
        Metric::OverRange { mark } => Status::OverRange { mark: mark },
        Metric::NoTime { mark } => Status::NoTime { mark: mark },
    }
}

// What a received word says.
#[tactic(auto, unfolding(crate::specs::Word::held_status))]
fn held_status(word: u64) -> Status
    ensures value { result ≡ held_status word }
{
    let metric = RECEIVED_BIT + (word / METRIC_UNIT % (RECEIVED_BIT as u64)) as u16;
    let rts = (word / RTS_UNIT % TIMES) as u32;
    status_of(metric_decode::decode(metric), rts)
}

// What a cell's word says.
// The last test is by the lowest bit on purpose: tests for each kind are compiled to a table of jumps.
#[tactic(auto, unfolding(crate::specs::Word::read_word_of))]
pub fn read_word(word: u64) -> Option<Status>
    ensures value { result ≡ read_word_of word }
{
    let kind = word % KINDS;
    if kind == NOT_REGISTERED {
        return None;
    }
    if kind == RECEIVED {
        return Some(held_status(word));
    }
    if word % 2 == NOT_REPORTED {
        return Some(Status::NotReported);
    }
    Some(Status::Missing)
}

// A cell's word after its number was registered: what was reported stays.
#[tactic(auto, unfolding(crate::specs::Word::registered_word))]
pub fn registered_word(word: u64) -> u64
    ensures value { result ≡ registered_word word }
{
    if word % KINDS == NOT_REGISTERED {
        NOT_REPORTED
    } else {
        word
    }
}

// The word of a number that was reported received.
#[tactic(auto, unfolding(crate::specs::Word::received_word))]
fn received_word(metric: u16, rts: u32) -> u64
    ensures value { result ≡ received_word metric rts }
{
    RECEIVED + METRIC_UNIT * (metric as u64) + RTS_UNIT * (rts as u64)
}

// A cell's word after a metric of its number, in a packet with that RTS.
// Branch-free on purpose: over many metrics these branches are unpredictable and cost time. The parts are computed and
// then chosen, so that a loop over cells that lie side by side becomes vector code.
#[tactic(auto, unfolding(crate::specs::Word::word_reported))]
pub fn word_reported(word: u64, metric: u16, rts: u32) -> u64
    ensures value { result ≡ word_reported metric rts word }
{
    let kind = word % KINDS;
    let received = received_word(metric, rts);
    // What is left where the metric says "missing", and where it says "received".
    let missing = if kind == NOT_REPORTED { MISSING } else { word };
    let arrived = if NOT_REGISTERED < kind {
        received
    } else {
        word
    };
    if metric < RECEIVED_BIT {
        missing
    } else {
        arrived
    }
}
