// The 16-bit metric of a sequence number: R, 2 bits ECN mark, 13 bits arrival time offset (ATO). What its encoding and
// its decoding share.
#![tactic(auto)]

ghost use Rattle.std.specs.Prelude.{◌≡◌, ◌<◌};
ghost use Rattle.metric.specs.Metric.{time_of, mark_unit, assembled_of};

// How many times there are.
pub const TIMES: u64 = 0x1_0000_0000;

// The codes without an offset.
pub const NO_TIME: u16 = 0x1FFF;

pub const OVER_RANGE: u16 = 0x1FFE;

// An offset counts 64 units of time.
pub const OFFSET_UNIT: u32 = 64;

// ECN-CE, the largest of the four marks.
pub const CONGESTED: u8 = 3;

// R, and the lowest bit of the mark.
pub const RECEIVED_BIT: u16 = 0x8000;

pub const MARK_UNIT: u16 = 0x2000;

// What is known of a number that arrived: the mark and the time of its first copy; the mark is ECN-CE if any copy
// carried it. A time is a count of 1/65536 s, bits 16 to 47 of a 64-bit NTP timestamp; None where it is not known.
#[derive(Clone, Copy)]
pub struct Arrived {
    pub mark: u8,
    pub time: Option<u32>,
}

// A metric read back. All but NotReceived have an ECN mark, and only Received has an offset.
#[derive(Clone, Copy)]
pub enum Metric {
    NotReceived,
    Received { mark: u8, offset: u16 },
    OverRange { mark: u8 },
    NoTime { mark: u8 },
}

// A time that comes with a flag.
pub fn time_of(known: bool, time: u32) -> Option<u32>
    ensures value { result ≡ time_of known time }
{
    known.then_some(time)
}

// The metric of a number that was received with a mark, at that offset.
pub fn assembled(mark: u8, ato: u16) -> u16
    requires bits { ato < mark_unit }
    ensures value { result ≡ assembled_of mark ato }
{
    RECEIVED_BIT + MARK_UNIT * ((mark % 4) as u16) + ato
}
