// The refusals of every call, and the numbers that a caller is given for them.
#![tactic(auto)]

ghost use Rattle.std.specs.Prelude.{◌≡◌};
ghost use Rattle.refusal.specs.Numbers.{number_of};

// Why a call refuses: first arrivals and the store, then the writer, the arrival file, the reader, datagrams,
// and sent packets.
#[derive(Clone, Copy)]
pub enum Refusal {
    BadMark = 1,
    NoFreePlace = 2,
    TooOld = 3,
    BadStore = 4,
    NotHeld = 5,
    BadLimit = 6,
    TooManyRequests = 7,
    StreamRepeated = 8,
    BadRange = 9,
    OutputTooShort = 10,
    BadFileMark = 11,
    BadFileVersion = 12,
    RecordCutShort = 13,
    BadRecord = 14,
    PacketTooShort = 21,
    BadVersion = 22,
    BadType = 23,
    BadLength = 24,
    Padded = 25,
    RunsIntoRts = 26,
    TooManyReports = 27,
    FillerNotZero = 28,
    NoBlock = 29,
    NoNumber = 30,
    BadDatagram = 31,
    NoPacket = 32,
    NotRegistered = 37,
}

// The number that a caller is given for a refusal.
pub fn number(e: Refusal) -> u8
    ensures value { result ≡ number_of e }
{
    e as u8
}
