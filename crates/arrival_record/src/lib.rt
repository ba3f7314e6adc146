// A record of the arrival file: one arrival in 12 octets.
#![tactic(auto, unfolding(crate::specs::Record::record_read_of))]

ghost use Rattle.std.specs.Prelude.{◌≡◌};
ghost use Rattle.arrival_record.specs.Record.{record_read_of};

use refusal::Refusal;

pub const RECORD_OCTETS: usize = 12;

// One arrival of the file.
#[derive(Clone, Copy)]
pub struct Record {
    pub ssrc: u32,
    pub number: u16,
    pub mark: u8,
    pub time: Option<u32>,
}

// The record at the front of some octets of a file (octets 0 to 3 SSRC, 4 and 5 number, 6 mark, 7 flag, 8 to 11 time):
// refusals 13, 14.
pub fn read_record(s: &[u8]) -> Result<Record, Refusal>
    ensures value { result ≡ record_read_of s.now }
{
    if s.len() < RECORD_OCTETS {
        return Err(Refusal::RecordCutShort);
    }
    let mark = s[6];
    let flag = s[7];
    let time = octets::get32(s, 8);
    if record_fault::is_faulty(mark, flag, time) {
        return Err(Refusal::BadRecord);
    }
    Ok(Record {
        ssrc: octets::get32(s, 0),
        number: octets::get16(s, 4),
        mark,
        time: metric::time_of(flag != 0, time),
    })
}
