// The arrival file that ccfbline reads: a header of 5 octets (`ARL`, and a 16-bit version), then records of 12.
#![tactic(auto, unfolding(crate::specs::File::header_of))]

ghost use Rattle.std.specs.Prelude.{◌≡◌};
ghost use Rattle.arrival_file.specs.File.{header_of, end_of};

use refusal::Refusal;

pub const FILE_HEADER_OCTETS: usize = 5;

const FILE_VERSION: u16 = 1;

// How far a file has been read: its header, then its records. A file that has a fault is read no further.
#[derive(Clone, Copy)]
pub enum Phase {
    Header,
    Records,
    Faulty(Refusal),
}

// The header of a file: refusals 11, 12.
pub fn check_header(s: &[u8]) -> Result<(), Refusal>
    ensures value { result ≡ header_of s.now }
{
    if s.len() < FILE_HEADER_OCTETS || !s.starts_with(b"ARL") {
        return Err(Refusal::BadFileMark);
    }
    if octets::get16(s, 3) != FILE_VERSION {
        return Err(Refusal::BadFileVersion);
    }
    Ok(())
}

// The end of a file, with so many octets that were not taken: refusals 11, 13, or the fault that was found.
pub fn check_end(phase: Phase, left: usize) -> Result<(), Refusal>
    ensures value { result ≡ end_of phase left }
{
    match phase {
        Phase::Header => Err(Refusal::BadFileMark),
        Phase::Records if left == 0 => Ok(()),
        Phase::Records => Err(Refusal::RecordCutShort),
        Phase::Faulty(e) => Err(e),
    }
}
