// The calls for C of a sender: they register a sent number, take in a feedback packet, and say what is known of a number,
// in a store that the caller lends: the "board" of the customers.
#![tactic(auto)]

ghost use Rattle.std.specs.Prelude.{◌≡◌, [], ◌∷◌};
ghost use Rattle.places.specs.After.{store_after};
ghost use Rattle.sent_register.specs.Register.{registered};
ghost use Rattle.sent_status.specs.Status.{status_asked};
ghost use Rattle.sent_feedback.specs.TakeIn.{cells_after, taken_in};
ghost use Rattle.ccfb_calls.specs.Called.{called};
ghost use Rattle.ccfb_sent.specs.Sent.{register_called, take_in_called};
ghost use Rattle.ccfb_sent.specs.Sent.{kind_number, mark_or, time_or, status_called};

use ccfb_calls::{CASE_NO_TIME, CASE_NOT_RECEIVED, CASE_OVER_RANGE, CASE_RECEIVED};
use sent_word::Status;

// The number of the one kind of status that no metric has: no feedback on the number came yet.
const CASE_NOT_REPORTED: u8 = 4;

// Writes the mark and the time of a status, where it has them, and answers the number of its kind.
fn put_status(s: Status, mark: &mut u8, time: &mut u32) -> u8
    ensures after { called result (mark.new ∷ time.new ∷ [])
        ≡ called (kind_number s) (mark_or s mark.old ∷ time_or s time.old ∷ []) }
{
    match s {
        Status::NotReported => CASE_NOT_REPORTED,
        Status::Missing => CASE_NOT_RECEIVED,
        Status::Received { mark: m, time: t } => {
            *mark = m;
            *time = t;
            CASE_RECEIVED
        }
        Status::OverRange { mark: m } => {
            *mark = m;
            CASE_OVER_RANGE
        }
        Status::NoTime { mark: m } => {
            *mark = m;
            CASE_NO_TIME
        }
    }
}

// Registers a sent number. Refusals 4; 3 if the stream is held, else 2.
#[unsafe(no_mangle)]
pub extern "C" fn ccfb_register(places: &mut [u64], cells: &mut [u64], ssrc: u32, number: u16) -> u8
    ensures after { store_after result places.new cells.new
        ≡ register_called (registered places.old cells.old ssrc number) }
{
    ccfb_calls::refusal_number(sent_register::register(places, cells, ssrc, number))
}

// Takes in a feedback packet. Refusals 4, then the reader's, 21 to 28.
#[unsafe(no_mangle)]
pub extern "C" fn ccfb_take_in(places: &[u64], cells: &mut [u64], packet: &[u8]) -> u8
    ensures after { cells_after result cells.new
        ≡ take_in_called (taken_in places.now cells.old packet.now) }
{
    ccfb_calls::refusal_number(sent_feedback::take_in(places, cells, packet))
}

// What is known of a sent number. Refusals 4, 5, 37.
#[unsafe(no_mangle)]
pub extern "C" fn ccfb_status(
    places: &[u64],
    cells: &[u64],
    ssrc: u32,
    number: u16,
    kind: &mut u8,
    mark: &mut u8,
    time: &mut u32,
) -> u8
    ensures after { called result (kind.new ∷ mark.new ∷ time.new ∷ [])
        ≡ status_called (status_asked places.now cells.now ssrc number)
        kind.old mark.old time.old }
{
    let answer = sent_status::status(places, cells, ssrc, number);
    match answer {
        Ok(s) => {
            *kind = put_status(s, mark, time);
            0
        }
        Err(e) => refusal::number(e),
    }
}
