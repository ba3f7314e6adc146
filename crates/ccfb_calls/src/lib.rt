// What the calls for C share: the number that answers a call, and how the case of a metric is handed over behind pointers.
#![tactic(auto)]

ghost use Rattle.std.specs.Prelude.{◌≡◌, [], ◌∷◌};
ghost use Rattle.ccfb_calls.specs.Called.{called, refusal_number, case_called};

use metric::Metric;
use refusal::Refusal;

// The cases of a metric, as include/ccfb.h numbers them.
pub const CASE_NOT_RECEIVED: u8 = 0;

pub const CASE_RECEIVED: u8 = 1;

pub const CASE_OVER_RANGE: u8 = 2;

pub const CASE_NO_TIME: u8 = 3;

// 0 for a call that was not refused, else the number of the refusal.
pub fn refusal_number(answer: Result<(), Refusal>) -> u8
    ensures value { result ≡ refusal_number answer }
{
    match answer {
        Ok(()) => 0,
        Err(e) => refusal::number(e),
    }
}

// Writes the mark and the offset of a case, where it has them, and answers the number of the case.
pub fn put_case(case: Metric, mark: &mut u8, offset: &mut u16) -> u8
    ensures after { called result (mark.new ∷ offset.new ∷ [])
        ≡ case_called case mark.old offset.old }
{
    match case {
        Metric::NotReceived => CASE_NOT_RECEIVED,
        Metric::Received { mark: m, offset: o } => {
            *mark = m;
            *offset = o;
            CASE_RECEIVED
        }
        Metric::OverRange { mark: m } => {
            *mark = m;
            CASE_OVER_RANGE
        }
        Metric::NoTime { mark: m } => {
            *mark = m;
            CASE_NO_TIME
        }
    }
}
