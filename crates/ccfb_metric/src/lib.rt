// The calls for C on one metric: from mark and time to 16 bits, and from 16 bits to kind, mark and offset.
#![tactic(auto, unfolding(crate::specs::Metrics::encode_called))]

ghost use Rattle.std.specs.Prelude.{◌≡◌, [], ◌∷◌};
ghost use Rattle.metric.specs.Metric.{decode_of};
ghost use Rattle.ccfb_calls.specs.Called.{called, case_behind};
ghost use Rattle.ccfb_metric.specs.Metrics.{encode_called};

use metric::{Arrived, CONGESTED};
use refusal::Refusal;

// The metric of a sequence number that came with that mark and time. Refusal 1: no such mark.
#[unsafe(no_mangle)]
pub extern "C" fn ccfb_encode_metric(
    mark: u8,
    time_known: bool,
    time: u32,
    rts: u32,
    metric: &mut u16,
) -> u8
    ensures after { called result (metric.new ∷ [])
        ≡ encode_called mark time_known time rts metric.old }
{
    if mark > CONGESTED {
        return refusal::number(Refusal::BadMark);
    }
    let time = metric::time_of(time_known, time);
    *metric = metric_encode::encode(Some(Arrived { mark, time }), rts);
    0
}

// The kind of a metric, and its mark and offset where it has them, each behind a pointer. It
// refuses nothing, so it answers nothing.
#[unsafe(no_mangle)]
pub extern "C" fn ccfb_decode_metric(metric: u16, kind: &mut u8, mark: &mut u8, offset: &mut u16)
    ensures after { kind.new ∷ mark.new ∷ offset.new ∷ []
        ≡ case_behind (decode_of metric) mark.old offset.old }
{
    *kind = ccfb_calls::put_case(metric_decode::decode(metric), mark, offset);
}
