// The call for C that reads metric j of block k of a packet. It has its own crate so that the compiler inlines the search
// for the block; with a second caller it does not.
#![tactic(auto)]

ghost use Rattle.std.specs.Prelude.{◌≡◌, [], ◌∷◌};
ghost use Rattle.metric_reader.specs.Metrics.{read_metric};
ghost use Rattle.ccfb_calls.specs.Called.{called};
ghost use Rattle.ccfb_block_metric.specs.Metric.{metric_called};

// The sequence number and the case of metric j of block k, both from 0. Refusals 21 to 30.
#[unsafe(no_mangle)]
pub extern "C" fn ccfb_metric(
    packet: &[u8],
    k: usize,
    j: usize,
    number: &mut u16,
    case: &mut u8,
    mark: &mut u8,
    offset: &mut u16,
) -> u8
    ensures after { called result (number.new ∷ case.new ∷ mark.new ∷ offset.new ∷ [])
        ≡ metric_called (read_metric packet.now k j)
        number.old case.old mark.old offset.old }
{
    let answer = metric_reader::metric(packet, k, j);
    match answer {
        Ok(reported) => {
            *number = reported.number;
            *case = ccfb_calls::put_case(reported.metric, mark, offset);
            0
        }
        Err(e) => refusal::number(e),
    }
}
