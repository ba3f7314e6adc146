// The call of ccfb_block_metric, exported for C. A crate that other crates build on exports nothing itself.
#![tactic(auto)]

ghost use Rattle.std.specs.Prelude.{◌≡◌, [], ◌∷◌};
ghost use Rattle.metric_reader.specs.Metrics.{read_metric};
ghost use Rattle.ccfb_calls.specs.Called.{called};
ghost use Rattle.ccfb_block_metric.specs.Metric.{metric_called};

#[unsafe(no_mangle)]
pub extern "C" fn ccfb_metric(
    packet: &[u8],
    k: usize,
    j: usize,
    number: &mut u16,
    case: &mut u8,
    mark: &mut u8,
    offset: &mut u16,
) -> u8
    ensures after { called result (number.new ∷ case.new ∷ mark.new ∷ offset.new ∷ [])
        ≡ metric_called (read_metric packet.now k j)
        number.old case.old mark.old offset.old }
{
    ccfb_block_metric::ccfb_metric(packet, k, j, number, case, mark, offset)
}
