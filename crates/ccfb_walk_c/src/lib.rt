// The calls of ccfb_walk, exported for C. A crate that other crates build on exports nothing itself.
#![tactic(auto)]

ghost use Rattle.std.specs.Prelude.{◌≡◌, [], ◌∷◌};
ghost use Rattle.packet_header.specs.Header.{start_of};
ghost use Rattle.walk.specs.Walk.{step_at};
ghost use Rattle.metric_part.specs.Part.{case_at};
ghost use Rattle.ccfb_calls.specs.Called.{called};
ghost use Rattle.ccfb_walk.specs.Walk.{metric_at_called, first_called, next_called};

#[unsafe(no_mangle)]
pub extern "C" fn ccfb_first_block(packet: &[u8], at: &mut usize) -> u8
    ensures after { called result (at.new ∷ []) ≡ first_called (start_of packet.now) (at.old ∷ []) }
{
    ccfb_walk::ccfb_first_block(packet, at)
}

#[unsafe(no_mangle)]
pub extern "C" fn ccfb_next_block(
    packet: &[u8],
    at: &mut usize,
    ssrc: &mut u32,
    begin: &mut u16,
    count: &mut u16,
    metrics_at: &mut usize,
) -> u8
    ensures after { called result
        (at.new ∷ ssrc.new ∷ begin.new ∷ count.new ∷ metrics_at.new ∷ [])
        ≡ next_called (step_at packet.now at.old)
        (at.old ∷ ssrc.old ∷ begin.old ∷ count.old ∷ metrics_at.old ∷ []) }
{
    ccfb_walk::ccfb_next_block(packet, at, ssrc, begin, count, metrics_at)
}

#[unsafe(no_mangle)]
pub extern "C" fn ccfb_metric_at(
    part: &[u8],
    j: usize,
    case: &mut u8,
    mark: &mut u8,
    offset: &mut u16,
) -> u8
    ensures after { called result (case.new ∷ mark.new ∷ offset.new ∷ [])
        ≡ metric_at_called (case_at part.now j)
        case.old mark.old offset.old }
{
    ccfb_walk::ccfb_metric_at(part, j, case, mark, offset)
}
