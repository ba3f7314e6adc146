// The calls for C that walk over the blocks of a packet, and over the metrics of a block: each takes one step.
#![tactic(auto)]

ghost use Rattle.std.specs.Prelude.{◌≡◌, [], ◌∷◌};
ghost use Rattle.packet_header.specs.Header.{start_of};
ghost use Rattle.walk.specs.Walk.{step_at};
ghost use Rattle.metric_part.specs.Part.{case_at};
ghost use Rattle.ccfb_calls.specs.Called.{called};
ghost use Rattle.ccfb_walk.specs.Walk.{metric_at_called, first_called, next_called};

use packet_header::Cursor;
use refusal::Refusal;

// The offset of the first block, for ccfb_next_block. Refusals 21 to 25.
#[unsafe(no_mangle)]
pub extern "C" fn ccfb_first_block(packet: &[u8], at: &mut usize) -> u8
    ensures after { called result (at.new ∷ []) ≡ first_called (start_of packet.now) (at.old ∷ []) }
{
    let first = packet_header::read_header(packet);
    match first {
        Ok(c) => {
            *at = c.at;
            0
        }
        Err(e) => refusal::number(e),
    }
}

// The block at an offset, and the offset moves behind it. Refusals 26 to 28, and 29 where the blocks end.
#[unsafe(no_mangle)]
pub extern "C" fn ccfb_next_block(
    packet: &[u8],
    at: &mut usize,
    ssrc: &mut u32,
    begin: &mut u16,
    count: &mut u16,
    metrics_at: &mut usize,
) -> u8
    ensures after { called result
        (at.new ∷ ssrc.new ∷ begin.new ∷ count.new ∷ metrics_at.new ∷ [])
        ≡ next_called (step_at packet.now at.old)
        (at.old ∷ ssrc.old ∷ begin.old ∷ count.old ∷ metrics_at.old ∷ []) }
{
    let cursor = Cursor { at: *at };
    let here = walk::next(cursor, packet);
    match here {
        Ok(Some((block, next))) => {
            *at = next.at;
            *ssrc = block.ssrc;
            *begin = block.begin_seq;
            *count = block.num_reports;
            *metrics_at = block.metrics_at;
            0
        }
        Ok(None) => refusal::number(Refusal::NoBlock),
        Err(fault) => refusal::number(fault),
    }
}

// The case of metric j, from 0, of the octets that hold a block's metrics. Refusal 30.
#[unsafe(no_mangle)]
pub extern "C" fn ccfb_metric_at(
    part: &[u8],
    j: usize,
    case: &mut u8,
    mark: &mut u8,
    offset: &mut u16,
) -> u8
    ensures after { called result (case.new ∷ mark.new ∷ offset.new ∷ [])
        ≡ metric_at_called (case_at part.now j)
        case.old mark.old offset.old }
{
    let answer = metric_part::metric_at(part, j);
    match answer {
        Ok(m) => {
            *case = ccfb_calls::put_case(m, mark, offset);
            0
        }
        Err(outside) => refusal::number(outside),
    }
}
