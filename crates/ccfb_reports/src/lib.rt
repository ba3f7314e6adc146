// The call for C that says where the metrics of block k of a packet are.
#![tactic(auto)]

ghost use Rattle.std.specs.Prelude.{◌≡◌, [], ◌∷◌};
ghost use Rattle.block_reader.specs.Blocks.{read_block};
ghost use Rattle.ccfb_calls.specs.Called.{called};
ghost use Rattle.ccfb_reports.specs.Reports.{part_called};

// The part of the packet that holds the metrics of block k: where it starts, and how many octets it has. Refusals 21 to
// 29; both numbers are then 0.
#[unsafe(no_mangle)]
pub extern "C" fn ccfb_block_metrics(
    packet: &[u8],
    k: usize,
    metrics_at: &mut usize,
    metrics_length: &mut usize,
) -> u8
    ensures after { called result (metrics_at.new ∷ metrics_length.new ∷ [])
        ≡ part_called (read_block packet.now k) }
{
    let found = block_reader::block(packet, k);
    match found {
        Ok(part) => {
            *metrics_at = part.metrics_at;
            *metrics_length = 2 * (part.num_reports as usize);
            0
        }
        Err(e) => {
            *metrics_at = 0;
            *metrics_length = 0;
            refusal::number(e)
        }
    }
}
