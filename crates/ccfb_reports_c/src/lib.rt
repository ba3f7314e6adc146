// The call of ccfb_reports, exported for C. A crate that other crates build on exports nothing itself.
#![tactic(auto)]

ghost use Rattle.std.specs.Prelude.{◌≡◌, [], ◌∷◌};
ghost use Rattle.block_reader.specs.Blocks.{read_block};
ghost use Rattle.ccfb_calls.specs.Called.{called};
ghost use Rattle.ccfb_reports.specs.Reports.{part_called};

#[unsafe(no_mangle)]
pub extern "C" fn ccfb_block_metrics(
    packet: &[u8],
    k: usize,
    metrics_at: &mut usize,
    metrics_length: &mut usize,
) -> u8
    ensures after { called result (metrics_at.new ∷ metrics_length.new ∷ [])
        ≡ part_called (read_block packet.now k) }
{
    ccfb_reports::ccfb_block_metrics(packet, k, metrics_at, metrics_length)
}
