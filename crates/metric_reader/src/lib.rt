// The reader's answers about the metrics of a block of a packet: the part that holds them, and metric j of it. As the
// reader of the whole packet it accepts any octets, and answers or gives the first refusal.
#![tactic(auto)]

ghost use Rattle.std.specs.Prelude.{◌≡◌};
ghost use Rattle.metric_reader.specs.Metrics.{lent_part, read_metric, read_part};

use refusal::Refusal;
use reports::Reported;

// The part of the packet that holds the metrics of block k.
pub fn block_metrics<'a>(packet: &'a [u8], k: usize) -> Result<&'a [u8], Refusal>
    ensures part { lent_part result ≡ read_part packet.now k }
{
    Ok(metric_part::metrics_of(packet, block_reader::block(packet, k)?))
}

// Metric j, from 0, of block k.
#[tactic(auto, using(crate::proofs::Within::located_within))]
pub fn metric(packet: &[u8], k: usize, j: usize) -> Result<Reported, Refusal>
    ensures value { result ≡ read_metric packet.now k j }
{
    reports::metric_in(packet, block_reader::block(packet, k)?, j)
}
