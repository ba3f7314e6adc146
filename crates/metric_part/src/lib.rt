// The part of a packet that holds the metrics of a block, and what a metric of it says.
#![tactic(auto)]

ghost use Rattle.std.specs.Prelude.{◌≡◌};
ghost use Rattle.metric_part.specs.Part.{part_of, case_at};

use metric::Metric;
use refusal::Refusal;
use walk::ReportBlock;

// The part of the packet that holds the metrics of a block, 2 octets each; empty where the packet does not hold them
// all.
#[tactic(auto, using(crate::proofs::Parts::part_held, crate::proofs::Parts::part_not_held))]
pub fn metrics_of<'a>(packet: &'a [u8], b: ReportBlock) -> &'a [u8]
    ensures part { result.now ≡ part_of packet.now b }
{
    let from = b.metrics_at;
    let size = 2 * (b.num_reports as usize);
    if packet.len() < from {
        return &packet[..0];
    }
    if packet.len() - from < size {
        return &packet[..0];
    }
    let end = from + size;
    &packet[from..end]
}

// Metric j, from 0, of a part that holds metrics. No block is walked.
pub fn metric_at(part: &[u8], j: usize) -> Result<Metric, Refusal>
    ensures value { result ≡ case_at part.now j }
{
    if part.len() / 2 <= j {
        return Err(Refusal::NoNumber);
    }
    Ok(metric_decode::decode(octets::get16(part, 2 * j)))
}
