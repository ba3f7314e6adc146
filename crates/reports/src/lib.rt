// The reports of a block: what its metric j says, by number.
#![tactic(auto)]

ghost use Rattle.std.specs.Prelude.{◌≡◌};
ghost use Rattle.reports.specs.Reports.{reported_in, Within};

use metric::Metric;
use refusal::Refusal;
use walk::ReportBlock;

// What a metric of a block says, and of which number.
#[derive(Clone, Copy)]
pub struct Reported {
    pub number: u16,
    pub metric: Metric,
}

// Metric j, from 0, of a block.
pub fn metric_in(packet: &[u8], b: ReportBlock, j: usize) -> Result<Reported, Refusal>
    requires within { Within packet.now b }
    ensures value { result ≡ reported_in b packet.now j }
{
    if (b.num_reports as usize) <= j {
        return Err(Refusal::NoNumber);
    }
    let at = b.metrics_at + 2 * j;
    Ok(Reported {
        number: std::num::wrapping_add_u16(b.begin_seq, j as u16),
        metric: metric_decode::decode(octets::get16(packet, at)),
    })
}
