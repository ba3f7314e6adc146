// Writes the metrics of a packet with each not-received one set to 0x0000.
#![tactic(auto)]

ghost use Rattle.std.specs.Prelude.{◌≡◌, map, ◌+◌, ◌*◌, ◌≤◌, length};
ghost use Rattle.std.proofs.lemmas.List.Edits.{sets};
ghost use Rattle.packet.specs.Packet.{encode_metrics};
ghost use Rattle.reader.specs.Reading.{metrics_at_of};
ghost use Rattle.metric_rewriter.specs.Metrics.{rewrite_metric};
ghost use Rattle.metric_rewriter.specs.Steps.{rewrite_low_first};

use octets::OCTET_VALUES;

// R, in a metric whose first octet is read as the low one, for speed alone (crate low_first).
const RECEIVED_LOW_FIRST: u16 = 0x80;

// A metric, its first octet low, as the rewriter writes it.
fn rewrite_low_first(m: u16) -> u16
    ensures value { result ≡ rewrite_low_first m }
{
    if m % OCTET_VALUES < RECEIVED_LOW_FIRST {
        return 0;
    }
    m
}

// Writes n metrics of the packet, rewritten, to the same place of the output.
pub fn rewrite_metrics(packet: &[u8], out: &mut [u8], at: usize, n: usize)
    requires held { at + 2 * n ≤ length packet.now }
    requires room { at + 2 * n ≤ length out.old }
    ensures content { out.new
        ≡ sets out.old at (encode_metrics (map rewrite_metric (metrics_at_of packet.now at n))) }
{
    for j in 0..n {
        let i = at + 2 * j;
        let m = rewrite_low_first(low_first::low_first_at(packet, i));
        out[i] = (m % OCTET_VALUES) as u8;
        out[i + 1] = (m / OCTET_VALUES) as u8;
    }
}
