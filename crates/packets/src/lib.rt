// Writes the packets of a report back to back.
#![tactic(auto)]

ghost use Rattle.std.specs.Prelude.{◌≡◌, ◌≤◌, length};
ghost use Rattle.std.proofs.lemmas.List.Edits.{sets};
ghost use Rattle.packet.specs.Sizes.{packet_octets};
ghost use Rattle.cutting.specs.Cutting.{counts};
ghost use Rattle.cutting.specs.Plan.{plan, total_octets};
ghost use Rattle.blocks.specs.Packets.{encode_packets};
ghost use Rattle.blocks.specs.Steps.{InRange, packet_from, packets_in, metric_in, Prepared, PutPacket};

use blocks::{Position, Progress, Report};
use packet::RTS_OCTETS;

// Writes the packet that starts at a position to the front of `out`: its blocks, RTS behind them, and the header.
fn write_packet(out: &mut [u8], report: &Report<'_>, from: Position) -> Progress
    requires prepared { Prepared report.now }
    requires range { InRange report.now.requests.now from }
    requires room { packet_octets (counts (packet_from report.now from).packet) ≤ length out.old }
    ensures after { PutPacket (metric_in report.now) report.now.requests.now report.now.sender report.now.rts
        (packet_from report.now from) out.old out.new result }
{
    let b = blocks::put_blocks(out, report, from);
    let end = b.octets;
    octets_put::put32(out, end, report.rts);
    packet_put::put_header(out, end + RTS_OCTETS, report.sender);
    Progress {
        rest: b.rest,
        octets: end + RTS_OCTETS,
    }
}

// Writes all packets, back to back: each is lent only what is left of the output.
pub fn write_packets(out: &mut [u8], report: &Report<'_>)
    requires prepared { Prepared report.now }
    requires room { total_octets (plan report.now.limit report.now.requests.now) ≤ length out.old }
    ensures content { out.new ≡ sets out.old 0 (encode_packets (packets_in report.now)) }
{
    let mut from = Position {
        request: 0,
        reported: 0,
    };
    let mut end = 0;
    while from.request < report.requests.len() {
        let p = write_packet(&mut out[end..], report, from);
        from = p.rest;
        end += p.octets;
    }
}
