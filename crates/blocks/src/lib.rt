// Writes the report blocks of a packet: the metrics of range after range, until the next number does not fit.
#![tactic(auto)]

ghost use Rattle.std.specs.Prelude.{◌≡◌, ◌≤◌, length};
ghost use Rattle.packet.specs.Sizes.{packet_octets};
ghost use Rattle.cutting.specs.Cutting.{counts};
ghost use Rattle.blocks.specs.Steps.{progress_at, InRange, packet_from, metric_in, Prepared, PutBlocks};

use cutting::{NextBlock, Request};
use packet::{PACKET_FRAME, PACKET_HEADER_OCTETS};

// How far the writer has come: to this request, so many numbers of which are reported.
#[derive(Clone, Copy)]
pub struct Position {
    pub request: usize,
    pub reported: u16,
}

// How far the writer has come, and how many octets it has written.
#[derive(Clone, Copy)]
pub struct Progress {
    pub rest: Position,
    pub octets: usize,
}

// A progress, made of its parts.
fn standing(request: usize, reported: u16, octets: usize) -> Progress
    ensures value { result ≡ progress_at request reported octets }
{
    Progress {
        rest: Position { request, reported },
        octets,
    }
}

// What a report is written from: the requests, the place found for each, the cells, and the limit of a packet.
#[derive(Clone, Copy)]
pub struct Report<'a> {
    pub cells: &'a [u64],
    pub sender: u32,
    pub rts: u32,
    pub limit: usize,
    pub requests: &'a [Request],
    pub found: &'a [usize],
}

// Writes the blocks of the packet that starts at a position, behind the packet's header.
pub fn put_blocks(out: &mut [u8], report: &Report<'_>, from: Position) -> Progress
    requires prepared { Prepared report.now }
    requires range { InRange report.now.requests.now from }
    requires room { packet_octets (counts (packet_from report.now from).packet) ≤ length out.old }
    ensures after { PutBlocks (metric_in report.now) report.now.requests.now (packet_from report.now from)
        out.old out.new result }
{
    let mut reported = from.reported;
    let mut room = report.limit - PACKET_FRAME;
    let mut at = PACKET_HEADER_OCTETS;
    for i in from.request..report.requests.len() {
        let r = report.requests[i];
        let p = report.found[i];
        let begin = cutting::number_after(r.begin, reported);
        let count = r.count - reported;
        match cutting::next_block(room, count) {
            NextBlock::Whole => {
                report_block::put_block(out, at, report.cells, report.rts, p, r.ssrc, begin, count);
                let size = packet::block_octets(count);
                at += size;
                room -= size;
                reported = 0;
            }
            NextBlock::Part(first) => {
                report_block::put_block(out, at, report.cells, report.rts, p, r.ssrc, begin, first);
                return standing(i, reported + first, at + packet::block_octets(first));
            }
            NextBlock::Closed => return standing(i, reported, at),
        }
    }
    standing(report.requests.len(), 0, at)
}
