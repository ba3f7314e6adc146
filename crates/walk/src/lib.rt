// The walk over the blocks of a CCFB packet. It accepts any octets, and answers what stands there or the first refusal.
#![tactic(auto)]

ghost use Rattle.std.specs.Prelude.{◌≡◌, ◌+◌, ◌≤◌, length};
ghost use Rattle.packet.specs.Sizes.{block_octets};
ghost use Rattle.walk.specs.Walk.{filler_at, step_at};

use packet::{BLOCK_HEADER_OCTETS, MOST_REPORTS, RTS_OCTETS};
use packet_header::Cursor;
use refusal::Refusal;

// A report block of a packet: it reports num_reports numbers, starting at begin_seq, and their metrics stand at the
// offset metrics_at.
#[derive(Clone, Copy)]
pub struct ReportBlock {
    pub ssrc: u32,
    pub begin_seq: u16,
    pub num_reports: u16,
    pub metrics_at: usize,
}

// The 16 bits behind an odd count of metrics, of the block at an offset; 0 where the count is even.
#[tactic(auto, using(packet::proofs::Sizes::odd_octets), unfolding(crate::specs::Walk::filler_at))]
fn filler_at(packet: &[u8], at: usize, num_reports: u16) -> u16
    requires room { at + block_octets num_reports ≤ length packet.now }
    ensures value { result ≡ filler_at packet.now at num_reports }
{
    if num_reports % 2 == 0 {
        return 0;
    }
    octets::get16(
        packet,
        at + BLOCK_HEADER_OCTETS + 2 * (num_reports as usize),
    )
}

// The block that stands here and the cursor behind it, or the end, or the first of the block's refusals, 26 to 28.
#[tactic(auto, using(crate::proofs::Steps::steps))]
pub fn next(cursor: Cursor, packet: &[u8]) -> Result<Option<(ReportBlock, Cursor)>, Refusal>
    ensures value { result ≡ step_at packet.now cursor.at }
{
    let at = cursor.at;
    if packet.len() < RTS_OCTETS {
        return Ok(None);
    }
    let rts = packet.len() - RTS_OCTETS;
    if rts <= at {
        return Ok(None);
    }
    if rts - at < BLOCK_HEADER_OCTETS {
        return Err(Refusal::RunsIntoRts);
    }
    let num_reports = octets::get16(packet, at + 6);
    if MOST_REPORTS < num_reports {
        return Err(Refusal::TooManyReports);
    }
    let size = packet::block_octets(num_reports);
    if rts - at < size {
        return Err(Refusal::RunsIntoRts);
    }
    if filler_at(packet, at, num_reports) != 0 {
        return Err(Refusal::FillerNotZero);
    }
    Ok(Some((
        ReportBlock {
            ssrc: octets::get32(packet, at),
            begin_seq: octets::get16(packet, at + 4),
            num_reports,
            metrics_at: at + BLOCK_HEADER_OCTETS,
        },
        Cursor { at: at + size },
    )))
}
