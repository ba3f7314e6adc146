// Taking in a report block: what it says of each of its numbers is entered at the number's cell.
#![tactic(auto)]

ghost use Rattle.std.specs.Prelude.{◌≡◌, ◌+◌, ◌-◌, ◌*◌, ◌<◌, ◌≤◌, length};
ghost use Rattle.ring.specs.Ring.{cells_of_a_place};
ghost use Rattle.packet.specs.Sizes.{most_reports};
ghost use Rattle.reader.specs.Reading.{metrics_at_of, block_in};
ghost use Rattle.reports.specs.Reports.{Within};
ghost use Rattle.sent_block.specs.Steps.{run_entered, block_entered, block_taken};

use ring::CELLS_OF_A_PLACE;
use walk::ReportBlock;

// The highest number of a window is so far above the lowest one.
const WINDOW_SPAN: u16 = 2047;

// Enters n metrics in cells that lie side by side.
// A plain loop on purpose: it becomes vector code.
#[tactic(auto, using(crate::proofs::Runs::run_steps))]
fn enter_run(cells: &mut [u64], at: usize, packet: &[u8], from: usize, n: usize, rts: u32)
    requires room { at + n ≤ length cells.old }
    requires held { from + 2 * n ≤ length packet.now }
    ensures content { cells.new ≡ run_entered rts cells.old at (metrics_at_of packet.now from n) }
{
    for i in 0..n {
        let metric = low_first::get16(packet, from + 2 * i);
        cells[at + i] = sent_word::word_reported(cells[at + i], metric, rts);
    }
}

// A block of the stream that the place p holds.
// The window is tested once for the block: its numbers that are in the window lie together, since a block is not long
// enough to come round to the window again. Their cells are two runs: up to the end of the ring, and from its start.
fn enter_block(cells: &mut [u64], packet: &[u8], b: ReportBlock, p: usize, highest: u16, rts: u32)
    requires room { cells_of_a_place * p + cells_of_a_place ≤ length cells.old }
    requires within { Within packet.now b }
    requires few { b.num_reports ≤ most_reports }
    ensures content { cells.new ≡ block_entered p highest rts cells.old (block_in packet.now b) }
{
    // How far the highest number is above that of metric 0.
    let above = window::distance(highest, b.begin_seq);
    // The metrics whose numbers are in the window: from `first` up to `end`.
    let first = above.saturating_sub(WINDOW_SPAN);
    let end = b.num_reports.min(above.saturating_add(1));
    if first < end {
        let count = (end - first) as usize;
        let from = b.metrics_at + 2 * (first as usize);
        let at = place_window::cell_index(p, b.begin_seq.wrapping_add(first));
        let start = CELLS_OF_A_PLACE * p;
        let n = count.min(CELLS_OF_A_PLACE - (at - start));
        enter_run(cells, at, packet, from, n, rts);
        enter_run(cells, start, packet, from + 2 * n, count - n, rts);
    }
}

// A block of a packet with that RTS: the place of its stream is found once, and a stream that no place holds is passed
// over.
#[tactic(auto, using(lists::proofs::First::first_below), unfolding(crate::specs::Steps::block_taken))]
pub fn take_block(places: &[u64], cells: &mut [u64], packet: &[u8], b: ReportBlock, rts: u32)
    requires sized { length cells.old ≡ cells_of_a_place * length places.now }
    requires within { Within packet.now b }
    requires few { b.num_reports ≤ most_reports }
    ensures content { cells.new
        ≡ block_taken places.now rts cells.old (block_in packet.now b) }
{
    if let Some(p) = places::find(places, b.ssrc) {
        let highest = places::highest_at(places, p);
        enter_block(cells, packet, b, p, highest, rts);
    }
}
