// Writes a report block: its header, the metrics of its numbers, and the filler.
#![tactic(auto)]

ghost use Rattle.std.specs.Prelude.{◌≡◌, map, ◌+◌, ◌*◌, ◌≤◌, length};
ghost use Rattle.std.proofs.lemmas.List.Edits.{sets};
ghost use Rattle.ring.specs.Ring.{cells_of_a_place};
ghost use Rattle.cell_metrics.specs.Metrics.{cell_metric};
ghost use Rattle.packet.specs.Sizes.{block_octets};
ghost use Rattle.packet.specs.Packet.{encode_metrics, encode_block};
ghost use Rattle.cutting.specs.Cutting.{numbers_from};

use packet::BLOCK_HEADER_OCTETS;

// Writes at `at` the metrics of count numbers starting at begin, of the stream at the place p.
fn put_metrics(out: &mut [u8], at: usize, cells: &[u64], rts: u32, p: usize, begin: u16, count: u16)
    requires room { at + 2 * count ≤ length out.old }
    requires held { cells_of_a_place * p + cells_of_a_place ≤ length cells.now }
    ensures content { out.new
        ≡ sets out.old at (encode_metrics (map (cell_metric cells.now rts p) (numbers_from begin count))) }
{
    for i in 0..count {
        let number = cutting::number_after(begin, i);
        let metric = cell_metrics::cell_metric(cells, rts, p, number);
        octets_put::put16(out, at + 2 * (i as usize), metric);
    }
}

// Writes at `at` a report block of count numbers starting at begin, of the stream at the place p.
pub fn put_block(
    out: &mut [u8],
    at: usize,
    cells: &[u64],
    rts: u32,
    p: usize,
    ssrc: u32,
    begin: u16,
    count: u16,
)
    requires room { at + block_octets count ≤ length out.old }
    requires held { cells_of_a_place * p + cells_of_a_place ≤ length cells.now }
    ensures content { out.new
        ≡ sets out.old at
        (encode_block (record { ssrc = ssrc; begin = begin; metrics = map (cell_metric cells.now rts p) (numbers_from begin count) })) }
{
    block_put::put_block_header(out, at, ssrc, begin, count);
    put_metrics(out, at + BLOCK_HEADER_OCTETS, cells, rts, p, begin, count);
    block_put::put_filler(out, at + BLOCK_HEADER_OCTETS + 2 * (count as usize), count);
}
