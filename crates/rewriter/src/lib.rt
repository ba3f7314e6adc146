// The rewriter: writes a CCFB packet whose metrics with R = 0 become 0x0000.
#![tactic(auto)]

ghost use Rattle.std.specs.Prelude.{◌≡◌, ◌+◌, ◌≤◌, length};
ghost use Rattle.std.proofs.lemmas.List.Edits.{sets};
ghost use Rattle.octets.specs.Output.{output_after};
ghost use Rattle.packet.specs.Sizes.{block_header_octets, block_octets};
ghost use Rattle.packet.specs.Packet.{encode_block};
ghost use Rattle.reader.specs.Reading.{block_in, decode_packet};
ghost use Rattle.rewriter.specs.Rewrite.{rewrite_block, rewrite_of};
ghost use Rattle.rewriter.specs.Steps.{rewritten_from};

use packet::{BLOCK_HEADER_OCTETS, PACKET_HEADER_OCTETS, RTS_OCTETS, SENDER_AT};
use packet_header::Cursor;
use refusal::Refusal;
use walk::ReportBlock;

// Writes a block of the packet, rewritten, to the same place of the output.
#[tactic(auto, using(crate::proofs::Output::block_written))]
fn rewrite_block(packet: &[u8], out: &mut [u8], at: usize, b: ReportBlock)
    requires here { b.metrics_at ≡ at + block_header_octets }
    requires held { at + block_octets b.num_reports ≤ length packet.now }
    requires room { length packet.now ≤ length out.old }
    ensures content { out.new ≡ sets out.old at (encode_block (rewrite_block (block_in packet.now b))) }
{
    let from = at + BLOCK_HEADER_OCTETS;
    let n = b.num_reports as usize;
    block_put::put_block_header(out, at, b.ssrc, b.begin_seq, b.num_reports);
    metric_rewriter::rewrite_metrics(packet, out, from, n);
    block_put::put_filler(out, from + 2 * n, b.num_reports);
}

// Writes the blocks of the packet, rewritten, starting at a cursor.
fn rewrite_blocks(packet: &[u8], out: &mut [u8], from: Cursor)
    requires room { length packet.now ≤ length out.old }
    ensures content { out.new
        ≡ sets out.old from.at
        (rewritten_from (length packet.now) packet.now from.at) }
{
    let mut cursor = from;
    while let Ok(Some((block, next))) = walk::next(cursor, packet) {
        rewrite_block(packet, out, cursor.at, block);
        cursor = next;
    }
}

// Writes the packet to the start of the output; its metrics with R = 0 become 0x0000.
pub fn rewrite(packet: &[u8], out: &mut [u8]) -> Result<usize, Refusal>
    ensures after { output_after result out.new ≡ rewrite_of (decode_packet packet.now) out.old }
{
    let size = packet.len();
    reader::count_blocks(packet)?;
    if out.len() < size {
        return Err(Refusal::OutputTooShort);
    }
    let rts = size - RTS_OCTETS;
    packet_put::put_header(out, size, octets::get32(packet, SENDER_AT));
    rewrite_blocks(
        packet,
        out,
        Cursor {
            at: PACKET_HEADER_OCTETS,
        },
    );
    octets_put::put32(out, rts, octets::get32(packet, rts));
    Ok(size)
}
