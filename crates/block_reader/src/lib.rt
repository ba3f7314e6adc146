// The reader's answer about block k of a packet. Like the reader of the whole packet it accepts any octets, and answers or
// gives the first refusal.
#![tactic(auto)]

ghost use Rattle.std.specs.Prelude.{◌≡◌};
ghost use Rattle.walk.specs.Walk.{walk_from};
ghost use Rattle.block_reader.specs.Blocks.{located, read_block};
ghost use Rattle.block_reader.specs.Steps.{after_blocks};

use packet_header::Cursor;
use refusal::Refusal;
use walk::ReportBlock;

// Where the walk that starts at a cursor stands after k blocks.
fn after_blocks(packet: &[u8], from: Cursor, k: usize) -> Result<Cursor, Refusal>
    ensures value { result ≡ after_blocks k packet.now from.at }
{
    let mut cursor = from;
    for _ in 0..k {
        let (_, next) = walk::next(cursor, packet)?.ok_or(Refusal::NoBlock)?;
        cursor = next;
    }
    Ok(cursor)
}

// The block at a cursor. The blocks after it are checked too: their refusals come before the answer.
#[tactic(auto, using(crate::proofs::Answers::located_here))]
fn block_at(packet: &[u8], at: Cursor) -> Result<ReportBlock, Refusal>
    ensures value { result ≡ located (walk_from packet.now at.at) 0 }
{
    let (block, next) = walk::next(at, packet)?.ok_or(Refusal::NoBlock)?;
    reader::count_blocks_from(packet, next)?;
    Ok(block)
}

// Block k of the walk that starts at a cursor.
#[tactic(auto, using(crate::proofs::Answers::located_after))]
fn block_from(packet: &[u8], from: Cursor, k: usize) -> Result<ReportBlock, Refusal>
    ensures value { result ≡ located (walk_from packet.now from.at) k }
{
    let cursor = after_blocks(packet, from, k)?;
    block_at(packet, cursor)
}

// Block k, from 0, of a packet.
#[tactic(auto, unfolding(walk::specs::Walk::walk_of))]
pub fn block(packet: &[u8], k: usize) -> Result<ReportBlock, Refusal>
    ensures value { result ≡ read_block packet.now k }
{
    let cursor = packet_header::read_header(packet)?;
    block_from(packet, cursor, k)
}
