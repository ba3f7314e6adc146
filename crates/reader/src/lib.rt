// The reader: what a CCFB packet says as a whole. It accepts any octets, and answers or gives the first refusal.
#![tactic(auto)]

ghost use Rattle.std.specs.Prelude.{◌≡◌};
ghost use Rattle.walk.specs.Walk.{walk_from, walk_of};
ghost use Rattle.reader.specs.Reading.{decode_packet, read_of};
ghost use Rattle.reader.specs.Steps.{counted};

use packet::{RTS_OCTETS, SENDER_AT};
use packet_header::Cursor;
use refusal::Refusal;

// The answer about the whole packet.
#[derive(Clone, Copy)]
pub struct Summary {
    pub sender: u32,
    pub rts: u32,
    pub blocks: usize,
}

// How many blocks the walk that starts at a cursor finds. Only our own crates call it.
#[tactic(auto, using(crate::proofs::Answers::counts))]
pub fn count_blocks_from(packet: &[u8], from: Cursor) -> Result<usize, Refusal>
    ensures value { result ≡ counted 0 (walk_from packet.now from.at) }
{
    let mut cursor = from;
    let mut n = 0;
    while let Some((_, next)) = walk::next(cursor, packet)? {
        cursor = next;
        n += 1;
    }
    Ok(n)
}

// The number of blocks of a packet, or the first refusal.
#[tactic(auto, unfolding(walk::specs::Walk::walk_of))]
pub fn count_blocks(packet: &[u8]) -> Result<usize, Refusal>
    ensures value { result ≡ counted 0 (walk_of packet.now) }
{
    let cursor = packet_header::read_header(packet)?;
    count_blocks_from(packet, cursor)
}

// The sender, RTS and the number of blocks of a packet.
#[tactic(auto, using(crate::proofs::Answers::summary_counted, crate::proofs::Answers::counted_long))]
pub fn read(packet: &[u8]) -> Result<Summary, Refusal>
    ensures value { result ≡ read_of (decode_packet packet.now) }
{
    let blocks = count_blocks(packet)?;
    Ok(Summary {
        sender: octets::get32(packet, SENDER_AT),
        rts: octets::get32(packet, packet.len() - RTS_OCTETS),
        blocks,
    })
}
