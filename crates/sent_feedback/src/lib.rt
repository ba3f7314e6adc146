// Taking in a feedback packet: what it says of the numbers that were registered.
#![tactic(auto)]

ghost use Rattle.std.specs.Prelude.{◌≡◌, ◌*◌, length, Ok};
ghost use Rattle.ring.specs.Ring.{cells_of_a_place};
ghost use Rattle.walk.specs.Walk.{walk_from};
ghost use Rattle.sent_feedback.specs.TakeIn.{cells_after, taken_in};
ghost use Rattle.sent_feedback.specs.Steps.{NotStopped, blocks_taken};

use packet::PACKET_HEADER_OCTETS;
use packet_header::Cursor;
use refusal::Refusal;

// Block by block, starting at a cursor, a packet that the reader accepts.
fn take_blocks(
    places: &[u64],
    cells: &mut [u64],
    packet: &[u8],
    from: Cursor,
    rts: u32,
) -> Result<(), Refusal>
    requires sized { length cells.old ≡ cells_of_a_place * length places.now }
    requires sound { NotStopped (walk_from packet.now from.at) }
    ensures accepted { result ≡ Ok tt }
    ensures content { cells.new
        ≡ blocks_taken places.now rts packet.now cells.old (walk_from packet.now from.at) }
{
    let mut cursor = from;
    while let Some((block, next)) = walk::next(cursor, packet)? {
        sent_block::take_block(places, cells, packet, block, rts);
        cursor = next;
    }
    Ok(())
}

// Takes in a packet: refusals 4, then the reader's, 21 to 28. It is checked to its end before the first number is
// entered.
pub fn take_in(places: &[u64], cells: &mut [u64], packet: &[u8]) -> Result<(), Refusal>
    ensures after { cells_after result cells.new
        ≡ taken_in places.now cells.old packet.now }
{
    if !places::is_shaped(places, cells) {
        return Err(Refusal::BadStore);
    }
    let summary = reader::read(packet)?;
    let first = Cursor {
        at: PACKET_HEADER_OCTETS,
    };
    take_blocks(places, cells, packet, first, summary.rts)
}
