// The calls for C that read a packet: its sender, RTS and number of blocks, and block k.
#![tactic(auto)]

ghost use Rattle.std.specs.Prelude.{◌≡◌, [], ◌∷◌};
ghost use Rattle.reader.specs.Reading.{decode_packet, read_of};
ghost use Rattle.block_reader.specs.Blocks.{read_block};
ghost use Rattle.ccfb_calls.specs.Called.{called};
ghost use Rattle.ccfb_reader.specs.Packets.{read_called, block_called};

use reader::Summary;

// The sender, RTS and the number of blocks. Refusals 21 to 28.
#[unsafe(no_mangle)]
pub extern "C" fn ccfb_read(
    packet: &[u8],
    sender: &mut u32,
    rts: &mut u32,
    blocks: &mut usize,
) -> u8
    ensures after { called result (sender.new ∷ rts.new ∷ blocks.new ∷ [])
        ≡ read_called (read_of (decode_packet packet.now))
        (sender.old ∷ rts.old ∷ blocks.old ∷ []) }
{
    let answer = reader::read(packet);
    match answer {
        Ok(
            Summary {
                sender: s,
                rts: t,
                blocks: n,
            },
        ) => {
            *sender = s;
            *rts = t;
            *blocks = n;
            0
        }
        Err(e) => refusal::number(e),
    }
}

// The SSRC, begin_seq and num_reports of block k, from 0. Refusals 21 to 29.
#[unsafe(no_mangle)]
pub extern "C" fn ccfb_block(
    packet: &[u8],
    k: usize,
    ssrc: &mut u32,
    begin: &mut u16,
    count: &mut u16,
) -> u8
    ensures after { called result (ssrc.new ∷ begin.new ∷ count.new ∷ [])
        ≡ block_called (read_block packet.now k)
        (ssrc.old ∷ begin.old ∷ count.old ∷ []) }
{
    let answer = block_reader::block(packet, k);
    match answer {
        Ok(b) => {
            *ssrc = b.ssrc;
            *begin = b.begin_seq;
            *count = b.num_reports;
            0
        }
        Err(e) => refusal::number(e),
    }
}
