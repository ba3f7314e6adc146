// The call for C that rewrites a packet.
#![tactic(auto)]

ghost use Rattle.std.specs.Prelude.{◌≡◌};
ghost use Rattle.reader.specs.Reading.{decode_packet};
ghost use Rattle.rewriter.specs.Rewrite.{rewrite_of};
ghost use Rattle.ccfb_rewriter.specs.Rewriting.{rewrote, rewrite_called};

// Writes the packet to the start of the output; its metrics with R = 0 become 0x0000. Refusals 21 to 28, then 10.
#[unsafe(no_mangle)]
pub extern "C" fn ccfb_rewrite(packet: &[u8], out: &mut [u8], written: &mut usize) -> u8
    ensures after { rewrote result written.new out.new
        ≡ rewrite_called (rewrite_of (decode_packet packet.now) out.old) written.old }
{
    let answer = rewriter::rewrite(packet, out);
    match answer {
        Ok(n) => {
            *written = n;
            0
        }
        Err(e) => refusal::number(e),
    }
}
