// Writes the header and the filler of a report block.
#![tactic(auto)]

ghost use Rattle.std.specs.Prelude.{◌≡◌, ◌+◌, ◌*◌, ◌%◌, ◌≤◌, length};
ghost use Rattle.std.proofs.lemmas.List.Edits.{sets};
ghost use Rattle.packet.specs.Sizes.{block_header_octets};
ghost use Rattle.packet.specs.Packet.{filler, block_header};

// Writes the header of a block.
#[tactic(auto, using(octets::proofs::Sets::sets_twice))]
pub fn put_block_header(out: &mut [u8], at: usize, ssrc: u32, begin_seq: u16, num_reports: u16)
    requires room { at + block_header_octets ≤ length out.old }
    ensures content { out.new ≡ sets out.old at (block_header ssrc begin_seq num_reports) }
{
    octets_put::put32(out, at, ssrc);
    octets_put::put16(out, at + 4, begin_seq);
    octets_put::put16(out, at + 6, num_reports);
}

// Writes the filler, 16 zero bits, behind an odd count of metrics; behind an even count nothing.
#[tactic(auto, unfolding(packet::specs::Packet::filler))]
pub fn put_filler(out: &mut [u8], at: usize, num_reports: u16)
    requires room { at + 2 * (num_reports % 2) ≤ length out.old }
    ensures content { out.new ≡ sets out.old at (filler num_reports) }
{
    if num_reports % 2 == 0 {
        return;
    }
    octets_put::put16(out, at, 0);
}
