// Writes big-endian numbers of 16 and 32 bits into a slice of octets.
#![tactic(auto)]

ghost use Rattle.std.specs.Prelude.{◌≡◌, ◌+◌, ◌≤◌, length};
ghost use Rattle.std.proofs.lemmas.List.Edits.{sets};
ghost use Rattle.octets.specs.Octets.{octets16, octets32};

// Writes a 16-bit number at an offset.
#[tactic(auto, using(crate::proofs::Written::written16))]
pub fn put16(out: &mut [u8], at: usize, v: u16)
    requires room { at + 2 ≤ length out.old }
    ensures content { out.new ≡ sets out.old at (octets16 v) }
{
    out[at..at + 2].copy_from_slice(&v.to_be_bytes());
}

// Writes a 32-bit number at an offset.
#[tactic(auto, using(crate::proofs::Written::written32))]
pub fn put32(out: &mut [u8], at: usize, v: u32)
    requires room { at + 4 ≤ length out.old }
    ensures content { out.new ≡ sets out.old at (octets32 v) }
{
    out[at..at + 4].copy_from_slice(&v.to_be_bytes());
}
