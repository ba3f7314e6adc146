// Moves octets within a buffer.
#![tactic(auto)]

ghost use Rattle.std.specs.Prelude.{◌≡◌, ◌≤◌, length, drop};
ghost use Rattle.std.proofs.lemmas.List.Edits.{sets};

// Moves the octets that start at an offset to the front.
pub fn move_to_front(s: &mut [u8], from: usize)
    requires within { from ≤ length s.old }
    ensures content { s.new ≡ sets s.old 0 (drop from s.old) }
{
    s.copy_within(from.., 0);
}
