// The line that ccfbline prints for a packet: its octets in hex.
#![tactic(auto)]

ghost use Rattle.std.specs.Prelude.{◌≡◌, ◌+◌, ◌*◌, ◌≤◌, ◌<◌, length};
ghost use Rattle.std.proofs.lemmas.List.Edits.{sets};
ghost use Rattle.octets.specs.Output.{output_after};
ghost use Rattle.line_hex.specs.Hex.{digit_of, hex_of, hex_line, put_text};

// The digits 10 to 15 are the letters starting at `a`: LETTERS + 10 is `a`.
const LETTERS: u8 = 87;

// Writes a text at an offset of the output.
pub fn put_text(out: &mut [u8], at: usize, text: &[u8])
    requires room { at + length text.now ≤ length out.old }
    ensures content { out.new ≡ sets out.old at text.now }
{
    out[at..at + text.len()].copy_from_slice(text);
}

// A digit of lower-case hex.
fn hex_digit(n: u8) -> u8
    requires digit { n < 16 }
    ensures value { result ≡ digit_of n }
{
    if n < 10 { b'0' + n } else { LETTERS + n }
}

// Writes the octets of a packet in hex to the front of the output.
fn put_hex(out: &mut [u8], packet: &[u8])
    requires room { 2 * length packet.now ≤ length out.old }
    ensures content { out.new ≡ sets out.old 0 (hex_of packet.now) }
{
    for (i, x) in packet.iter().enumerate() {
        out[2 * i] = hex_digit(*x / 16);
        out[2 * i + 1] = hex_digit(*x % 16);
    }
}

// Writes a packet as one line of hex to the front of the output: how many octets.
pub fn put_line(out: &mut [u8], packet: &[u8]) -> usize
    requires room { 2 * length packet.now + 1 ≤ length out.old }
    ensures after { output_after result out.new ≡ put_text out.old (hex_line packet.now) }
{
    put_hex(out, packet);
    let end = 2 * packet.len();
    out[end] = b'\n';
    end + 1
}
