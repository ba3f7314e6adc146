// The line that ccfbline prints for a refusal: `refused N`.
#![tactic(auto)]

ghost use Rattle.std.specs.Prelude.{◌≡◌, ◌≤◌, length};
ghost use Rattle.octets.specs.Output.{output_after};
ghost use Rattle.line_hex.specs.Hex.{put_text};
ghost use Rattle.line_refusal.specs.Refused.{refused_line, refusal_room};

use refusal::Refusal;

const REFUSED: &[u8] = b"refused ";

// Writes the line of a refusal, `refused N`, to the front of the output: how many octets. N has one digit or two.
#[tactic(auto, unfolding(crate::specs::Refused::refused_line))]
pub fn put_refusal(out: &mut [u8], e: Refusal) -> usize
    requires room { refusal_room ≤ length out.old }
    ensures after { output_after result out.new ≡ put_text out.old (refused_line e) }
{
    line_hex::put_text(out, 0, REFUSED);
    let at = REFUSED.len();
    let n = refusal::number(e);
    if n < 10 {
        out[at] = b'0' + n;
        out[at + 1] = b'\n';
        return at + 2;
    }
    out[at] = b'0' + n / 10;
    out[at + 1] = b'0' + n % 10;
    out[at + 2] = b'\n';
    at + 3
}
