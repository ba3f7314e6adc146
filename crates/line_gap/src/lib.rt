// The line that ccfbline prints for the gap: `gap N`.
#![tactic(auto)]

ghost use Rattle.std.specs.Prelude.{◌≡◌, ◌+◌, ◌<◌, ◌≤◌, length};
ghost use Rattle.octets.specs.Output.{output_after};
ghost use Rattle.line_gap.specs.Gap.{digit_at, gap_line, gap_room, put_text_at};

const GAP: &[u8] = b"gap ";

// Writes one digit of n, that of the tens for unit 10 and so on, at an offset of the output, unless n is below the
// unit: the offset behind it.
#[tactic(auto, unfolding(crate::specs::Gap::digit_at))]
fn put_digit(out: &mut [u8], at: usize, n: u16, unit: u16) -> usize
    requires some { 0 < unit }
    requires room { at < length out.old }
    ensures after { output_after result out.new ≡ put_text_at out.old at (digit_at n unit) }
    ensures bound { result ≤ at + 1 }
{
    if n < unit {
        return at;
    }
    out[at] = b'0' + ((n / unit % 10) as u8);
    at + 1
}

// Writes the line of a gap, `gap N`, at an offset of the output: the offset behind it.
pub fn put_gap(out: &mut [u8], at: usize, gap: u16) -> usize
    requires room { at + gap_room ≤ length out.old }
    ensures after { output_after result out.new ≡ put_text_at out.old at (gap_line gap) }
{
    line_hex::put_text(out, at, GAP);
    let after_ten_thousands = put_digit(out, at + GAP.len(), gap, 10000);
    let after_thousands = put_digit(out, after_ten_thousands, gap, 1000);
    let after_hundreds = put_digit(out, after_thousands, gap, 100);
    let end = put_digit(out, after_hundreds, gap, 10);
    out[end] = b'0' + ((gap % 10) as u8);
    out[end + 1] = b'\n';
    end + 2
}
