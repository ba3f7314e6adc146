// All metrics of a part decoded in one pass, into three arrays: cases, marks and offsets.
#![tactic(auto)]

ghost use Rattle.std.specs.Prelude.{◌≡◌, ◌*◌, ◌≤◌, length};
ghost use Rattle.reader.specs.Reading.{metrics_at_of};
ghost use Rattle.metric_arrays.specs.Arrays.{arrays, arrays_after, decoded_into, decoded_all};

use refusal::Refusal;

// Decodes n metrics of a part.
fn fill(part: &[u8], cases: &mut [u8], marks: &mut [u8], offsets: &mut [u16], n: usize)
    requires held { 2 * n ≤ length part.now }
    requires cases { n ≤ length cases.old }
    requires marks { n ≤ length marks.old }
    requires offsets { n ≤ length offsets.old }
    ensures content { arrays cases.new marks.new offsets.new
        ≡ decoded_into (metrics_at_of part.now 0 n)
        (arrays cases.old marks.old offsets.old) }
{
    for j in 0..n {
        let m = low_first::get16(part, 2 * j);
        cases[j] = metric_fields::case_number(m);
        marks[j] = metric_fields::mark_or_zero(m);
        offsets[j] = metric_fields::offset_or_zero(m);
    }
}

// Decodes all metrics of a part into the starts of the three arrays, metric j to entry j. Refusal 10 if one of them has
// fewer entries than the part has metrics.
#[tactic(auto, unfolding(crate::specs::Arrays::decoded_all))]
pub fn decode_metrics(
    part: &[u8],
    cases: &mut [u8],
    marks: &mut [u8],
    offsets: &mut [u16],
) -> Result<(), Refusal>
    ensures after { arrays_after result (arrays cases.new marks.new offsets.new)
        ≡ decoded_all part.now (arrays cases.old marks.old offsets.old) }
{
    let n = part.len() / 2;
    if cases.len() < n {
        return Err(Refusal::OutputTooShort);
    }
    if marks.len() < n {
        return Err(Refusal::OutputTooShort);
    }
    if offsets.len() < n {
        return Err(Refusal::OutputTooShort);
    }
    fill(part, cases, marks, offsets, n);
    Ok(())
}
