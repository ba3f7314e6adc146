// The call for C that decodes all metrics of a block in one pass.
#![tactic(auto)]

ghost use Rattle.std.specs.Prelude.{◌≡◌};
ghost use Rattle.metric_arrays.specs.Arrays.{arrays, decoded_all};
ghost use Rattle.ccfb_metric_arrays.specs.Decoding.{decoding, decode_called};

// Decodes the metrics of a part: entry j of the arrays has the case of metric j, its mark and its offset, 0 where the case
// has none. Refusal 10.
#[unsafe(no_mangle)]
pub extern "C" fn ccfb_decode_metrics(
    part: &[u8],
    cases: &mut [u8],
    marks: &mut [u8],
    offsets: &mut [u16],
) -> u8
    ensures after { decoding result (arrays cases.new marks.new offsets.new)
        ≡ decode_called
        (decoded_all part.now (arrays cases.old marks.old offsets.old)) }
{
    let answer = metric_arrays::decode_metrics(part, cases, marks, offsets);
    match answer {
        Ok(()) => 0,
        Err(e) => refusal::number(e),
    }
}
