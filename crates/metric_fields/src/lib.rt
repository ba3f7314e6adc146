// The case of a metric as three numbers, without an enum: the case's own number, its mark and its offset. For many
// metrics, whose cases cannot be predicted: these functions compile without a branch, and a loop that calls them becomes
// vector code.
#![tactic(auto)]

ghost use Rattle.std.specs.Prelude.{◌≡◌, ◌-◌, cond, ltb};
ghost use Rattle.metric.specs.Metric.{largest_offset, received_bit, case_number, decode_of};
ghost use Rattle.metric_fields.specs.Fields.{mark_or, offset_or};

use metric::{MARK_UNIT, RECEIVED_BIT};

// The largest offset, 8189; the two ATOs above it are codes.
const LARGEST_OFFSET: u16 = 0x1FFD;

// The bits of a metric; all 0 if its number was not received.
fn received_bits(m: u16) -> u16
    ensures value { result ≡ cond (ltb m received_bit) 0 m }
{
    if m < RECEIVED_BIT {
        return 0;
    }
    m
}

// How far an ATO is above the largest offset: 1 over range, 2 no time.
fn above_offsets(ato: u16) -> u16
    ensures value { result ≡ ato - largest_offset }
{
    ato.saturating_sub(LARGEST_OFFSET)
}

// The number of a metric's case: R counts 1, and the codes add 1 and 2.
#[tactic(auto, using(crate::proofs::Bits::number_read))]
pub fn case_number(m: u16) -> u8
    ensures value { result ≡ case_number (decode_of m) }
{
    let bits = received_bits(m);
    (m / RECEIVED_BIT + above_offsets(bits % MARK_UNIT)) as u8
}

// The mark of a metric; 0 where its case has none.
#[tactic(auto, using(crate::proofs::Bits::mark_read))]
pub fn mark_or_zero(m: u16) -> u8
    ensures value { result ≡ mark_or (decode_of m) 0 }
{
    let bits = received_bits(m);
    (bits / MARK_UNIT % 4) as u8
}

// The offset of a metric; 0 where its case has none.
#[tactic(auto, using(crate::proofs::Bits::offset_read, crate::proofs::Bits::offset_none))]
pub fn offset_or_zero(m: u16) -> u16
    ensures value { result ≡ offset_or (decode_of m) 0 }
{
    let bits = received_bits(m);
    let ato = bits % MARK_UNIT;
    if LARGEST_OFFSET < ato {
        return 0;
    }
    ato
}
