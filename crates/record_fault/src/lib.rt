// What is wrong with the fields of a record of the arrival file.
#![tactic(auto, unfolding(crate::specs::Fault::is_faulty))]

ghost use Rattle.std.specs.Prelude.{◌≡◌};
ghost use Rattle.record_fault.specs.Fault.{is_faulty};

use metric::CONGESTED;

// A mark above 3, a flag above 1, or a time where the flag says that there is none.
pub fn is_faulty(mark: u8, flag: u8, time: u32) -> bool
    ensures value { result ≡ is_faulty mark flag time }
{
    mark > CONGESTED || flag > 1 || (flag == 0 && time != 0)
}
