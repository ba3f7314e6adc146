// The check of requests: what is wrong with them, and at which place each one's stream is held.
#![tactic(auto)]

ghost use Rattle.std.specs.Prelude.{◌≡◌, ◌≤◌, length};
ghost use Rattle.cutting.specs.Limits.{most_requests};
ghost use Rattle.requests.specs.Steps.{Validated};

use cutting::Request;
use refusal::Refusal;

// Checks the requests up to the first fault, and notes in `found` the place of each one's stream.
pub fn validate(places: &[u64], requests: &[Request], found: &mut [usize]) -> Result<(), Refusal>
    requires few { length requests.now ≤ most_requests }
    requires room { length found.old ≡ most_requests }
    ensures answer { Validated places.now requests.now found.new result }
{
    for i in 0..requests.len() {
        found[i] = request_check::check_request(places, &requests[..i], requests[i])?;
    }
    Ok(())
}
