// Requests that C lends as a list of records, gathered into an array of 16.
#![tactic(auto)]

ghost use Rattle.std.specs.Prelude.{◌≡◌};
ghost use Rattle.request_list.specs.Lent.{gathered_of};

use cutting::{MOST_REQUESTS, Request};

// The first 16 requests of a list, as an array by value. What stands behind the last request is blank.
pub fn gathered(requests: &[Request]) -> [Request; MOST_REQUESTS]
    ensures value { result ≡ gathered_of requests.now }
{
    let mut all = [Request {
        ssrc: 0,
        begin: 0,
        count: 0,
    }; MOST_REQUESTS];
    let n = requests.len().min(MOST_REQUESTS);
    all[..n].copy_from_slice(&requests[..n]);
    all
}
