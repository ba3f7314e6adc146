// Takes an arrival file into a store, piece by piece.
#![tactic(auto)]

ghost use Rattle.std.specs.Prelude.{◌≡◌};
ghost use Rattle.places.specs.Shape.{Shaped};
ghost use Rattle.intake.specs.Intake.{at_start, intake_after, fed_of};

use arrival_file::Phase;

// Where the taking of a file stands: its phase, RTS (the last known time so far, else 0), the gap (the most numbers
// that an arrival so far passed over, else 0), and how many octets are not taken yet.
#[derive(Clone, Copy)]
pub struct Intake {
    pub phase: Phase,
    pub rts: u32,
    pub gap: u16,
    pub left: usize,
}

// Before the first piece.
pub fn start() -> Intake
    ensures value { result ≡ at_start }
{
    Intake {
        phase: Phase::Header,
        rts: 0,
        gap: 0,
        left: 0,
    }
}

// Takes the next piece of a file. `octets` are those that the pieces before left, and then the piece; those that are
// left now are moved to the front. Only ccfbline calls this, and its store has the right shape: with another one every
// record would be skipped with refusal 4, and nobody would be told.
pub fn feed(places: &mut [u64], cells: &mut [u64], intake: Intake, octets: &mut [u8]) -> Intake
    requires shape { Shaped places.old cells.old }
    ensures after { intake_after result places.new cells.new octets.new
        ≡ fed_of places.old cells.old intake octets.old }
{
    let taken = taking::take(places, cells, octets, intake.phase, intake.rts, intake.gap);
    octets_move::move_to_front(octets, taken.at);
    Intake {
        phase: taken.phase,
        rts: taken.rts,
        gap: taken.gap,
        left: octets.len() - taken.at,
    }
}
