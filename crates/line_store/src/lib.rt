// The store of ccfbline, before the first record.
#![tactic(auto)]

ghost use Rattle.std.specs.Prelude.{◌≡◌};
ghost use Rattle.line_store.specs.Fresh.{fresh_places, fresh_cells};

use ring::CELLS_OF_A_PLACE;

const LINE_PLACES: usize = 4;

// A store of four places, each free.
pub fn fresh_places() -> [u64; LINE_PLACES]
    ensures value { result ≡ fresh_places }
{
    [0; LINE_PLACES]
}

// Its cells, each empty.
pub fn fresh_cells() -> [u64; LINE_PLACES * CELLS_OF_A_PLACE]
    ensures value { result ≡ fresh_cells }
{
    [0; LINE_PLACES * CELLS_OF_A_PLACE]
}
