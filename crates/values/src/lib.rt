// The values of a region: found by name, listed in flash order, summed.
#![tactic(auto)]

use region::Placed;

pub mod list;
pub mod lookup;

// The first 3F entry of a name and its first 3E entry: the places that a set marks.
#[derive(Clone, Copy)]
pub struct Places {
    pub added: Option<Placed>,
    pub replacing: Option<Placed>,
}

// What a pass over the values counts: how many there are; the rounded entry sizes of the error records, and of the others those of a side, and those of the other
// side; and whether one has 0x20.
#[derive(Clone, Copy, Default)]
pub struct Tally {
    pub number: usize,
    pub records: usize,
    pub own: usize,
    pub others: usize,
    pub stamped: bool,
}
