// The region: the walk over its entries, and when it is sound and clean.
#![tactic(auto)]

use layout::Entry;

pub mod judge;
pub mod marks;
mod sorted;
pub mod walk;

// An entry at its place: the offset at which it begins, and its numbers.
#[derive(Clone, Copy)]
pub struct Placed {
    pub at: usize,
    pub entry: Entry,
}

// Where a name's 3F entry begins, and where its 3E entry.
#[derive(Clone, Copy)]
pub struct Met {
    pub added: Option<usize>,
    pub replacing: Option<usize>,
}

// What one pass over entries finds that are all sound, with no name doubled: where the tail begins, and where it met a sought name.
#[derive(Clone, Copy)]
pub struct Survey {
    pub tail: usize,
    pub met: Met,
}

// A pass by marks would have to pass too many bytes in looking back.
#[derive(Clone, Copy)]
pub struct GivenUp;

// What is told of a sound region: where its tail begins, and whether it is clean.
#[derive(Clone, Copy)]
pub struct Sound {
    pub tail: usize,
    pub clean: bool,
}

// The same, and where the region has a sought name.
#[derive(Clone, Copy)]
pub struct Searched {
    pub sound: Sound,
    pub met: Met,
}

// The sizes of a usual entry: of its name, and of header, name and data.
#[derive(Clone, Copy)]
pub struct Usual {
    pub name: usize,
    pub end: usize,
}

// The mark of a name: its place in a table, and its sign there.
#[derive(Clone, Copy)]
pub struct Mark {
    pub place: usize,
    pub sign: u8,
}
