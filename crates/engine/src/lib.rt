// The calls. One that stores is planned first, from the image lent shared and without n, and then carried out.
#![tactic(auto)]

pub mod items;
pub mod many;
pub mod modes;
pub mod read;
pub mod room;
pub mod start;
pub mod write;
