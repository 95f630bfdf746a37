// Entries of a region, looked up by name and GUID.
ghost use Rattle.std.specs.Prelude.{◌≡◌, ◌-◌, ◌≤◌, length};
ghost use Rattle.model.specs.Name.{keyed};
ghost use Rattle.model.specs.Region.{entries, added, replacing, standing};
ghost use Rattle.values.specs.Found.{found_of, else_found, old_data_def, NoneBefore};

use crate::Places;
use model::Layout;
use region::{Placed, walk};

// The offset, from one on, of the first entry that may have this name, else of the walk's end. Nearly every other name is told by two words of it.
fn like_from(region: &[u8], at: usize, name: &[u8]) -> usize
    ensures { NoneBefore region.now name.now at result × (length region.now - result ≤ length region.now - at) }
{
    let mut here = at;
    while let Some((_, next)) = walk::turn(Layout::AUTHENTICATED, region, here) {
        if layout::may_be(&region[here..], name) {
            return here;
        }
        here = next;
    }
    here
}

// The first 3F and the first 3E entry of a name and GUID, in one pass.
pub fn places(region: &[u8], name: &[u8], vendor: &[u8]) -> Places
    ensures { (result.added ≡ found_of (added (keyed name.now vendor.now) (entries region.now)))
        × (result.replacing ≡ found_of (replacing (keyed name.now vendor.now) (entries region.now))) }
{
    let mut added = None;
    let mut replacing = None;
    let mut at: usize = layout::REGION_HEADER;
    loop {
        let here = like_from(region, at, name);
        let Some((entry, next)) = walk::turn(Layout::AUTHENTICATED, region, here) else {
            return Places { added, replacing };
        };
        let placed = Some(Placed { at: here, entry });
        if walk::is_entry(
            Layout::AUTHENTICATED,
            region,
            here,
            entry,
            0x3F,
            name,
            vendor,
        ) {
            added = added.or(placed);
        } else if walk::is_entry(
            Layout::AUTHENTICATED,
            region,
            here,
            entry,
            0x3E,
            name,
            vendor,
        ) {
            replacing = replacing.or(placed);
        }
        at = next;
    }
}

// Of a name's entries the one that holds its value: the 3F entry, else the 3E entry.
pub fn standing(places: Places) -> Option<Placed>
    ensures { result ≡ else_found places.added places.replacing }
{
    places.added.or(places.replacing)
}

// The data of what stands, if anything does.
pub fn old_data(region: &[u8], standing: Option<Placed>) -> &[u8]
    ensures { result.now ≡ old_data_def region.now standing }
{
    match standing {
        Some(Placed { at, entry }) => walk::data_of(Layout::AUTHENTICATED, region, at, entry),
        None => &region[..0],
    }
}

// A name's value: its 3F entry, at which the pass ends, else its 3E entry.
#[tactic(auto, unfolding(model::specs::Region::standing, model::specs::Region::added, model::specs::Region::replacing))]
pub fn find(region: &[u8], name: &[u8], vendor: &[u8]) -> Option<Placed>
    ensures { result ≡ found_of (standing (keyed name.now vendor.now) (entries region.now)) }
{
    let mut replacing = None;
    for e in walk::entries(Layout::AUTHENTICATED, region) {
        if e.is(0x3F, name, vendor) {
            return Some(e.placed());
        }
        if e.is(0x3E, name, vendor) {
            replacing = replacing.or(Some(e.placed()));
        }
    }
    replacing
}
