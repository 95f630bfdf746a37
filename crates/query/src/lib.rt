// Which value a get and a next-name answer with: the entry of a region that holds it.
#![tactic(auto)]

ghost use Rattle.std.specs.Prelude.{◌≡◌, cond};
ghost use Rattle.model.specs.Lists.{same};
ghost use Rattle.model.specs.Name.{keyed, empty_name};
ghost use Rattle.model.specs.Image.{region_header_size};
ghost use Rattle.model.specs.Region.{entries};
ghost use Rattle.region.specs.Stored.{entry_of};
ghost use Rattle.region.specs.Met.{met_of};
ghost use Rattle.query.specs.Query.{entry_in, visible, is_seen_def, is_sought_def, is_shown_def, is_passed_def, entry_to_get, entry_to_name, standing_at};

use model::Layout;
use region::walk::{self, Stored};
use region::{Met, Placed, judge};
use values::list;

pub mod many;

// Whether a value with these attributes is seen: at runtime only with runtime access.
fn is_visible(runtime: bool, attributes: u32) -> bool
    ensures { result ≡ visible runtime attributes }
{
    !runtime || policy::runtime_access(attributes)
}

// Whether an entry is a value that is seen.
#[tactic(auto, unfolding(crate::specs::Query::is_seen_def, model::specs::Walk::placed))]
fn is_seen(region: &[u8], e: &Stored, runtime: bool) -> bool
    ensures { result ≡ is_seen_def runtime (entries region.now) (entry_of e.now) }
{
    is_visible(runtime, e.entry.attributes) && list::stands(Layout::AUTHENTICATED, region, e)
}

// Whether an entry is a value that is seen, of this name and GUID; what is cheap to look at comes first.
#[tactic(auto, unfolding(crate::specs::Query::is_sought_def, crate::specs::Query::is_seen_def, model::specs::Region::is_value, model::specs::Walk::placed))]
fn is_sought(region: &[u8], e: &Stored, runtime: bool, name: &[u8], vendor: &[u8]) -> bool
    ensures { result ≡ is_sought_def runtime (keyed name.now vendor.now) (entries region.now) (entry_of e.now) }
{
    let state = e.entry.state;
    judge::is_live(state) && e.is(state, name, vendor) && is_seen(region, e, runtime)
}

// Where the entry begins that holds a name's value: its 3F entry, else its 3E entry.
fn standing(met: Met) -> Option<usize>
    ensures { result ≡ standing_at met }
{
    met.added.or(met.replacing)
}

// The same by a walk from there on.
fn walk_to_get(
    region: &[u8],
    runtime: bool,
    name: &[u8],
    vendor: &[u8; 16],
    met: Met,
) -> Option<Placed>
    requires { met ≡ met_of (keyed name.now vendor.now) (entries region.now) }
    ensures { entry_in region.now result ≡ entry_to_get runtime (keyed name.now vendor.now) (entries region.now) }
{
    for e in walk::entries_from(Layout::AUTHENTICATED, region, standing(met)?) {
        if is_sought(region, &e, runtime, name, vendor) {
            return Some(e.placed());
        }
    }
    None
}

// The value to get: the one of this name and GUID, if it is seen. It is where the name was met, so the name is not compared again.
pub fn to_get(
    region: &[u8],
    runtime: bool,
    name: &[u8],
    vendor: &[u8; 16],
    met: Met,
) -> Option<Placed>
    requires { met ≡ met_of (keyed name.now vendor.now) (entries region.now) }
    ensures { entry_in region.now result ≡ entry_to_get runtime (keyed name.now vendor.now) (entries region.now) }
{
    let at = standing(met)?;
    let (entry, _) = walk::turn(Layout::AUTHENTICATED, region, at)?;
    if is_visible(runtime, entry.attributes) {
        return Some(Placed { at, entry });
    }
    walk_to_get(region, runtime, name, vendor, met)
}

// Whether a name is the two-byte empty one, with which next-name begins.
#[tactic(auto, unfolding(model::specs::Name::empty_name))]
pub fn is_empty_name(name: &[u8]) -> bool
    ensures { result ≡ same name.now empty_name }
{
    slices::equal(name, b"\0\0")
}

// Whether an entry is a value that is seen, and a side's own.
#[tactic(auto, unfolding(crate::specs::Query::is_shown_def))]
fn is_shown(region: &[u8], e: &Stored, runtime: bool, guid: &[u8; 16], modem: bool) -> bool
    ensures { result ≡ is_shown_def guid.now modem runtime (entries region.now) (entry_of e.now) }
{
    is_seen(region, e, runtime) && list::is_own(e, guid, modem)
}

// And of this name and GUID.
#[tactic(auto, unfolding(crate::specs::Query::is_passed_def, crate::specs::Query::is_sought_def, crate::specs::Query::is_shown_def))]
fn is_passed(
    region: &[u8],
    e: &Stored,
    runtime: bool,
    guid: &[u8; 16],
    modem: bool,
    name: &[u8],
    vendor: &[u8],
) -> bool
    ensures { result ≡ is_passed_def guid.now modem runtime (keyed name.now vendor.now) (entries region.now) (entry_of e.now) }
{
    is_sought(region, e, runtime, name, vendor) && list::is_own(e, guid, modem)
}

// Where the walk for the next name begins: at the name, or behind the empty name at the first entry.
fn begin(empty: bool, met: Met) -> Option<usize>
    ensures { result ≡ cond empty (Some region_header_size) (standing_at met) }
{
    if empty {
        Some(layout::REGION_HEADER)
    } else {
        standing(met)
    }
}

// The value to name: of those that are seen and a side's own, the first after the one of this name and GUID, or the first of all after the empty name.
pub fn to_name(
    region: &[u8],
    runtime: bool,
    guid: &[u8; 16],
    modem: bool,
    name: &[u8],
    vendor: &[u8; 16],
    met: Met,
) -> Option<Placed>
    requires { met ≡ met_of (keyed name.now vendor.now) (entries region.now) }
    ensures { entry_in region.now result ≡ entry_to_name guid.now modem runtime (keyed name.now vendor.now)
        (entries region.now) }
{
    let mut passed = is_empty_name(name);
    let from = begin(passed, met)?;
    for e in walk::entries_from(Layout::AUTHENTICATED, region, from) {
        if !passed {
            passed = is_passed(region, &e, runtime, guid, modem, name, vendor);
        } else if is_shown(region, &e, runtime, guid, modem) {
            return Some(e.placed());
        }
    }
    None
}
