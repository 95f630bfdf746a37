// The values of a region in flash order, and what a pass over them counts, in every stored form.
ghost use Rattle.std.specs.Prelude.{◌≡◌, ◌+◌, ◌^◌, ◌<◌, ◌≤◌, length};
ghost use Rattle.model.specs.Entry.{entry_size_in, key_of};
ghost use Rattle.model.specs.Walk.{entry_value_def};
ghost use Rattle.model.specs.Region.{entries, entries_in, is_value, values};
ghost use Rattle.model.specs.Sides.{owns};
ghost use Rattle.region.specs.Walk.{entry_as};
ghost use Rattle.region.specs.Stored.{entry_of};
ghost use Rattle.values.specs.Allotted.{allotted_by};
ghost use Rattle.values.specs.Listed.{value_entries, values_left};
ghost use Rattle.values.specs.Sums.{Tallied, counted};

use crate::Tally;
use layout::{Entry, fixed};
use model::Layout;
use region::walk::{self, Stored, Walk};

// Whether an entry is its name's value: a 3F entry, or a 3E entry beside no 3F entry.
#[inline(always)]
pub fn stands(y: Layout, region: &[u8], e: &Stored) -> bool
    ensures { result ≡ is_value (entries_in y region.now) (entry_of e.now) }
{
    if e.entry.state == 0x3F {
        return true;
    }
    if e.entry.state != 0x3E {
        return false;
    }
    let name = e.name();
    let vendor = e.vendor();
    !walk::entries(y, region).any(|x| x.is(0x3F, name, vendor))
}

// The values of a region from some entry on: the entries that hold them.
#[derive(Clone, Copy)]
pub struct Listed<'a> {
    form: Layout,
    region: &'a [u8],
    walk: Walk<'a>,
}

impl<'a> Iterator for Listed<'a> {
    ghost use Rattle.std.specs.Iterator.{YieldsFirstBy, item_count};
    ghost use Rattle.region.specs.Stored.{entry_of};
    ghost use Rattle.values.specs.Listed.{values_left};

    type Item = Stored<'a>;

    ghost next_gives = { YieldsFirstBy entry_of values_left };

    ghost remaining = { item_count values_left };

    #[inline(always)]
    fn next(&mut self) -> Option<Stored<'a>> {
        while let Some(e) = self.walk.next() {
            if stands(self.form, self.region, &e) {
                return Some(e);
            }
        }
        None
    }
}

// The values of a region in flash order.
pub fn values(y: Layout, region: &[u8]) -> Listed<'_>
    ensures { values_left result ≡ value_entries (entries_in y region.now) }
{
    Listed {
        form: y,
        region,
        walk: walk::entries(y, region),
    }
}

// The rounded size of the entry that a value is written as: of a name and data that the region cuts off, what it holds of them.
#[tactic(auto, using(crate::proofs::Sizes::lengths))]
pub fn size_of(y: Layout, region: &[u8], at: usize, e: Entry) -> usize
    ensures { result ≡ entry_size_in y (entry_value_def (entry_as y region.now at e)) }
{
    let name = walk::name_of(y, region, at, e);
    let data = walk::data_of(y, region, at, e);
    layout::entry_size(y, name.len(), data.len())
}

// The same of an entry where it stands.
fn entry_size(y: Layout, e: Stored) -> usize
    ensures { result ≡ entry_size_in y (entry_value_def (entry_of e.entry)) }
{
    layout::entry_size(y, e.name().len(), e.data().len())
}

// Whether a value is a side's own. Under another GUID than the modem's it is ours, whatever its name.
#[tactic(auto, unfolding(model::specs::Sides::owns, model::specs::Sides::modem_name, model::specs::Walk::placed))]
pub fn is_own(e: &Stored, guid: &[u8; 16], modem: bool) -> bool
    ensures { result ≡ owns guid.now modem (key_of (entry_value_def (entry_of e.now))) }
{
    let vendor = e.vendor();
    if !slices::equal(vendor, guid) {
        return !modem;
    }
    fixed::is_own(guid, modem, e.name(), vendor)
}

// With one more value, of these attributes and this size, the side's own or not.
#[tactic(auto, unfolding(crate::specs::Sums::counted))]
fn counted(t: Tally, attributes: u32, own: bool, size: usize) -> Tally
    requires { (t.number + 1 < 2 ^ 64) × (t.records + size < 2 ^ 64) × (t.own + size < 2 ^ 64) × (t.others + size < 2 ^ 64) }
    ensures { result ≡ counted t attributes own size }
{
    let told = Tally {
        number: t.number + 1,
        stamped: t.stamped | policy::time_based(attributes),
        ..t
    };
    if layout::is_error_record(attributes) {
        Tally {
            records: t.records + size,
            ..told
        }
    } else if own {
        Tally {
            own: t.own + size,
            ..told
        }
    } else {
        Tally {
            others: t.others + size,
            ..told
        }
    }
}

// The values in one pass: their number, the rounded entry sizes of each class, by the modem's GUID and a side, and whether one has 0x20.
pub fn tally(y: Layout, region: &[u8], guid: &[u8; 16], modem: bool) -> Tally
    ensures { Tallied y guid.now modem (values (entries_in y region.now)) result
        × (result.records + result.own + result.others ≤ length region.now + 3) }
{
    let mut t = Tally::default();
    for e in values(y, region) {
        let own = is_own(&e, guid, modem);
        t = counted(t, e.entry.attributes, own, entry_size(y, e));
    }
    t
}

// Whether shares and H fit in a region beside its header, and its values keep to them: what a start-up asks of what it finds, rule 22.
pub fn is_allotted(region: &[u8], guid: &[u8; 16], share: u32, theirs: u32, records: u32) -> bool
    ensures { result ≡ allotted_by guid.now share theirs records (length region.now) (values (entries region.now)) }
{
    let sums = tally(Layout::AUTHENTICATED, region, guid, false);
    let fit = layout::REGION_HEADER + share as usize + theirs as usize + records as usize;
    fit <= region.len()
        && sums.own <= share as usize
        && sums.others <= theirs as usize
        && sums.records <= records as usize
}
