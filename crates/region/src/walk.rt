// The walk over the entries of a region, in every stored form.
ghost use Rattle.std.specs.Prelude.{◌≡◌, ◌+◌, ◌^◌, ◌<◌};
ghost use Rattle.model.specs.Name.{keyed};
ghost use Rattle.model.specs.Region.{is_entry_def};
ghost use Rattle.model.specs.Region.{entries_in};
ghost use Rattle.model.specs.Beside.{from_in};
ghost use Rattle.region.specs.Walk.{stride_in, entry_as, stamp_at, vendor_as, turn_in};
ghost use Rattle.region.specs.Stored.{entry_of, left};

use crate::Placed;
use layout::Entry;
use model::Layout;

// The bytes of an entry up to the next: an unfinished entry counts as its header alone.
fn stride(y: Layout, e: Entry) -> usize
    ensures { (result ≡ stride_in y e) × (result < 2 ^ 36) }
{
    if e.state == 0xFF {
        return y.header();
    }
    layout::entry_size(y, e.name as usize, e.size as usize)
}

// What a turn of the walk finds at an offset: an entry's numbers and the offset of the next entry. At the end of the walk, and past it, nothing.
#[inline(always)]
pub fn turn(y: Layout, region: &[u8], at: usize) -> Option<(Entry, usize)>
    ensures { result ≡ turn_in y region.now at }
{
    if region.len() < at {
        return None;
    }
    let e = layout::read_head(y, &region[at..])?;
    Some((e, at + stride(y, e)))
}

// The name of the entry at an offset, by its numbers: the part of the region from its first byte on is handed to the reader of entries.
#[tactic(auto, unfolding(crate::specs::Walk::entry_as, layout::specs::Head::name_in, model::specs::Walk::placed))]
pub fn name_of(y: Layout, region: &[u8], at: usize, e: Entry) -> &[u8]
    ensures { result.now ≡ (entry_as y region.now at e).name }
{
    layout::name_of(y, slices::from(region, at), e)
}

// Its data.
#[tactic(auto, unfolding(crate::specs::Walk::entry_as, layout::specs::Head::data_in, model::specs::Walk::placed))]
pub fn data_of(y: Layout, region: &[u8], at: usize, e: Entry) -> &[u8]
    ensures { result.now ≡ (entry_as y region.now at e).bytes }
{
    layout::data_of(y, slices::from(region, at), e)
}

// Its GUID.
#[tactic(auto, unfolding(crate::specs::Walk::vendor_as))]
pub fn vendor_of(y: Layout, region: &[u8], at: usize) -> &[u8]
    ensures { result.now ≡ vendor_as y region.now at }
{
    layout::vendor_of(y, slices::from(region, at))
}

// Its stamp: a move reads none.
#[tactic(auto, unfolding(crate::specs::Walk::stamp_at))]
pub fn stamp_of(region: &[u8], at: usize) -> &[u8]
    ensures { result.now ≡ stamp_at region.now at }
{
    layout::stamp_of(slices::from(region, at))
}

// Whether an entry has this state, name and GUID. What is cheap to compare comes first, and the name before the GUID: variables of one vendor differ in their
// names, and most of them in the eight bytes at the end, with which their comparison begins.
#[tactic(auto, unfolding(crate::specs::Walk::entry_as, crate::specs::Walk::vendor_as, model::specs::Walk::placed))]
pub fn is_entry(
    y: Layout,
    region: &[u8],
    at: usize,
    e: Entry,
    state: u8,
    name: &[u8],
    vendor: &[u8],
) -> bool
    ensures { result ≡ is_entry_def state (keyed name.now vendor.now) (entry_as y region.now at e) }
{
    if e.state != state {
        return false;
    }
    let own = name_of(y, region, at, e);
    own.len() == name.len()
        && slices::equal(own, name)
        && slices::equal(vendor_of(y, region, at), vendor)
}

// An entry where it stands: its offset and that of the next one, its numbers, and the bytes of the region from its first one on.
#[derive(Clone, Copy)]
pub struct Stored<'a> {
    pub form: Layout,
    pub at: usize,
    pub next: usize,
    pub entry: Entry,
    pub bytes: &'a [u8],
}

impl<'a> Stored<'a> {
    // Its name.
    pub fn name(&self) -> &'a [u8]
        ensures { result.now ≡ (entry_of self.now).name }
    {
        layout::name_of(self.form, self.bytes, self.entry)
    }

    // Its GUID.
    pub fn vendor(&self) -> &'a [u8]
        ensures { result.now ≡ (entry_of self.now).header.vendor }
    {
        layout::vendor_of(self.form, self.bytes)
    }

    // Its data.
    pub fn data(&self) -> &'a [u8]
        ensures { result.now ≡ (entry_of self.now).bytes }
    {
        layout::data_of(self.form, self.bytes, self.entry)
    }

    // Where it begins, and its numbers.
    pub fn placed(&self) -> Placed
        ensures { result ≡ record { at = self.now.at; entry = self.now.entry } }
    {
        Placed {
            at: self.at,
            entry: self.entry,
        }
    }

    // Whether it has this state, name and GUID. What is cheap to compare comes first, and the name before the GUID: variables of one vendor differ in their names, and
    // most of them in the eight bytes at the end, with which their comparison begins.
    #[inline]
    pub fn is(&self, state: u8, name: &[u8], vendor: &[u8]) -> bool
        ensures { result ≡ is_entry_def state (keyed name.now vendor.now) (entry_of self.now) }
    {
        if self.entry.state != state {
            return false;
        }
        let own = self.name();
        if own.len() != name.len() {
            return false;
        }
        slices::equal(own, name) && slices::equal(self.vendor(), vendor)
    }
}

// The entries of a region from an offset on.
#[derive(Clone, Copy)]
pub struct Walk<'a> {
    pub form: Layout,
    pub region: &'a [u8],
    pub at: usize,
}

impl<'a> Iterator for Walk<'a> {
    ghost use Rattle.std.specs.Iterator.{YieldsFirstBy, item_count};
    ghost use Rattle.region.specs.Stored.{entry_of, left};

    type Item = Stored<'a>;

    ghost next_gives = { YieldsFirstBy entry_of left };

    ghost remaining = { item_count left };

    #[inline(always)]
    fn next(&mut self) -> Option<Stored<'a>> {
        let at = self.at;
        let (entry, next) = turn(self.form, self.region, at)?;
        self.at = next;
        Some(Stored {
            form: self.form,
            at,
            next,
            entry,
            bytes: &self.region[at..],
        })
    }
}

// All entries of a region.
pub fn entries(y: Layout, region: &[u8]) -> Walk<'_>
    ensures { left result ≡ entries_in y region.now }
{
    entries_from(y, region, layout::REGION_HEADER)
}

// Those from an offset on.
pub fn entries_from(y: Layout, region: &[u8], at: usize) -> Walk<'_>
    ensures { left result ≡ from_in y region.now at }
{
    Walk {
        form: y,
        region,
        at,
    }
}
