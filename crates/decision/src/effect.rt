// What a set asks for, and rules 11, 12, 21, 18 and 13 on its result.
ghost use Rattle.std.specs.Prelude.{◌≡◌, true, false, cond, [], ◌++◌, ◌+◌, ◌<◌, ◌≤◌, ◌^◌, length};
ghost use Rattle.model.specs.Name.{keyed};
ghost use Rattle.model.specs.Entry.{header_size_def, rounded};
ghost use Rattle.model.specs.Image.{region_header_size};
ghost use Rattle.model.specs.Region.{record_bit, tail_at};
ghost use Rattle.model.specs.Request.{time_based_def, appends, without_append_def, proper_at};
ghost use Rattle.model.specs.Limits.{limits_in};
ghost use Rattle.model.specs.Sides.{owns};
ghost use Rattle.model.specs.Rules.{first_broken};
ghost use Rattle.limits.specs.Broken.{broken_by};
ghost use Rattle.values.specs.Found.{old_data_def};
ghost use Rattle.policy.specs.Descriptor.{stamp_of_def};
ghost use Rattle.decision.specs.Parts.{judged_of, stands, equal_by, kind_by, stamp_over_def, stamp_kept, leaves_by, classed_by, old_sums, OldCounts, sums_after, room_by, room_after_def, result_by, outcome_by, roomed_by};

use crate::{Change, NewValue, Sums};
use layout::fixed;
use model::{Layout, Rule, Terms};
use region::{Placed, walk};
use values::{list, lookup};

// Whether the value that stands is equal.
fn is_equal(region: &[u8], old: Option<Placed>, attributes: u32, proper: &[u8]) -> bool
    ensures { result ≡ equal_by region.now old attributes proper.now }
{
    match old {
        Some(Placed { at, entry }) => policy::equal(
            attributes,
            proper,
            entry.attributes,
            walk::data_of(Layout::AUTHENTICATED, region, at, entry),
        ),
        None => false,
    }
}

// What a set asks for, by its attributes and its data proper.
fn kind(region: &[u8], old: Option<Placed>, attributes: u32, proper: &[u8]) -> Change
    ensures { Ok result ≡ kind_by region.now old attributes proper.now }
{
    if policy::deletes(attributes, proper.len()) {
        return Change::Remove;
    }
    if policy::empty_append(attributes, proper.len()) {
        return Change::Nothing;
    }
    if is_equal(region, old, attributes, proper) {
        return Change::Nothing;
    }
    Change::Put
}

// "Append joins the data": those of what is there, where a set keeps them.
pub fn kept_data(region: &[u8], old: Option<Placed>, keeps: bool) -> &[u8]
    ensures { result.now ≡ cond keeps (old_data_def region.now old) [] }
{
    if keeps {
        return lookup::old_data(region, old);
    }
    &region[..0]
}

// The stamp given, over that of the value that is there: the later of the two.
fn stamp_over(region: &[u8], old: Option<Placed>, given: &[u8; 16]) -> [u8; 16]
    ensures { result ≡ stamp_over_def region.now old given.now }
{
    match old {
        Some(Placed { at, .. }) => {
            let own = policy::stamp_in(walk::stamp_of(region, at));
            policy::later_of(given, &own)
        }
        None => *given,
    }
}

// The stamp to store: of an append with 0x20 the later of the two, of any other set the one given.
fn kept_stamp(region: &[u8], old: Option<Placed>, attributes: u32, given: &[u8; 16]) -> [u8; 16]
    ensures { result ≡ stamp_kept region.now old attributes given.now }
{
    if policy::appends(attributes) && policy::time_based(attributes) {
        return stamp_over(region, old, given);
    }
    *given
}

// The value that a set asks for, by numbers.
pub fn value(region: &[u8], old: Option<Placed>, attributes: u32, bytes: &[u8]) -> NewValue
    ensures { (result.attributes ≡ without_append_def attributes)
        × (result.stamp ≡ stamp_kept region.now old attributes (stamp_of_def attributes bytes.now))
        × (result.keeps ≡ appends attributes)
        × (result.own ≡ cond (time_based_def attributes) (proper_at bytes.now) 0) }
{
    let given = policy::stamp(attributes, bytes);
    let stamp = kept_stamp(region, old, attributes, &given);
    NewValue {
        attributes: policy::without_append(attributes),
        stamp,
        keeps: policy::appends(attributes),
        own: policy::proper_from(attributes, bytes),
    }
}

// Whether a value would stand after a set.
fn leaves(old: Option<Placed>, attributes: u32, size: usize) -> bool
    ensures { result ≡ leaves_by old attributes size }
{
    if policy::deletes(attributes, size) {
        return false;
    }
    if policy::empty_append(attributes, size) {
        return old.is_some();
    }
    true
}

// Whether a set breaks one of the rules for its name. Without rules nothing is looked at.
pub fn forbids(
    limits: &[u8],
    rules: u32,
    old: Option<Placed>,
    name: &[u8],
    vendor: &[u8; 16],
    attributes: u32,
    kept: &[u8],
    proper: &[u8],
) -> bool
    ensures { result ≡ broken_by (limits_in limits.now rules (keyed name.now vendor.now))
        (leaves_by old attributes (length proper.now))
        (kept.now ++ proper.now) }
{
    if rules == 0 {
        return false;
    }
    limits::breaks(
        limits,
        rules,
        name,
        vendor,
        leaves(old, attributes, proper.len()),
        kept,
        proper,
    )
}

// The size of a value in its class: of an error record; else of the side's own values, or of the other side's.
fn classed(error: bool, own: bool, size: usize) -> Sums
    ensures { result ≡ classed_by error own size }
{
    if error {
        return Sums {
            records: size,
            ..Sums::default()
        };
    }
    if own {
        return Sums {
            own: size,
            ..Sums::default()
        };
    }
    Sums {
        others: size,
        ..Sums::default()
    }
}

// The size that the value that stands takes, by its class.
fn freed(region: &[u8], old: Option<Placed>, own: bool) -> Sums
    ensures { result ≡ old_sums region.now old own }
{
    match old {
        Some(Placed { at, entry }) => {
            let size = list::size_of(Layout::AUTHENTICATED, region, at, entry);
            classed(layout::is_error_record(entry.attributes), own, size)
        }
        None => Sums::default(),
    }
}

// The sums after a value of this class and size has come in the place of the old one.
fn after(t: Terms, region: &[u8], old: Option<Placed>, own: bool, error: bool, size: usize) -> Sums
    requires { (length region.now ≤ 28672) × (size < 2 ^ 63 + 2 ^ 12) × OldCounts t region.now old own }
    ensures { (result ≡ sums_after t region.now old own error size)
        × (result.records + result.own + result.others < 2 ^ 63 + 2 ^ 16) }
{
    let guid = t.vendor;
    let sums = list::tally(Layout::AUTHENTICATED, region, &guid, t.modem);
    let gone = freed(region, old, own);
    let new = classed(error, own, size);
    Sums {
        records: sums.records - gone.records + new.records,
        own: sums.own - gone.own + new.own,
        others: sums.others - gone.others + new.others,
    }
}

// Rules 18 and 13 on the sums after a set, in a region of so many bytes.
pub fn room(t: Terms, size: usize, error: bool, s: Sums) -> Result<(), Rule>
    requires { s.records + s.own + s.others < 2 ^ 63 + 2 ^ 16 }
    ensures { result ≡ judged_of (first_broken (room_by t size error s)) }
{
    let all = layout::REGION_HEADER + s.records + s.own + s.others;
    if error {
        if (t.records as usize) < s.records {
            return Err(Rule::RecordSpace);
        }
        if size < all {
            return Err(Rule::Room);
        }
        return Ok(());
    }
    if (t.share as usize) < s.own + t.reserve as usize {
        return Err(Rule::Room);
    }
    if size < all {
        return Err(Rule::Room);
    }
    Ok(())
}

// Rule 12 on data of this size.
fn put(size: usize) -> Result<Change, Rule>
    ensures { result ≡ result_by true (Ok Change.Put) size }
{
    if (layout::LARGEST_DATA as usize) < size {
        return Err(Rule::DataSize);
    }
    Ok(Change::Put)
}

// Rule 11: the value to delete is absent.
fn remove(old: Option<Placed>) -> Result<Change, Rule>
    ensures { result ≡ result_by (stands old) (Ok Change.Remove) 0 }
{
    if old.is_some() {
        return Ok(Change::Remove);
    }
    Err(Rule::Absent)
}

// What a set that breaks none of rules 3 to 10 comes to, by rules 11 and 12; `size` is that of the data that a value to put would have.
pub fn outcome(
    region: &[u8],
    old: Option<Placed>,
    attributes: u32,
    proper: &[u8],
    size: usize,
) -> Result<Change, Rule>
    ensures { result ≡ outcome_by region.now old attributes proper.now size }
{
    let what = kind(region, old, attributes, proper);
    match what {
        Change::Remove => remove(old),
        Change::Put => put(size),
        Change::Nothing => Ok(what),
    }
}

// Whether a value, no error record, with so many bytes of data fits behind the tail, and in the side's share even if all before the tail were the side's. Only the
// yes is proved: where this says no the sums may still leave room, since deleted entries and other values lie before the tail too.
fn fits_after_tail(
    t: Terms,
    region: &[u8],
    tail: usize,
    name: usize,
    attributes: u32,
    size: usize,
) -> bool
    requires { (name < 2 ^ 63) × (tail ≤ 28672) }
    ensures { result ≡ true → (record_bit attributes ≡ false)
        × (tail + rounded (header_size_def + name + size) + t.reserve ≤ region_header_size + t.share)
        × (tail + rounded (header_size_def + name + size) ≤ length region.now) }
{
    if layout::is_error_record(attributes) {
        return false;
    }
    if (layout::LARGEST_DATA as usize) < size {
        return false;
    }
    let taken = tail + layout::entry_size(Layout::AUTHENTICATED, name, size);
    if layout::REGION_HEADER + (t.share as usize) < taken + t.reserve as usize {
        return false;
    }
    taken <= region.len()
}

// What a set does, judged by room where a value with so many bytes of data is to be put: by the sums of all values. Only here is it asked whose the name is.
fn roomed_by_sums(
    what: Change,
    t: Terms,
    region: &[u8],
    old: Option<Placed>,
    name: &[u8],
    vendor: &[u8; 16],
    attributes: u32,
    size: usize,
) -> Result<Change, Rule>
    requires short_region { (length region.now ≤ 28672) × OldCounts t region.now old (owns t.vendor t.modem (keyed name.now vendor.now)) }
    requires small_put { what ≡ Change.Put → size ≤ 2048 }
    ensures { result ≡ roomed_by (Ok what) (first_broken (room_after_def t region.now old
        (owns t.vendor t.modem (keyed name.now vendor.now)) (record_bit attributes)
        (rounded (header_size_def + length name.now + size)))) }
{
    match what {
        Change::Put => {
            let guid = t.vendor;
            let own = fixed::is_own(&guid, t.modem, name, vendor);
            let error = layout::is_error_record(attributes);
            let sums = after(
                t,
                region,
                old,
                own,
                error,
                layout::entry_size(Layout::AUTHENTICATED, name.len(), size),
            );
            room(t, region.len(), error, sums)?;
            Ok(what)
        }
        Change::Remove => Ok(what),
        Change::Nothing => Ok(what),
    }
}

// The same. The sums, which walk over the region, are made only where the tail leaves too little: all values lie before the tail, so they take no more than its offset.
pub fn roomed(
    what: Change,
    t: Terms,
    region: &[u8],
    tail: usize,
    old: Option<Placed>,
    name: &[u8],
    vendor: &[u8; 16],
    attributes: u32,
    size: usize,
) -> Result<Change, Rule>
    requires short_region { (length region.now ≤ 28672) × OldCounts t region.now old (owns t.vendor t.modem (keyed name.now vendor.now)) }
    requires small_put { what ≡ Change.Put → size ≤ 2048 }
    requires right_tail { (tail ≡ tail_at region.now) × (tail ≤ length region.now) }
    ensures { result ≡ roomed_by (Ok what) (first_broken (room_after_def t region.now old
        (owns t.vendor t.modem (keyed name.now vendor.now)) (record_bit attributes)
        (rounded (header_size_def + length name.now + size)))) }
{
    if fits_after_tail(t, region, tail, name.len(), attributes, size) {
        return Ok(what);
    }
    roomed_by_sums(what, t, region, old, name, vendor, attributes, size)
}
