// Bytes of entries, and of a region that holds values, composed in a lent buffer. As in `output`, a function is given the place of its first byte and gives
// back the place behind its last one, and bytes past the buffer's end are counted and not stored.
#![tactic(auto)]

ghost use Rattle.std.specs.Prelude.{◌≡◌, ◌≢◌, ◌+◌, ◌-◌, ◌^◌, ◌<◌, ◌≤◌, [], ◌∷◌, ◌++◌, length, replicate, leb};
ghost use Rattle.model.specs.Lists.{bytes32};
ghost use Rattle.model.specs.Image.{region_header_def};
ghost use Rattle.model.specs.Entry.{header_size_def, rounded, entry_size_def, entry_bytes};
ghost use Rattle.model.specs.Walk.{entry_value_def};
ghost use Rattle.model.specs.Compact.{joined};
ghost use Rattle.region.specs.Walk.{entry_at};
ghost use Rattle.output.specs.Text.{Wrote};
ghost use Rattle.compose.specs.Compose.{before_stamp_def, behind_stamp_def, header_bytes_def, leaving, values_but, leave_of};

use model::Layout;
use region::{Placed, walk};
use values::list;

// A number as four bytes, little-endian.
pub fn bytes32(n: usize) -> [u8; 4]
    ensures { result ≡ bytes32 n }
{
    ((n % 0x1_0000_0000) as u32).to_le_bytes()
}

// A header up to its stamp: start id, state, zero, attributes, monotonic count 0.
fn before_stamp(state: u8, attributes: u32) -> [u8; 16]
    ensures { result ≡ before_stamp_def state attributes }
{
    let a = bytes32(attributes as usize);
    let count: u8 = 0;
    [
        0xAA, 0x55, state, 0, a[0], a[1], a[2], a[3], count, count, count, count, count, count,
        count, count,
    ]
}

// From behind the stamp up to the GUID: key index 0, name size, data size.
fn behind_stamp(name: usize, size: usize) -> [u8; 12]
    ensures { result ≡ behind_stamp_def name size }
{
    let n = bytes32(name);
    let d = bytes32(size);
    [0, 0, 0, 0, n[0], n[1], n[2], n[3], d[0], d[1], d[2], d[3]]
}

// An entry's header.
fn put_header(
    out: &mut [u8],
    at: usize,
    state: u8,
    attributes: u32,
    stamp: &[u8],
    name: usize,
    size: usize,
    vendor: &[u8],
) -> usize
    requires { (at < 2 ^ 62) × (length stamp.now < 2 ^ 32) × (length vendor.now < 2 ^ 32) }
    ensures { Wrote (header_bytes_def state attributes stamp.now name size vendor.now) at out.old out.new result
        × (result ≡ at + 28 + length stamp.now + length vendor.now) }
{
    let front = before_stamp(state, attributes);
    let next = output::put_bytes(out, at, &front);
    let next = output::put_bytes(out, next, stamp);
    let sizes = behind_stamp(name, size);
    let next = output::put_bytes(out, next, &sizes);
    output::put_bytes(out, next, vendor)
}

// The FF bytes between an entry of `size` bytes and the next multiple of 4.
pub fn put_padding(out: &mut [u8], at: usize, size: usize) -> usize
    requires { (at < 2 ^ 63) × (size < 2 ^ 62) }
    ensures { Wrote (replicate (rounded size - size) 0xFF) at out.old out.new result }
{
    output::put_fill(out, at, 0xFF, layout::rounded(size) - size)
}

// An entry in the state given, whole: header, name, data (those kept, then those given), padding.
pub fn put_entry(
    state: u8,
    out: &mut [u8],
    at: usize,
    attributes: u32,
    stamp: &[u8],
    name: &[u8],
    vendor: &[u8],
    old: &[u8],
    own: &[u8],
) -> usize
    requires { (at < 2 ^ 62) × (length stamp.now < 2 ^ 32) × (length name.now < 2 ^ 32) × (length vendor.now < 2 ^ 32)
        × (length old.now < 2 ^ 32) × (length own.now < 2 ^ 32) }
    ensures { Wrote
        (entry_bytes state
        (record {
          name = name.entry.now;
          vendor = vendor.now;
          attributes = attributes;
          stamp = stamp.now;
          bytes = old.now ++ own.now;
        })) at out.old out.new result }
{
    let next = put_header(
        out,
        at,
        state,
        attributes,
        stamp,
        name.len(),
        old.len() + own.len(),
        vendor,
    );
    let next = output::put_bytes(out, next, name);
    let next = output::put_bytes(out, next, old);
    let next = output::put_bytes(out, next, own);
    put_padding(
        out,
        next,
        Layout::HEADER + name.len() + old.len() + own.len(),
    )
}

// Whether so many bytes from a place on lie within a buffer of so many.
fn lies_within(size: usize, at: usize, len: usize) -> bool
    ensures { result ≡ leb (at + len) size }
{
    at <= size && len <= size - at
}

// Bytes that all have a place in the buffer.
fn put_within(out: &mut [u8], at: usize, src: &[u8])
    requires { at + length src.now ≤ length out.old }
    ensures { Wrote src.now at out.old out.new (at + length src.now) }
{
    out[at..at + src.len()].copy_from_slice(src);
}

// A value whose entry lies within the region, and within the buffer: one copy from its stamp on, in which key index and sizes are then written anew.
fn carry(out: &mut [u8], at: usize, region: &[u8], placed: Placed) -> usize
    requires { (at < 2 ^ 62) × (length region.now ≤ 28672)
        × (placed.at + (header_size_def + placed.entry.name + placed.entry.size) ≤ length region.now)
        × (at + (header_size_def + placed.entry.name + placed.entry.size) ≤ length out.old) × (placed.entry.state ≢ 0xFF) }
    ensures { Wrote (entry_bytes 0x3F (entry_value_def (entry_at region.now placed.at placed.entry))) at out.old out.new result }
{
    let Placed {
        at: place,
        entry: e,
    } = placed;
    let size = Layout::HEADER + e.name as usize + e.size as usize;
    let from = place + Layout::STAMP;
    let to = place + size;
    let front = before_stamp(0x3F, e.attributes);
    let sizes = behind_stamp(e.name as usize, e.size as usize);
    put_within(out, at, &front);
    put_within(out, at + Layout::STAMP, &region[from..to]);
    put_within(out, at + Layout::STAMP + 16, &sizes);
    put_padding(out, at + size, size)
}

// A value of whose entry the region, or the buffer, holds not all: field by field, and of name and data what there is.
fn put_cut(out: &mut [u8], at: usize, region: &[u8], placed: Placed) -> usize
    requires { (at < 2 ^ 62) × (length region.now ≤ 28672) }
    ensures { Wrote (entry_bytes 0x3F (entry_value_def (entry_at region.now placed.at placed.entry))) at out.old out.new result }
{
    let Placed {
        at: place,
        entry: e,
    } = placed;
    let stamp = walk::stamp_of(region, place);
    let name = walk::name_of(Layout::AUTHENTICATED, region, place, e);
    let vendor = walk::vendor_of(Layout::AUTHENTICATED, region, place);
    let data = walk::data_of(Layout::AUTHENTICATED, region, place, e);
    let none = &data[..0];
    put_entry(0x3F, out, at, e.attributes, stamp, name, vendor, data, none)
}

// The entry of a value that is carried over: its stamp is kept.
fn put_value(out: &mut [u8], at: usize, region: &[u8], placed: Placed) -> usize
    requires { (at < 2 ^ 62) × (length region.now ≤ 28672) }
    ensures { Wrote (entry_bytes 0x3F (entry_value_def (entry_at region.now placed.at placed.entry))) at out.old out.new result
        × (result ≤ at + entry_size_def (entry_value_def (entry_at region.now placed.at placed.entry))) }
{
    let e = placed.entry;
    let size = Layout::HEADER + e.name as usize + e.size as usize;
    if e.state != 0xFF
        && lies_within(region.len(), placed.at, size)
        && lies_within(out.len(), at, size)
    {
        return carry(out, at, region, placed);
    }
    put_cut(out, at, region, placed)
}

// A value carried over unless its entry is one to leave out.
fn put_other(out: &mut [u8], at: usize, region: &[u8], placed: Placed, leave: &[usize]) -> usize
    requires { (at < 2 ^ 62) × (length region.now ≤ 28672) }
    ensures { Wrote (joined (leaving leave.now (entry_at region.now placed.at placed.entry ∷ []))) at out.old out.new result
        × (result ≤ at + entry_size_def (entry_value_def (entry_at region.now placed.at placed.entry))) }
{
    if leave.contains(&placed.at) {
        return at;
    }
    put_value(out, at, region, placed)
}

// The values in flash order, but those to leave out.
fn put_others(out: &mut [u8], at: usize, region: &[u8], leave: &[usize]) -> usize
    requires { (at < 2 ^ 32) × (length region.now ≤ 28672) }
    ensures { Wrote (joined (values_but leave.now region.now)) at out.old out.new result }
{
    let mut next = at;
    for e in list::values(Layout::AUTHENTICATED, region) {
        next = put_other(out, next, region, e.placed(), leave);
    }
    next
}

// The offset of what is found, to be left out: 0 is the offset of no entry.
pub fn left_out(found: Option<Placed>) -> [usize; 8]
    ensures { result ≡ leave_of found }
{
    match found {
        Some(placed) => [placed.at, 0, 0, 0, 0, 0, 0, 0],
        None => [0; 8],
    }
}

// The front of a compacted region: its header, and the values but those whose entries are at one of some offsets.
pub fn put_values(out: &mut [u8], region: &[u8], leave: &[usize]) -> usize
    requires { length region.now ≤ 28672 }
    ensures { Wrote (region_header_def (length region.now) ++ joined (values_but leave.now region.now)) 0 out.old out.new result }
{
    let header = layout::fixed::region_header(Layout::AUTHENTICATED, region.len());
    let next = output::put_bytes(out, 0, &header);
    put_others(out, next, region, leave)
}

// FF bytes up to the end of what is composed.
pub fn put_blank(out: &mut [u8], at: usize, len: usize) -> usize
    requires { at + len ≤ length out.old }
    ensures { Wrote (replicate len 0xFF) at out.old out.new result }
{
    output::put_fill(out, at, 0xFF, len)
}
