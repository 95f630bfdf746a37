// Entries with the zero stamp, and a region that holds values, composed in any form. As in `output`, a function is given the place of its first byte and gives
// back the place behind its last one, and bytes past the buffer's end are counted and not stored.
ghost use Rattle.std.specs.Prelude.{◌≡◌, ◌+◌, ◌*◌, ◌-◌, ◌^◌, ◌<◌, ◌≤◌, ◌++◌, map, length, replicate};
ghost use Rattle.model.specs.Entry.{entry_bytes_in};
ghost use Rattle.model.specs.Walk.{entry_value_def};
ghost use Rattle.model.specs.Region.{entries_in, values};
ghost use Rattle.model.specs.Compact.{joined_in};
ghost use Rattle.model.specs.Move.{unstamped};
ghost use Rattle.region.specs.Stored.{entry_of};
ghost use Rattle.output.specs.Text.{Wrote};
ghost use Rattle.convert.specs.Bare.{bare_front, bare_sizes, bare_header, bare, content_in};

use model::Layout;
use region::walk::Stored;
use values::list;

// Start id, state 3F, zero, attributes.
fn front(attributes: u32) -> [u8; 8]
    ensures { result ≡ bare_front attributes }
{
    let a = compose::bytes32(attributes as usize);
    [0xAA, 0x55, 0x3F, 0, a[0], a[1], a[2], a[3]]
}

// Name size, data size.
fn sizes(name: usize, size: usize) -> [u8; 8]
    ensures { result ≡ bare_sizes name size }
{
    let n = compose::bytes32(name);
    let d = compose::bytes32(size);
    [n[0], n[1], n[2], n[3], d[0], d[1], d[2], d[3]]
}

// An entry's header.
fn put_header(
    y: Layout,
    out: &mut [u8],
    at: usize,
    attributes: u32,
    name: usize,
    size: usize,
    vendor: &[u8],
) -> usize
    requires { (at < 2 ^ 62) × (length vendor.now < 2 ^ 32) }
    ensures { Wrote (bare_header y attributes name size vendor.now) at out.old out.new result
        × (result ≡ at + 16 + 4 * y.words + length vendor.now) }
{
    let front = front(attributes);
    let next = output::put_bytes(out, at, &front);
    let next = output::put_fill(out, next, 0, 4 * y.words as usize);
    let sizes = sizes(name, size);
    let next = output::put_bytes(out, next, &sizes);
    output::put_bytes(out, next, vendor)
}

// An entry, whole: header, name, data, padding.
fn put_entry(
    y: Layout,
    out: &mut [u8],
    at: usize,
    attributes: u32,
    name: &[u8],
    vendor: &[u8],
    bytes: &[u8],
) -> usize
    requires { (at < 2 ^ 62) × (length name.now < 2 ^ 32) × (length vendor.now < 2 ^ 32) × (length bytes.now < 2 ^ 32) }
    ensures { Wrote (entry_bytes_in y 0x3F (bare attributes name.now vendor.now bytes.now)) at
        out.old out.new result }
{
    let next = put_header(y, out, at, attributes, name.len(), bytes.len(), vendor);
    let next = output::put_bytes(out, next, name);
    let next = output::put_bytes(out, next, bytes);
    compose::put_padding(out, next, y.header() + name.len() + bytes.len())
}

// The entry of a value that is moved.
fn put_value(to: Layout, out: &mut [u8], at: usize, e: &Stored) -> usize
    requires { at < 2 ^ 62 }
    ensures { Wrote (entry_bytes_in to 0x3F (unstamped (entry_value_def (entry_of e.now)))) at out.old out.new result
        × (result ≤ at + 34359738368) }
{
    let attributes = e.entry.attributes;
    put_entry(to, out, at, attributes, e.name(), e.vendor(), e.data())
}

// The values in flash order.
fn put_values(from: Layout, to: Layout, out: &mut [u8], at: usize, region: &[u8]) -> usize
    requires { (at < 2 ^ 32) × (length region.now ≤ 28672) }
    ensures { Wrote (joined_in to (map unstamped (values (entries_in from region.now)))) at out.old out.new result }
{
    let mut next = at;
    for e in list::values(from, region) {
        next = put_value(to, out, next, &e);
    }
    next
}

// The front of a region of `size` bytes: its header, and the values.
pub(crate) fn put_region(
    from: Layout,
    to: Layout,
    out: &mut [u8],
    size: usize,
    region: &[u8],
) -> usize
    requires { length region.now ≤ 28672 }
    ensures { Wrote (content_in to size (map unstamped (values (entries_in from region.now)))) 0 out.old out.new result }
{
    let header = layout::fixed::region_header(to, size);
    let next = output::put_bytes(out, 0, &header);
    put_values(from, to, out, next, region)
}

// The same, and FF up to the end.
pub(crate) fn put_image(from: Layout, to: Layout, out: &mut [u8], size: usize, region: &[u8])
    requires { (length region.now ≤ 28672) × (length (content_in to size (map unstamped (values (entries_in from region.now)))) ≤ length out.old) }
    ensures { out.new ≡ content_in to size (map unstamped (values (entries_in from region.now)))
        ++ replicate (length out.old - length (content_in to size (map unstamped (values (entries_in from region.now))))) 0xFF }
{
    let next = put_region(from, to, out, size, region);
    let rest = out.len() - next;
    output::put_fill(out, next, 0xFF, rest);
}
