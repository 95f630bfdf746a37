// The reports that `varlist` and `plainlist` print, written into a lent buffer.
#![tactic(auto)]

ghost use Rattle.std.specs.Prelude.{◌≡◌, ◌+◌, ◌*◌, ◌%◌, ◌^◌, ◌<◌, ◌≤◌, ◌++◌, length};
ghost use Rattle.model.specs.Walk.{entry_value_def};
ghost use Rattle.model.specs.Region.{entries_in, values};
ghost use Rattle.region.specs.Stored.{entry_of};
ghost use Rattle.output.specs.Text.{Wrote};
ghost use Rattle.report.specs.Varlist.{field, summary_line, key_text, entry_line, value_line, value_lines, refused_line, list_text};

use image::Ready;
use model::Layout;
use region::walk::Stored;
use values::list;

// A word and a number behind it.
fn put_field(out: &mut [u8], at: usize, word: &[u8], n: u32) -> usize
    requires { at + length word.now < 2 ^ 61 }
    ensures { Wrote (field word.now n) at out.old out.new result × (result ≤ at + length word.now + 10) }
{
    let next = output::put_bytes(out, at, word);
    output::put_decimal(out, next, n)
}

// An image that a call refuses, by the number of the rule.
fn put_refused(out: &mut [u8], at: usize, rule: u32) -> usize
    requires { at < 2 ^ 60 }
    ensures { Wrote (refused_line rule) at out.old out.new result }
{
    let next = put_field(out, at, b"refused ", rule);
    output::put_byte(out, next, b'\n')
}

// The first line: region length, tail offset, number of values.
fn put_summary(out: &mut [u8], at: usize, size: u32, used: u32, live: u32) -> usize
    requires { at < 2 ^ 60 }
    ensures { Wrote (summary_line size used live) at out.old out.new result × (result ≤ at + 50) }
{
    let next = put_field(out, at, b"region ", size);
    let next = put_field(out, next, b" used ", used);
    let next = put_field(out, next, b" live ", live);
    output::put_byte(out, next, b'\n')
}

// GUID and name bytes, a space behind each.
fn put_key(out: &mut [u8], at: usize, vendor: &[u8], name: &[u8]) -> usize
    requires { at + 2 * length vendor.now + 2 * length name.now < 2 ^ 60 }
    ensures { Wrote (key_text vendor.now name.now) at out.old out.new result
        × (result ≡ at + 2 * length vendor.now + 2 * length name.now + 2) }
{
    let next = output::put_hex(out, at, vendor);
    let next = output::put_byte(out, next, b' ');
    let next = output::put_hex(out, next, name);
    output::put_byte(out, next, b' ')
}

// The line of a value: GUID, name bytes, attributes, which are below 256 where they are stored, data size.
fn put_value(
    out: &mut [u8],
    at: usize,
    vendor: &[u8],
    name: &[u8],
    attributes: u32,
    size: u32,
) -> usize
    requires { at + 2 * length vendor.now + 2 * length name.now < 2 ^ 60 }
    ensures { Wrote (entry_line vendor.now name.now attributes size) at out.old out.new result
        × (result ≤ at + 2 * length vendor.now + 2 * length name.now + 16) }
{
    let next = put_key(out, at, vendor, name);
    let next = output::put_hex_byte(out, next, (attributes % 256) as u8);
    let next = put_field(out, next, b" ", size);
    output::put_byte(out, next, b'\n')
}

// The line of the value that an entry holds.
fn put_entry(out: &mut [u8], at: usize, e: &Stored) -> usize
    requires { at < 2 ^ 40 }
    ensures { Wrote (value_line (entry_value_def (entry_of e.now))) at out.old out.new result
        × (result ≤ at + 48 + 2 * length (entry_of e.now).name) }
{
    let attributes = e.entry.attributes;
    put_value(
        out,
        at,
        e.vendor(),
        e.name(),
        attributes,
        e.data().len() as u32,
    )
}

// A line for each value in flash order.
fn put_lines(y: Layout, region: &[u8], out: &mut [u8], at: usize) -> usize
    requires { (at < 2 ^ 32) × (length region.now ≤ 28672) }
    ensures { Wrote (value_lines (values (entries_in y region.now))) at out.old out.new result }
{
    let mut next = at;
    for e in list::values(y, region) {
        next = put_entry(out, next, &e);
    }
    next
}

// The report on an accepted store: the summary, then the values. Whose they are does not matter.
fn put_store(y: Layout, region: &[u8], tail: usize, out: &mut [u8]) -> usize
    requires { (tail ≤ 28672) × (length region.now ≤ 28672) }
    ensures { Wrote
        (summary_line (length region.now) tail (length (values (entries_in y region.now))) ++ value_lines
        (values (entries_in y region.now))) 0 out.old out.new result }
{
    let any = [0u8; 16];
    let t = list::tally(y, region, &any, false);
    let next = put_summary(out, 0, region.len() as u32, tail as u32, t.number as u32);
    put_lines(y, region, out, next)
}

// What is printed of an image in a stored form, checked in it as a call checks: `plainlist` prints this of the plain form.
pub fn report(y: Layout, image: &[u8], out: &mut [u8]) -> usize
    ensures { Wrote (list_text y image.now) 0 out.old out.new result }
{
    match image::check_call(y, image) {
        Ok(Ready { blocks, tail, .. }) => {
            put_store(y, slices::cut(image, 0, layout::BLOCK * blocks), tail, out)
        }
        Err(rule) => put_refused(out, 0, u32::from(rule)),
    }
}
