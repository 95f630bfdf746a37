// The calls that read: get and next-name. They make no stores, so n never stops them, and they write the front of the buffer and no more. What they ensure holds of every
// session that says what they are given.
ghost use Rattle.std.specs.Prelude.{◌≡◌, Bool, true, ◌||◌, ◌++◌, ◌≤◌, length};
ghost use Rattle.std.proofs.lemmas.List.Edits.{sets};
ghost use Rattle.model.specs.Layout.{authenticated};
ghost use Rattle.model.specs.Lists.{same, overlay};
ghost use Rattle.model.specs.Name.{keyed, well_named, empty_name};
ghost use Rattle.model.specs.Region.{entries, values};
ghost use Rattle.model.specs.declared.Session.{Session};
ghost use Rattle.model.specs.Rules.{view_of, rule22, rule22_next, got_bytes, named_bytes, value_to_get, value_to_name};
ghost use Rattle.model.specs.Answers.{get_reply, next_reply};
ghost use Rattle.model.specs.Beside.{Gives};
ghost use Rattle.model.specs.Book as book;
ghost use Rattle.recovery.specs.Interface.{Returned};
ghost use Rattle.region.specs.Met.{met_of};
ghost use Rattle.image.specs.Check.{checked_in};
ghost use Rattle.engine.specs.Read.{Opened, refused_got, Answered, short_of, reply_to, found_broken, found_reply, next_broken_at, next_reply_at};

use image::Checked;
use layout::fixed;
use model::{Answer, Context, Got, Layout, Named, Rule, View};
use region::{Met, Placed, walk};

// Bytes copied to the front of a buffer.
pub(crate) fn deliver(buffer: &mut [u8], bytes: &[u8])
    requires { length bytes.now ≤ length buffer.old }
    ensures { buffer.new ≡ overlay 0 bytes.now buffer.old }
{
    buffer[..bytes.len()].copy_from_slice(bytes);
}

// Refused: nothing is written.
pub(crate) fn refused(rule: Rule, needed: u32) -> Got
    ensures { result ≡ refused_got rule needed }
{
    Got {
        answer: Answer::Refused(rule),
        size: 0,
        attributes: 0,
        needed,
    }
}

// Whether a name is the other side's: rule 22.
pub(crate) fn is_foreign(view: View, name: &[u8], vendor: &[u8; 16]) -> bool
    ensures { result ≡ rule22 view.vendor view.modem (keyed name.now vendor.now) }
{
    let guid = view.vendor;
    !fixed::is_own(&guid, view.modem, name, vendor)
}

// A GUID and behind it a name, at the front of a key.
fn join(key: &mut [u8; 144], name: &[u8], vendor: &[u8; 16])
    requires { length name.now ≤ 128 }
    ensures { key.new ≡ sets key.old 0 (vendor.now ++ name.now) }
{
    let next = output::put_bytes(key, 0, vendor);
    output::put_bytes(key, next, name);
}

// Rules 1 and 2, and where the region has a name.
fn check_name(image: &[u8], name: &[u8], vendor: &[u8; 16]) -> Result<Checked, Rule>
    requires { length name.now ≤ 128 }
    ensures { result ≡ checked_in authenticated image.now (vendor.now ++ name.now) }
{
    let mut key = [0; 144];
    join(&mut key, name, vendor);
    image::check_for(
        Layout::AUTHENTICATED,
        image,
        slices::cut(&key, 0, 16 + name.len()),
    )
}

// Rules 1, 2, 3 and 22, the last two as the name was found: what they leave to a call, and where the region has the name; or the first of them broken.
fn open(
    image: &[u8],
    named: bool,
    foreign: bool,
    name: &[u8],
    vendor: &[u8; 16],
) -> Result<Checked, Rule>
    requires { named ≡ true → length name.now ≤ 128 }
    ensures { Opened image.now named foreign (keyed name.now vendor.now) result }
{
    if !named {
        image::check_call(Layout::AUTHENTICATED, image)?;
        return Err(Rule::Name);
    }
    let checked = check_name(image, name, vendor)?;
    if foreign {
        return Err(Rule::Side);
    }
    Ok(checked)
}

// Data handed out, if the buffer holds them.
fn give(bytes: &[u8], attributes: u32, buffer: &mut [u8]) -> Got
    requires { length bytes.now ≤ 28672 }
    ensures { Answered
        (short_of bytes.now buffer.old)
        (reply_to bytes.now attributes buffer.old)
        result buffer.new }
{
    let size = bytes.len() as u32;
    if buffer.len() < bytes.len() {
        return refused(Rule::Buffer, size);
    }
    deliver(buffer, bytes);
    Got {
        answer: Answer::Done(0),
        size,
        attributes,
        needed: 0,
    }
}

// The GUID and behind it the name handed out, if the buffer holds them.
fn give_name(vendor: &[u8], name: &[u8], buffer: &mut [u8]) -> Got
    requires { (length vendor.now ≤ 28672) × (length name.now ≤ 28672) }
    ensures { Answered
        (short_of (vendor.now ++ name.now) buffer.old)
        (reply_to (vendor.now ++ name.now) 0 buffer.old)
        result buffer.new }
{
    let front = vendor.len();
    let whole = (front + name.len()) as u32;
    if buffer.len() < front + name.len() {
        return refused(Rule::Buffer, whole);
    }
    deliver(buffer, vendor);
    deliver(&mut buffer[front..], name);
    Got {
        answer: Answer::Done(0),
        size: whole,
        attributes: 0,
        needed: 0,
    }
}

// Rules 11 and 14 of a get, from a region.
pub(crate) fn get_from(
    region: &[u8],
    runtime: bool,
    name: &[u8],
    vendor: &[u8; 16],
    met: Met,
    buffer: &mut [u8],
) -> Got
    requires { (length region.now ≤ 28672) × (met ≡ met_of (keyed name.now vendor.now) (entries region.now)) }
    ensures { Answered
        (found_broken
        (value_to_get runtime (keyed name.now vendor.now) (values (entries region.now)))
        got_bytes buffer.old)
        (found_reply
        (value_to_get runtime (keyed name.now vendor.now) (values (entries region.now)))
        got_bytes (λ v. v.attributes) buffer.old)
        result buffer.new }
{
    let found = query::to_get(region, runtime, name, vendor, met);
    let Some(Placed { at, entry }) = found else {
        return refused(Rule::Absent, 0);
    };
    give(
        walk::data_of(Layout::AUTHENTICATED, region, at, entry),
        entry.attributes,
        buffer,
    )
}

// Rules 11 and 14 of a next-name, from a region.
fn name_from(
    region: &[u8],
    view: View,
    name: &[u8],
    vendor: &[u8; 16],
    met: Met,
    buffer: &mut [u8],
) -> Got
    requires { (length region.now ≤ 28672) × (met ≡ met_of (keyed name.now vendor.now) (entries region.now)) }
    ensures { Answered
        (found_broken
        (value_to_name view.vendor view.modem view.runtime (keyed name.now vendor.now) (values (entries region.now)))
        named_bytes buffer.old)
        (found_reply
        (value_to_name view.vendor view.modem view.runtime (keyed name.now vendor.now) (values (entries region.now)))
        named_bytes (λ v. 0) buffer.old)
        result buffer.new }
{
    let guid = view.vendor;
    let found = query::to_name(region, view.runtime, &guid, view.modem, name, vendor, met);
    let Some(Placed { at, entry }) = found else {
        return refused(Rule::Absent, 0);
    };
    give_name(
        walk::vendor_of(Layout::AUTHENTICATED, region, at),
        walk::name_of(Layout::AUTHENTICATED, region, at, entry),
        buffer,
    )
}

// A get: the data of the value of a name and GUID. Rules 1, 2, 3, 22, 11 and 14.
pub fn get(
    c: Context,
    view: View,
    image: &[u8],
    name: &[u8],
    vendor: &[u8; 16],
    buffer: &mut [u8],
) -> Got
    ensures { (m : Bool) (s : Session) → view_of m s ≡ view
        → Returned
        (book.get m s (keyed name.now vendor.now) buffer.old)
        c image.now image.now result.answer
        × Gives
        (get_reply m s (keyed name.now vendor.now) buffer.old image.now)
        result.size result.attributes result.needed buffer.new }
{
    let opened = open(
        image,
        slices::is_named(name),
        is_foreign(view, name, vendor),
        name,
        vendor,
    );
    match opened {
        Ok(Checked { ready, met }) => get_from(
            slices::cut(image, 0, layout::BLOCK * ready.blocks),
            view.runtime,
            name,
            vendor,
            met,
            buffer,
        ),
        Err(rule) => refused(rule, 0),
    }
}

// Whether next-name takes a name: a well-formed one, or the empty one to begin.
fn is_next_named(name: &[u8]) -> bool
    ensures { result ≡ (well_named name.now || same name.now empty_name) }
{
    slices::is_named(name) || query::is_empty_name(name)
}

// Whether a name from which next-name goes on is the other side's; the empty one is no side's.
fn is_next_foreign(view: View, name: &[u8], vendor: &[u8; 16]) -> bool
    ensures { result ≡ rule22_next view.vendor view.modem (keyed name.now vendor.now) }
{
    !query::is_empty_name(name) && is_foreign(view, name, vendor)
}

// What next-name answers, by what its session says to it.
fn name_behind(view: View, image: &[u8], name: &[u8], vendor: &[u8; 16], buffer: &mut [u8]) -> Got
    ensures { Answered
        (next_broken_at view (keyed name.now vendor.now) buffer.old image.now)
        (next_reply_at view (keyed name.now vendor.now) buffer.old image.now)
        result buffer.new }
{
    let opened = open(
        image,
        is_next_named(name),
        is_next_foreign(view, name, vendor),
        name,
        vendor,
    );
    match opened {
        Ok(Checked { ready, met }) => name_from(
            slices::cut(image, 0, layout::BLOCK * ready.blocks),
            view,
            name,
            vendor,
            met,
            buffer,
        ),
        Err(rule) => refused(rule, 0),
    }
}

// A next-name: the GUID and name of the value behind a name and GUID. Rules 1, 2, 3, 22, 11 and 14.
pub fn next_name(
    c: Context,
    view: View,
    image: &[u8],
    name: &[u8],
    vendor: &[u8; 16],
    buffer: &mut [u8],
) -> Named
    ensures { (m : Bool) (s : Session) → view_of m s ≡ view
        → Returned
        (book.next m s (keyed name.now vendor.now) buffer.old)
        c image.now image.now result.answer
        × Gives
        (next_reply m s (keyed name.now vendor.now) buffer.old image.now)
        result.size 0 result.needed buffer.new }
{
    let Got {
        answer,
        size,
        needed,
        ..
    } = name_behind(view, image, name, vendor, buffer);
    Named {
        answer,
        size,
        needed,
    }
}
