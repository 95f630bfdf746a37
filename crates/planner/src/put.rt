// The plan of a put: the value that a set asks for is stored in the tail, or with a compaction. What is to be stored is composed in the content.
ghost use Rattle.std.specs.Prelude.{◌≡◌, true, false, ◌++◌, ◌^◌, ◌≤◌, ◌<◌, length};
ghost use Rattle.model.specs.Name.{keyed};
ghost use Rattle.model.specs.Image.{region_header_def, region};
ghost use Rattle.model.specs.Region.{entries, standing, sound, values};
ghost use Rattle.model.specs.Change.{put, step};
ghost use Rattle.model.specs.Compact.{joined};
ghost use Rattle.model.specs.Set.{fits_tail};
ghost use Rattle.values.specs.Found.{found_of, else_found};
ghost use Rattle.output.specs.Text.{Wrote};
ghost use Rattle.planner.specs.Asked.{valued, Asked, PutPlanned};

use crate::{Standing, compaction, entries};
use image::Ready;
use model::{Layout, Rule};
use plan::{Planned, Step};
use values::{Places, lookup};

// The front of the region after the change: its header and the values in flash order, the changed one last.
fn put_after(
    out: &mut [u8],
    region: &[u8],
    places: Places,
    name: &[u8],
    vendor: &[u8],
    attributes: u32,
    stamp: &[u8; 16],
    old: &[u8],
    own: &[u8],
) -> usize
    requires { (sound region.now ≡ true)
        × (else_found places.added places.replacing ≡ found_of (standing (keyed name.now vendor.now) (entries region.now)))
        × (length region.now ≤ 28672)
        × (length name.now < 2 ^ 32)
        × (length (old.now ++ own.now) < 2 ^ 32)
        × (length vendor.now ≡ 16)
        × (length
        (region_header_def (length region.now) ++ joined
        (step (put (valued name.now vendor.now attributes stamp.now (old.now ++ own.now))) (values (entries region.now)))) ≤ 28672) }
    ensures { Wrote
        (region_header_def (length region.now) ++ joined
        (step (put (valued name.now vendor.now attributes stamp.now (old.now ++ own.now)))
        (values (entries region.now)))) 0 out.old out.new result
        × (length vendor.now ≡ 16) }
{
    let leave = compose::left_out(lookup::standing(places));
    let next = compose::put_values(out, region, &leave);
    compose::put_entry(0x3F, out, next, attributes, stamp, name, vendor, old, own)
}

// "Otherwise the region is compacted with the change folded in", "rest FF".
fn fold(
    image: &[u8],
    standing: Standing,
    name: &[u8],
    vendor: &[u8; 16],
    attributes: u32,
    stamp: &[u8; 16],
    old: &[u8],
    own: &[u8],
    content: &mut [u8],
) -> Result<Planned, Rule>
    requires { Asked image.now standing.ready.blocks standing.ready.tail standing.ready.used standing.places (valued name.now vendor.now attributes stamp.now (old.now ++ own.now))
        × (fits_tail (region image.now) (valued name.now vendor.now attributes stamp.now (old.now ++ own.now)) ≡ false)
        × (length content.old ≡ 28672) }
    ensures { PutPlanned image.now
        (valued name.now vendor.now attributes stamp.now (old.now ++ own.now)) content.new result }
{
    let Ready { blocks, used, .. } = standing.ready;
    let n = put_after(
        content,
        slices::cut(image, 0, layout::BLOCK * blocks),
        standing.places,
        name,
        vendor,
        attributes,
        stamp,
        old,
        own,
    );
    let plan = compaction::compact_front(content, n, Step::Nothing, Step::Nothing, blocks, used);
    Ok(Planned {
        plan,
        deciding: Some(5),
    })
}

// "In the tail": the entry is composed at the content's front, with FF in the place of its state.
fn in_tail(
    image: &[u8],
    standing: Standing,
    name: &[u8],
    vendor: &[u8; 16],
    attributes: u32,
    stamp: &[u8; 16],
    old: &[u8],
    own: &[u8],
    content: &mut [u8],
) -> Result<Planned, Rule>
    requires { Asked image.now standing.ready.blocks standing.ready.tail standing.ready.used standing.places (valued name.now vendor.now attributes stamp.now (old.now ++ own.now))
        × (fits_tail (region image.now) (valued name.now vendor.now attributes stamp.now (old.now ++ own.now)) ≡ true)
        × (length content.old ≡ 28672) }
    ensures { PutPlanned image.now
        (valued name.now vendor.now attributes stamp.now (old.now ++ own.now)) content.new result }
{
    compose::put_entry(0xFF, content, 0, attributes, stamp, name, vendor, old, own);
    let tail = standing.ready.tail;
    let plan = entries::tail_write(standing.places, tail, name.len(), old.len() + own.len());
    Ok(Planned {
        plan,
        deciding: Some(6),
    })
}

// The plan of a value that is put: "In the tail, if the rounded entry fits". Its data are those kept, then those given.
pub fn put_value(
    image: &[u8],
    standing: Standing,
    name: &[u8],
    vendor: &[u8; 16],
    attributes: u32,
    stamp: &[u8; 16],
    old: &[u8],
    own: &[u8],
    content: &mut [u8],
) -> Result<Planned, Rule>
    requires { Asked image.now standing.ready.blocks standing.ready.tail standing.ready.used standing.places (valued name.now vendor.now attributes stamp.now (old.now ++ own.now))
        × (length content.old ≡ 28672) }
    ensures { PutPlanned image.now
        (valued name.now vendor.now attributes stamp.now (old.now ++ own.now)) content.new result }
{
    let size = layout::entry_size(Layout::AUTHENTICATED, name.len(), old.len() + own.len());
    if standing.ready.tail + size <= layout::BLOCK * standing.ready.blocks {
        return in_tail(
            image, standing, name, vendor, attributes, stamp, old, own, content,
        );
    }
    fold(
        image, standing, name, vendor, attributes, stamp, old, own, content,
    )
}
