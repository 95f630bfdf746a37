// The plan of a change of PK and one of PlatMode together: one compaction, with both folded in.
ghost use Rattle.std.specs.Prelude.{◌≡◌, ◌++◌, ◌^◌, ◌≤◌, ◌<◌, length};
ghost use Rattle.model.specs.Image.{region_header_def};
ghost use Rattle.model.specs.Compact.{joined};
ghost use Rattle.output.specs.Text.{Wrote};
ghost use Rattle.compose.specs.Compose.{values_but};
ghost use Rattle.planner.specs.Asked.{valued, joint_changes, stored_pk, stored_mode, Joinable, FoldPlanned};

use crate::compaction;
use layout::fixed;
use model::Rule;
use plan::{Planned, Step};

// The entry of PK's value, if it comes.
fn put_pk(
    out: &mut [u8],
    at: usize,
    comes: bool,
    name: &[u8],
    vendor: &[u8; 16],
    attributes: u32,
    stamp: &[u8; 16],
    old: &[u8],
    own: &[u8],
) -> usize
    requires { (at ≤ 28672)
        × (length (joined (stored_pk comes (valued name.now vendor.now attributes stamp.now (old.now ++ own.now)))) ≤ 28672) }
    ensures { Wrote (joined (stored_pk comes (valued name.now vendor.now attributes stamp.now (old.now ++ own.now)))) at
        out.old out.new result }
{
    if comes {
        return compose::put_entry(0x3F, out, at, attributes, stamp, name, vendor, old, own);
    }
    at
}

// The entry of PlatMode's value, if it comes.
fn put_mode(out: &mut [u8], at: usize, byte: u8) -> usize
    requires { at < 2 ^ 62 }
    ensures { Wrote (joined (stored_mode byte)) at out.old out.new result }
{
    if byte == 0 {
        return at;
    }
    let stamp = [0; 16];
    let name = fixed::mode_name();
    let vendor = fixed::global_vendor();
    let data = [byte];
    compose::put_entry(0x3F, out, at, 0x07, &stamp, &name, &vendor, &[], &data)
}

// The front of the region after both: its header and the values in flash order; PK's, and PlatMode's last.
fn put_after(
    out: &mut [u8],
    region: &[u8],
    leave: &[usize],
    comes: bool,
    name: &[u8],
    vendor: &[u8; 16],
    attributes: u32,
    stamp: &[u8; 16],
    old: &[u8],
    own: &[u8],
    byte: u8,
) -> usize
    requires { (length region.now ≤ 28672)
        × (length
        (region_header_def (length region.now) ++ joined
        (values_but leave.now region.now ++ (stored_pk comes (valued name.now vendor.now attributes stamp.now (old.now ++ own.now)) ++ stored_mode byte))) ≤ 28672) }
    ensures { Wrote
        (region_header_def (length region.now) ++ joined
        (values_but leave.now region.now
        ++ (stored_pk comes (valued name.now vendor.now attributes stamp.now (old.now ++ own.now))
        ++ stored_mode byte))) 0
        out.old out.new result }
{
    let next = compose::put_values(out, region, leave);
    let last = put_pk(out, next, comes, name, vendor, attributes, stamp, old, own);
    put_mode(out, last, byte)
}

// "where mode and PK change together it is one compaction", "rest FF". The entries at two offsets are left out, that of PK's value and that of PlatMode's; 0 is the offset of none.
pub fn fold(
    image: &[u8],
    b: usize,
    used: usize,
    pk: Option<usize>,
    mode: Option<usize>,
    comes: bool,
    name: &[u8],
    vendor: &[u8; 16],
    attributes: u32,
    stamp: &[u8; 16],
    old: &[u8],
    own: &[u8],
    byte: u8,
    content: &mut [u8],
) -> Result<Planned, Rule>
    requires { Joinable image.now b used pk mode comes (valued name.now vendor.now attributes stamp.now (old.now ++ own.now)) byte
        × (length content.old ≡ 28672) }
    ensures { FoldPlanned image.now
        (joint_changes comes (valued name.now vendor.now attributes stamp.now (old.now ++ own.now)) byte)
        content.new result }
{
    let n = put_after(
        content,
        slices::cut(image, 0, layout::BLOCK * b),
        &[pk.unwrap_or(0), mode.unwrap_or(0)],
        comes,
        name,
        vendor,
        attributes,
        stamp,
        old,
        own,
        byte,
    );
    let plan = compaction::compact_front(content, n, Step::Nothing, Step::Nothing, b, used);
    Ok(Planned {
        plan,
        deciding: Some(5),
    })
}
