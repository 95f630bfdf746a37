// The plan of a profile that changes something: one compaction, with all its items folded in.
ghost use Rattle.std.specs.Prelude.{◌≡◌, ◌++◌, ◌^◌, ◌≤◌, ◌<◌, length};
ghost use Rattle.model.specs.Image.{region_header_def};
ghost use Rattle.model.specs.Region.{values_of};
ghost use Rattle.model.specs.Compact.{joined};
ghost use Rattle.model.specs.Beside.{changes_alone};
ghost use Rattle.output.specs.Text.{Wrote};
ghost use Rattle.compose.specs.Compose.{values_but};
ghost use Rattle.profile.specs.Reader.{request_in, requests_in};
ghost use Rattle.planner.specs.Asked.{FoldPlanned, stored_if, stored_by, Foldable};

use crate::compaction;
use model::Rule;
use plan::{Planned, Step};
use profile::{Setting, Settings};

// The entry of an item's value, if the item stores it.
fn put_item(out: &mut [u8], at: usize, file: &[u8], t: Setting, stores: bool) -> usize
    requires { (at < 2 ^ 62) × (length (joined (stored_if stores (request_in file.now t))) ≤ 28672) }
    ensures { Wrote (joined (stored_if stores (request_in file.now t))) at out.old out.new result }
{
    if stores {
        let stamp = [0; 16];
        let vendor = slices::cut(file, t.at, 16);
        let data = profile::data_of(file, t);
        return compose::put_entry(
            0x3F,
            out,
            at,
            t.attributes,
            &stamp,
            profile::name_of(file, t),
            vendor,
            &[],
            data,
        );
    }
    at
}

// Those of all items, in file order.
fn put_items(out: &mut [u8], at: usize, file: &[u8], p: Settings, stores: [bool; 8]) -> usize
    requires { (at ≤ 28672) × (p.count ≤ 8) × (length (joined (stored_by (requests_in file.now p) stores)) ≤ 28672) }
    ensures { Wrote (joined (stored_by (requests_in file.now p) stores)) at out.old out.new result }
{
    let list = p.list;
    let mut next = at;
    for i in 0..p.count {
        next = put_item(out, next, file, list[i], stores[i]);
    }
    next
}

// The front of the region after the items: its header and the values in flash order, the changed ones last in file order.
fn put_after(
    out: &mut [u8],
    region: &[u8],
    file: &[u8],
    p: Settings,
    leave: [usize; 8],
    stores: [bool; 8],
) -> usize
    requires { (length region.now ≤ 28672) × (p.count ≤ 8)
        × (length (region_header_def (length region.now) ++ joined (values_but leave region.now ++ stored_by (requests_in file.now p) stores)) ≤ 28672) }
    ensures { Wrote
        (region_header_def (length region.now) ++ joined (values_but leave region.now ++ stored_by (requests_in file.now p) stores)) 0
        out.old out.new result }
{
    let next = compose::put_values(out, region, &leave);
    put_items(out, next, file, p, stores)
}

// "The whole profile is one compaction", "rest FF". Which values the items leave behind, and which of them store one, the judging has found.
pub fn fold(
    image: &[u8],
    b: usize,
    used: usize,
    file: &[u8],
    p: Settings,
    leave: [usize; 8],
    stores: [bool; 8],
    content: &mut [u8],
) -> Result<Planned, Rule>
    requires { Foldable image.now b used (requests_in file.now p) leave stores × (p.count ≤ 8) × (length content.old ≡ 28672) }
    ensures { FoldPlanned image.now (changes_alone (requests_in file.now p) (values_of image.now)) content.new result }
{
    let n = put_after(
        content,
        slices::cut(image, 0, layout::BLOCK * b),
        file,
        p,
        leave,
        stores,
    );
    let plan = compaction::compact_front(content, n, Step::Nothing, Step::Nothing, b, used);
    Ok(Planned {
        plan,
        deciding: Some(5),
    })
}
