// Room where PK and PlatMode change together, or PlatMode alone. Both are the side's own, and no error records.
ghost use Rattle.std.specs.Prelude.{◌≡◌, false, ◌+◌, ◌^◌, ◌≤◌, length};
ghost use Rattle.model.specs.Region.{entries, values};
ghost use Rattle.model.specs.Sides.{side_sizes};
ghost use Rattle.model.specs.Rules.{first_broken};
ghost use Rattle.decision.specs.Parts.{judged_of, room_by};
ghost use Rattle.decision.specs.Profile.{folded_sums};
ghost use Rattle.decision.specs.Joint.{taken_by};

use crate::{effect, items};
use model::{Layout, Rule, Terms};
use region::Placed;
use values::list;

// The rounded size of the entry that was found.
fn taken(region: &[u8], old: Option<Placed>) -> usize
    ensures { result ≡ taken_by region.now old }
{
    match old {
        Some(Placed { at, entry }) => list::size_of(Layout::AUTHENTICATED, region, at, entry),
        None => 0,
    }
}

// Rules 18 and 13 after changes that take out what was found of PK and of PlatMode, and put `comes` bytes.
pub(crate) fn room(
    t: Terms,
    region: &[u8],
    pk: Option<Placed>,
    mode: Option<Placed>,
    comes: usize,
) -> Result<(), Rule>
    requires { (length region.now ≤ 28672) × (comes ≤ 2 ^ 16)
        × (taken_by region.now pk + taken_by region.now mode ≤ side_sizes t.vendor t.modem (values (entries region.now)) + comes) }
    ensures { result ≡ judged_of (first_broken (room_by t (length region.now) false
        (folded_sums t region.now (taken_by region.now pk + taken_by region.now mode) comes))) }
{
    let gone = taken(region, pk) + taken(region, mode);
    let sums = items::after(t, region, gone, comes);
    effect::room(t, region.len(), false, sums)
}
