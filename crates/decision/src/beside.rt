// PlatMode's change that goes with one of PK: "a PK that comes or goes also removes a byte that counts as absent, and one deleted in deployed the 3"; one that comes in audit
// mode brings the 3. With any other name nothing is looked up.
ghost use Rattle.std.specs.Prelude.{◌≡◌, ◌+◌, ◌≤◌, ◌^◌, length};
ghost use Rattle.model.specs.Name.{keyed};
ghost use Rattle.model.specs.Entry.{header_size_def, rounded};
ghost use Rattle.model.specs.Region.{entries, values};
ghost use Rattle.model.specs.Sides.{side_sizes};
ghost use Rattle.model.specs.Rules.{first_broken};
ghost use Rattle.decision.specs.Parts.{moves_by, beside_found, deploys_by, roomed_by};
ghost use Rattle.decision.specs.Joint.{taken_by, coming_by, joint_after};

use crate::modes::{AUDIT, ENTRY};
use crate::{Change, joint, rules};
use layout::fixed;
use model::{Layout, Rule, Terms};
use region::Placed;

// Whether a set takes out the value of its name, or puts one where none is.
fn moves(what: Change, old: Option<Placed>) -> bool
    ensures { result ≡ moves_by (Ok what) old }
{
    match what {
        Change::Remove => true,
        Change::Put => old.is_none(),
        Change::Nothing => false,
    }
}

// What is there of PlatMode that changes too, where it is PK that comes or goes.
pub fn found(
    what: Change,
    region: &[u8],
    old: Option<Placed>,
    name: &[u8],
    vendor: &[u8; 16],
) -> Option<Placed>
    ensures { result ≡ beside_found region.now (Ok what) old (keyed name.now vendor.now) }
{
    if moves(what, old) && fixed::is_pk(name, vendor) {
        return rules::platform(region);
    }
    None
}

// Whether a 3 comes in the place of what is there of PlatMode: PK comes in audit mode.
pub fn deploys(what: Change, region: &[u8], there: Option<Placed>) -> bool
    ensures { result ≡ deploys_by region.now (Ok what) there }
{
    match what {
        Change::Put => rules::stores(region, there, AUDIT),
        Change::Remove => false,
        Change::Nothing => false,
    }
}

// The rounded size of an entry, and of PlatMode's if a 3 comes.
fn coming(deploys: bool, name: usize, size: usize) -> usize
    requires { (name ≤ 128) × (size ≤ 2048) }
    ensures { (result ≡ coming_by deploys (rounded (header_size_def + name + size))) × (result ≤ 2 ^ 16) }
{
    let own = layout::entry_size(Layout::AUTHENTICATED, name, size);
    if deploys {
        return own + ENTRY;
    }
    own
}

// A set of PK, judged by room for both changes where a value with so many bytes of data is to be put. A delete needs none.
pub fn roomed(
    what: Change,
    t: Terms,
    region: &[u8],
    old: Option<Placed>,
    there: Option<Placed>,
    deploys: bool,
    name: usize,
    size: usize,
) -> Result<Change, Rule>
    requires short_region { length region.now ≤ 28672 }
    requires small_put { what ≡ Change.Put → (name ≤ 128) × (size ≤ 2048)
        × (taken_by region.now old + taken_by region.now there ≤ side_sizes t.vendor t.modem (values (entries region.now))) }
    ensures { result ≡ roomed_by (Ok what) (first_broken (joint_after t region.now old there (coming_by deploys (rounded (header_size_def + name + size))))) }
{
    match what {
        Change::Put => {
            joint::room(t, region, old, there, coming(deploys, name, size))?;
            Ok(what)
        }
        Change::Remove => Ok(what),
        Change::Nothing => Ok(what),
    }
}
