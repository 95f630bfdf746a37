// The plans of the calls that store: of a set (`entries`, `put`), a profile, a joint change of PK and PlatMode, a start-up, a format. A planner has the image shared and no n; what is to be stored it composes
// in the content, and its operations are an array in the order in which document 01 has their stores.
#![tactic(auto)]

ghost use Rattle.std.specs.Prelude.{◌≡◌};
ghost use Rattle.planner.specs.Fronts.{begun_plan};

use image::Ready;
use plan::{Plan, Step};
use values::Places;

pub mod compaction;
pub mod entries;
pub mod format;
pub mod items;
pub mod joint;
pub mod put;
pub mod startup;

// What stands in an image that is ready, and where the entries of the name are.
#[derive(Clone, Copy)]
pub struct Standing {
    pub ready: Ready,
    pub places: Places,
}

// A plan that begins with two operations; who has more puts them after these.
pub(crate) fn begun(first: Step, second: Step) -> Plan
    ensures { result ≡ begun_plan first second }
{
    let mut plan = plan::nothing();
    plan[0] = first;
    plan[1] = second;
    plan
}
