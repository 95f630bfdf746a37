// The plan of a format, of an image of a right length: "Formatting meets 1 only".
ghost use Rattle.std.specs.Prelude.{◌≡◌, Some, Ok, ◌≤◌, length};
ghost use Rattle.model.specs.StartUp.{format_plan};
ghost use Rattle.image.specs.Check.{blocks_of};
ghost use Rattle.plan.specs.Planned.{Plans};
ghost use Rattle.planner.specs.Format.{wipe_plan};

use model::Layout;
use plan::{Plan, Planned, Step};

// "it erases all blocks in rising order, then stores the 28 header bytes in rising order"
fn wipe(b: usize) -> Plan
    requires { b ≤ 7 }
    ensures { result ≡ wipe_plan b }
{
    crate::begun(
        Step::Erase(0, 2 * b + 1),
        Step::Program(0, 0, layout::REGION_HEADER),
    )
}

// The header is composed in the content, and stored from there.
pub fn plan(image: &[u8], b: usize, content: &mut [u8]) -> Planned
    requires { (blocks_of image.now ≡ Some b) × (1 ≤ b) × (b ≤ 7) × (length content.old ≡ 28672) }
    ensures { Plans (format_plan image.now) image.now content.old content.new (Ok result) }
{
    let header = layout::fixed::region_header(Layout::AUTHENTICATED, layout::BLOCK * b);
    output::put_bytes(content, 0, &header);
    let plan = wipe(b);
    Planned {
        plan,
        deciding: None,
    }
}
