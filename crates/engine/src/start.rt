// Start-up: what an interrupted compaction left is finished, and what a stopped or cut call left behind is tidied up, so that calls find the image ready.
ghost use Rattle.std.specs.Prelude.{◌≡◌, not, length};
ghost use Rattle.model.specs.declared.Setup.{Setup};
ghost use Rattle.model.specs.Region.{entries, values};
ghost use Rattle.model.specs.StartUp.{start_up_plan};
ghost use Rattle.model.specs.Book as book;
ghost use Rattle.recovery.specs.Interface.{Returned};
ghost use Rattle.plan.specs.Planned.{Kept, Plans};
ghost use Rattle.values.specs.Allotted.{allotted_by};
ghost use Rattle.engine.specs.Shares.{GivesShares};

use image::Start;
use model::{Answer, Context, Rule, Tenant};
use plan::Planned;
use values::list;

// Rule 22 of a start-up, on what it finds: shares and H do not fit in the region, or its values do not keep to them.
fn is_side_broken(found: &[u8], share: u32, records: u32, tenant: Tenant) -> bool
    ensures { result ≡ not (allotted_by tenant.vendor share tenant.share records (length found.now) (values (entries found.now))) }
{
    let guid = tenant.vendor;
    !list::is_allotted(found, &guid, share, tenant.share, records)
}

// The plan of a start-up that is given these shares and this H: rules 1, 2 and 22, then "if pending, resume at the erase of the region. Then .." the rest. What waits in
// the spare is judged there.
pub fn plan_start_up(
    share: u32,
    records: u32,
    tenant: Tenant,
    image: &[u8],
    content: &mut [u8; layout::CONTENT],
) -> Result<Planned, Rule>
    ensures { (u : Setup) → GivesShares u share records tenant
        → Plans (start_up_plan u image.now) image.now content.old content.new result }
{
    match image::check_start(image)? {
        Start::Pending(b, looked) => {
            let size = layout::BLOCK * b;
            if is_side_broken(
                slices::cut(image, size + layout::BLOCK, size),
                share,
                records,
                tenant,
            ) {
                return Err(Rule::Side);
            }
            Ok(planner::startup::resume(image, b, looked, content))
        }
        Start::Sound(b, looked, clean) => {
            if is_side_broken(
                slices::cut(image, 0, layout::BLOCK * b),
                share,
                records,
                tenant,
            ) {
                return Err(Rule::Side);
            }
            Ok(planner::startup::tidy(image, b, looked, clean, content))
        }
    }
}

// A start-up, planned, then carried out up to n or to a store that fails. What it is given goes into the session, which its caller makes, also when it is refused or
// stopped.
pub fn start_up(
    c: Context,
    share: u32,
    records: u32,
    tenant: Tenant,
    image: &mut [u8],
    content: &mut [u8; layout::CONTENT],
) -> Answer
    ensures { (u : Setup) → GivesShares u share records tenant
        → Returned (book.start_up_def u) c image.old image.new result
        × Kept (start_up_plan u image.old) content.old content.new }
{
    let planned = plan_start_up(share, records, tenant, image, content);
    flash::carry_out(image, planned, content, c)
}
