// The call that makes all changes of a profile as one: planned from the image lent shared, and then carried out up to n. Of a session it is given what that says to
// every item: there is one that says so, and what the call ensures holds of each.
ghost use Rattle.std.specs.Prelude.{◌≡◌, Bool, false, Some, length};
ghost use Rattle.model.specs.declared.Session.{Session};
ghost use Rattle.model.specs.Profile.{shares_name_def};
ghost use Rattle.model.specs.Stores.{Bytes};
ghost use Rattle.model.specs.Book as book;
ghost use Rattle.model.specs.Book.{profile_plan};
ghost use Rattle.recovery.specs.Interface.{Returned};
ghost use Rattle.profile.specs.Reader.{requests_in, Reads};
ghost use Rattle.image.specs.Check.{IsReady};
ghost use Rattle.plan.specs.Planned.{Kept, Plans};
ghost use Rattle.engine.specs.Profile.{SaysAll};

use decision::{Change, Weighed};
use image::Ready;
use model::{Answer, Context, Layout, Rule, Terms};
use plan::Planned;
use profile::Settings;
use session::Locks;

// The items of a profile over an image that is ready: their rules, and 13 over all of them; then one compaction, or no stores if nothing differs.
fn plan_items(
    said: Terms,
    held: Locks,
    locks: &[u8],
    limits: &[u8],
    image: &[u8],
    ready: Ready,
    file: &[u8],
    settings: Settings,
    content: &mut [u8],
) -> Result<Planned, Rule>
    requires ready { IsReady image.now ready.blocks ready.tail ready.used }
    requires bytes { Bytes image.now × Bytes file.now }
    requires room { length content.old ≡ 28672 }
    requires says { (m : Bool) × (s : Session) × SaysAll m s said held locks.now limits.now }
    requires reads { Reads file.now (Some settings) }
    requires apart { shares_name_def (requests_in file.now settings) ≡ false }
    ensures { (m : Bool) (s : Session) → SaysAll m s said held locks.now limits.now
        → Plans (profile_plan m s file.now image.now) image.now content.old content.new result }
{
    let region = slices::cut(image, 0, layout::BLOCK * ready.blocks);
    let Weighed {
        what,
        leave,
        stores,
    } = decision::items::weigh(said, held, locks, limits, region, file, settings);
    match what? {
        Change::Nothing | Change::Remove => return plan::accept(plan::nothing(), None),
        Change::Put => {
            return planner::items::fold(
                image,
                ready.blocks,
                ready.used,
                file,
                settings,
                leave,
                stores,
                content,
            );
        }
    }
}

// A profile over an image that is ready: rules 25 and 26 on its file, then its items.
fn plan_file(
    said: Terms,
    held: Locks,
    locks: &[u8],
    limits: &[u8],
    image: &[u8],
    ready: Ready,
    file: &[u8],
    content: &mut [u8],
) -> Result<Planned, Rule>
    requires { IsReady image.now ready.blocks ready.tail ready.used
        × Bytes image.now
        × Bytes file.now
        × (length content.old ≡ 28672)
        × ((m : Bool) × (s : Session) × SaysAll m s said held locks.now limits.now) }
    ensures { (m : Bool) (s : Session) → SaysAll m s said held locks.now limits.now
        → Plans (profile_plan m s file.now image.now) image.now content.old content.new result }
{
    let settings = profile::read(file).ok_or(Rule::File)?;
    if profile::shares_name(file, settings) {
        return Err(Rule::Twice);
    }
    plan_items(
        said, held, locks, limits, image, ready, file, settings, content,
    )
}

// The plan of a profile: rules 1, 2, 25 and 26, those of its items and 13, and its operations.
pub fn plan_profile<'a>(
    said: Terms,
    held: Locks,
    locks: &'a [u8],
    limits: &'a [u8],
    image: &[u8],
    file: &[u8],
    content: &mut [u8; layout::CONTENT],
) -> Result<Planned, Rule>
    requires { (m : Bool) × (s : Session) × SaysAll m s said held locks.now limits.now }
    ensures { (m : Bool) (s : Session) → SaysAll m s said held locks.now limits.now
        → Plans (profile_plan m s file.now image.now) image.now content.old content.new result }
{
    let ready = image::check_call(Layout::AUTHENTICATED, image)?;
    plan_file(said, held, locks, limits, image, ready, file, content)
}

// A profile: planned, then carried out up to n, or to a store that fails.
pub fn profile<'a>(
    c: Context,
    said: Terms,
    held: Locks,
    locks: &'a [u8],
    limits: &'a [u8],
    image: &mut [u8],
    file: &[u8],
    content: &mut [u8; layout::CONTENT],
) -> Answer
    requires { (m : Bool) × (s : Session) × SaysAll m s said held locks.now limits.now }
    ensures { (m : Bool) (s : Session) → SaysAll m s said held locks.now limits.now
        → Returned (book.profile m s file.now) c image.old image.new result
        × Kept (profile_plan m s file.now image.old) content.old content.new }
{
    let planned = plan_profile(said, held, locks, limits, image, file, content);
    flash::carry_out(image, planned, content, c)
}
