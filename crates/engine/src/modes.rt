// A mode request: planned from the image lent shared, and then carried out up to n. Of a session it is given what that says to it: there is one that says so, and what the call
// ensures holds of each. And the mode that the platform is in.
ghost use Rattle.std.specs.Prelude.{◌≡◌, Bool, false, Some, Ok, length};
ghost use Rattle.model.specs.declared.Session.{Session};
ghost use Rattle.model.specs.Request.{mode_value};
ghost use Rattle.model.specs.Stores.{Bytes};
ghost use Rattle.model.specs.Book as book;
ghost use Rattle.model.specs.Book.{mode_plan};
ghost use Rattle.recovery.specs.Interface.{Returned};
ghost use Rattle.image.specs.Check.{IsReady};
ghost use Rattle.planner.specs.Asked.{Asked, PutPlanned, Joinable, joint_changes, FoldPlanned};
ghost use Rattle.plan.specs.Planned.{Kept, Plans};
ghost use Rattle.engine.specs.Modes.{SaysModes, no_value, platform_of};

use decision::Change;
use decision::modes::{self, Transition};
use image::Ready;
use layout::fixed;
use model::{Answer, Context, Layout, PlatMode, Rule, Terms};
use plan::Planned;
use planner::Standing;
use session::Locks;
use values::lookup;

// "A mode alone is stored as a set stores": PlatMode's value is put.
fn plan_alone(
    image: &[u8],
    standing: Standing,
    byte: u8,
    content: &mut [u8],
) -> Result<Planned, Rule>
    requires { Asked image.now standing.ready.blocks standing.ready.tail standing.ready.used standing.places (mode_value byte) × (length content.old ≡ 28672) }
    ensures { PutPlanned image.now (mode_value byte) content.new result }
{
    let name = fixed::mode_name();
    let vendor = fixed::global_vendor();
    let stamp = [0; 16];
    let data = [byte];
    let none = slices::cut(&data, 0, 0);
    planner::put::put_value(
        image, standing, &name, &vendor, 0x07, &stamp, none, &data, content,
    )
}

// "user to audit, losing PK": one compaction, without PK's entry and PlatMode's, at these offsets, and with PlatMode's value last.
fn plan_losing(
    image: &[u8],
    ready: Ready,
    pk: usize,
    there: Option<usize>,
    byte: u8,
    content: &mut [u8],
) -> Result<Planned, Rule>
    requires { Joinable image.now ready.blocks ready.used (Some pk) there false no_value byte × (length content.old ≡ 28672) }
    ensures { FoldPlanned image.now (joint_changes false no_value byte) content.new result }
{
    let zeros = [0; 16];
    let none = slices::cut(image, 0, 0);
    planner::joint::fold(
        image,
        ready.blocks,
        ready.used,
        Some(pk),
        there,
        false,
        none,
        &zeros,
        0,
        &zeros,
        none,
        none,
        byte,
        content,
    )
}

// A mode request over an image that is ready: rules 22, 6, 24 and 13, then the mode alone, or with it PK's loss.
fn plan_ready(
    said: Terms,
    held: Locks,
    locks: &[u8],
    image: &[u8],
    ready: Ready,
    to: u32,
    content: &mut [u8],
) -> Result<Planned, Rule>
    requires { IsReady image.now ready.blocks ready.tail ready.used
        × Bytes image.now
        × (length content.old ≡ 28672)
        × ((m : Bool) × (s : Session) × SaysModes m s said held locks.now) }
    ensures { (m : Bool) (s : Session) → SaysModes m s said held locks.now
        → Plans (mode_plan m s to image.now) image.now content.old content.new result }
{
    let region = slices::cut(image, 0, layout::BLOCK * ready.blocks);
    let Transition {
        what,
        pk,
        byte,
        places,
    } = modes::decide(said, held, locks, region, to);
    match what? {
        Change::Nothing | Change::Remove => return plan::accept(plan::nothing(), None),
        Change::Put => match pk {
            Some(pk) => {
                let there = modes::offset(lookup::standing(places));
                return plan_losing(image, ready, pk, there, byte, content);
            }
            None => {
                let standing = Standing { ready, places };
                return plan_alone(image, standing, byte, content);
            }
        },
    }
}

// The plan of a mode request: rules 1, 2, 22, 6, 24 and 13, and its operations.
pub fn plan_mode(
    said: Terms,
    held: Locks,
    locks: &[u8],
    image: &[u8],
    to: u32,
    content: &mut [u8; layout::CONTENT],
) -> Result<Planned, Rule>
    requires { (m : Bool) × (s : Session) × SaysModes m s said held locks.now }
    ensures { (m : Bool) (s : Session) → SaysModes m s said held locks.now
        → Plans (mode_plan m s to image.now) image.now content.old content.new result }
{
    let ready = image::check_call(Layout::AUTHENTICATED, image)?;
    plan_ready(said, held, locks, image, ready, to, content)
}

// A mode request: planned, then carried out up to n, or to a store that fails.
pub fn mode(
    c: Context,
    said: Terms,
    held: Locks,
    locks: &[u8],
    image: &mut [u8],
    to: u32,
    content: &mut [u8; layout::CONTENT],
) -> Answer
    requires { (m : Bool) × (s : Session) × SaysModes m s said held locks.now }
    ensures { (m : Bool) (s : Session) → SaysModes m s said held locks.now
        → Returned (book.mode m s to) c image.old image.new result
        × Kept (mode_plan m s to image.old) content.old content.new }
{
    let planned = plan_mode(said, held, locks, image, to, content);
    flash::carry_out(image, planned, content, c)
}

// The mode that the platform is in: rules 1 and 2, then by what is there of PK and PlatMode.
pub fn present(image: &[u8]) -> Result<PlatMode, Rule>
    ensures { result ≡ platform_of image.now }
{
    let ready = image::check_call(Layout::AUTHENTICATED, image)?;
    let region = slices::cut(image, 0, layout::BLOCK * ready.blocks);
    Ok(modes::present(region))
}
