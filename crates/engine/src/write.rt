// The calls that store: set and format. Each is planned by a function that is lent the image shared and knows no n, and then carried out up to n. Of a session a set is
// given what it says to it: there is one that says so, and what a set ensures holds of each.
ghost use Rattle.std.specs.Prelude.{◌≡◌, Bool, Some, Ok, length};
ghost use Rattle.model.specs.declared.Session.{Session};
ghost use Rattle.model.specs.Name.{keyed};
ghost use Rattle.model.specs.StartUp.{format_plan};
ghost use Rattle.model.specs.Stores.{Bytes};
ghost use Rattle.model.specs.Answers.{answer_of, outcome, image_after};
ghost use Rattle.model.specs.Beside.{Says};
ghost use Rattle.model.specs.Book as book;
ghost use Rattle.model.specs.Book.{set_plan, Sized};
ghost use Rattle.recovery.specs.Interface.{Returned};
ghost use Rattle.image.specs.Check.{IsReady};
ghost use Rattle.values.specs.Found.{else_found};
ghost use Rattle.planner.specs.Asked.{Asked, PutPlanned, Joinable, FoldPlanned, joint_changes};
ghost use Rattle.decision.specs.Decision.{request_of};
ghost use Rattle.decision.specs.Parts.{value_by, offset_of};
ghost use Rattle.engine.specs.Write.{byte_by};
ghost use Rattle.plan.specs.Planned.{Kept, Plans};

use decision::{Asking, Change, Decided, NewValue};
use image::Ready;
use model::{Answer, Context, Layout, Rule, Terms};
use plan::Planned;
use planner::Standing;
use values::lookup;

// The plan of a value to put that was decided by numbers, over the region of an image that is ready.
fn plan_put(
    image: &[u8],
    region: &[u8],
    standing: Standing,
    name: &[u8],
    vendor: &[u8; 16],
    bytes: &[u8],
    value: NewValue,
    content: &mut [u8],
) -> Result<Planned, Rule>
    requires { Asked image.now standing.ready.blocks standing.ready.tail standing.ready.used standing.places
        (value_by region.now name.now vendor.now bytes.now (else_found standing.places.added standing.places.replacing) value)
        × (length content.old ≡ 28672) }
    ensures { PutPlanned image.now
        (value_by region.now name.now vendor.now bytes.now (else_found standing.places.added standing.places.replacing) value)
        content.new result }
{
    let places = standing.places;
    let stamp = value.stamp;
    let kept = decision::kept(region, places, value.keeps);
    let own = slices::from(bytes, value.own);
    planner::put::put_value(
        image,
        standing,
        name,
        vendor,
        value.attributes,
        &stamp,
        kept,
        own,
        content,
    )
}

// The byte that comes in the place of PlatMode's value: 3, or none.
fn byte(deploys: bool) -> u8
    ensures { result ≡ byte_by deploys }
{
    if deploys { 3 } else { 0 }
}

// The plan of a set of PK with which PlatMode changes, whose entry is at an offset. PK's value, decided by numbers, comes or it goes.
fn plan_joint(
    image: &[u8],
    region: &[u8],
    standing: Standing,
    comes: bool,
    name: &[u8],
    vendor: &[u8; 16],
    bytes: &[u8],
    value: NewValue,
    mode: usize,
    deploys: bool,
    content: &mut [u8],
) -> Result<Planned, Rule>
    requires { Joinable image.now standing.ready.blocks standing.ready.used (offset_of (else_found standing.places.added standing.places.replacing)) (Some mode) comes
        (value_by region.now name.now vendor.now bytes.now (else_found standing.places.added standing.places.replacing) value) (byte_by deploys)
        × (length content.old ≡ 28672) }
    ensures { FoldPlanned image.now (joint_changes comes
        (value_by region.now name.now vendor.now bytes.now (else_found standing.places.added standing.places.replacing) value)
        (byte_by deploys))
        content.new result }
{
    let places = standing.places;
    let stamp = value.stamp;
    let pk = decision::modes::offset(lookup::standing(places));
    let kept = decision::kept(region, places, value.keeps);
    let own = slices::from(bytes, value.own);
    planner::joint::fold(
        image,
        standing.ready.blocks,
        standing.ready.used,
        pk,
        Some(mode),
        comes,
        name,
        vendor,
        value.attributes,
        &stamp,
        kept,
        own,
        byte(deploys),
        content,
    )
}

// A set over an image that is ready: rules 3 to 13, 17, 18, 21, 22 and 24, then what it does to the values.
fn plan_ready(
    terms: Terms,
    limits: &[u8],
    image: &[u8],
    ready: Ready,
    name: &[u8],
    vendor: &[u8; 16],
    asking: Asking,
    bytes: &[u8],
    content: &mut [u8],
) -> Result<Planned, Rule>
    requires { IsReady image.now ready.blocks ready.tail ready.used
        × Bytes image.now
        × ((m : Bool) (s : Session) → Sized (book.set m s (request_of name.now vendor.now asking.attributes bytes.now asking.presence asking.verdict)))
        × (length content.old ≡ 28672)
        × ((m : Bool) × (s : Session) × Says m s (keyed name.now vendor.now) terms limits.now) }
    ensures { (m : Bool) (s : Session) → Says m s (keyed name.now vendor.now) terms limits.now
        → Plans
        (set_plan m s
        (request_of name.now vendor.now asking.attributes bytes.now asking.presence asking.verdict)
        image.now)
        image.now content.old content.new result }
{
    let region = slices::cut(image, 0, layout::BLOCK * ready.blocks);
    let Decided {
        what,
        places,
        value,
        beside,
        deploys,
    } = decision::decide(
        terms, limits, region, ready.tail, name, vendor, asking, bytes,
    );
    let standing = Standing { ready, places };
    match what? {
        Change::Nothing => return plan::accept(plan::nothing(), None),
        Change::Remove => match beside {
            Some(mode) => {
                return plan_joint(
                    image, region, standing, false, name, vendor, bytes, value, mode, deploys,
                    content,
                );
            }
            None => return plan::accept(planner::entries::delete(places), Some(1)),
        },
        Change::Put => match beside {
            Some(mode) => {
                return plan_joint(
                    image, region, standing, true, name, vendor, bytes, value, mode, deploys,
                    content,
                );
            }
            None => {
                return plan_put(image, region, standing, name, vendor, bytes, value, content);
            }
        },
    }
}

// The plan of a set, a delete or an append: rules 1 to 13, 17, 18, 21 and 22, and its operations.
pub fn plan_set(
    terms: Terms,
    limits: &[u8],
    image: &[u8],
    name: &[u8],
    vendor: &[u8; 16],
    asking: Asking,
    bytes: &[u8],
    content: &mut [u8; layout::CONTENT],
) -> Result<Planned, Rule>
    requires { (m : Bool) × (s : Session) × Says m s (keyed name.now vendor.now) terms limits.now }
    ensures { (m : Bool) (s : Session) → Says m s (keyed name.now vendor.now) terms limits.now
        → Plans
        (set_plan m s
        (request_of name.now vendor.now asking.attributes bytes.now asking.presence asking.verdict)
        image.now)
        image.now content.old content.new result }
{
    let ready = image::check_call(Layout::AUTHENTICATED, image)?;
    plan_ready(
        terms, limits, image, ready, name, vendor, asking, bytes, content,
    )
}

// A set, a delete or an append: planned, then carried out up to n, or to a store that fails.
pub fn set(
    c: Context,
    terms: Terms,
    limits: &[u8],
    image: &mut [u8],
    name: &[u8],
    vendor: &[u8; 16],
    asking: Asking,
    bytes: &[u8],
    content: &mut [u8; layout::CONTENT],
) -> Answer
    requires { (m : Bool) × (s : Session) × Says m s (keyed name.now vendor.now) terms limits.now }
    ensures { (m : Bool) (s : Session) → Says m s (keyed name.now vendor.now) terms limits.now
        → Returned
        (book.set m s (request_of name.now vendor.now asking.attributes bytes.now asking.presence asking.verdict))
        c image.old image.new result
        × Kept
        (set_plan m s
        (request_of name.now vendor.now asking.attributes bytes.now asking.presence asking.verdict)
        image.old)
        content.old content.new }
{
    let planned = plan_set(terms, limits, image, name, vendor, asking, bytes, content);
    flash::carry_out(image, planned, content, c)
}

// The plan of a format: "Formatting meets 1 only". It is kept apart, so that its stack is taken only while it runs.
#[inline(never)]
pub fn plan_format(image: &[u8], content: &mut [u8; layout::CONTENT]) -> Result<Planned, Rule>
    ensures { Plans (format_plan image.now) image.now content.old content.new result }
{
    let b = image::blocks(image).ok_or(Rule::Length)?;
    Ok(planner::format::plan(image, b, content))
}

// An empty region: planned, then carried out up to n, or to a store that fails.
pub fn format(c: Context, image: &mut [u8], content: &mut [u8; layout::CONTENT]) -> Answer
    ensures { (answer_of result ≡ outcome c (format_plan image.old) image.old)
        × (image.new ≡ image_after c (format_plan image.old) image.old)
        × Kept (format_plan image.old) content.old content.new }
{
    let planned = plan_format(image, content);
    flash::carry_out(image, planned, content, c)
}
