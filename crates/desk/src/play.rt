// A step played on an image: its set, and the start-up after one that is cut. Both are calls of the engine; what they erase is counted from their plans.
ghost use Rattle.std.specs.Prelude.{◌≡◌, false, ◌+◌, ◌*◌, ◌-◌, ◌^◌, ◌≤◌, ◌<◌, length};
ghost use Rattle.model.specs.Name.{keyed};
ghost use Rattle.model.specs.Image.{block, region_header_size};
ghost use Rattle.model.specs.Beside.{Says};
ghost use Rattle.model.specs.Book.{set_plan};
ghost use Rattle.model.specs.StartUp.{start_up_plan};
ghost use Rattle.decision.specs.Decision.{request_of};
ghost use Rattle.profile.specs.Reader.{request_in, Within};
ghost use Rattle.desk.specs.Season.{empty_image, no_tenant_def, no_limits_def, desk_setup, desk_session, desk_context, played_whole, step_played};
ghost use Rattle.desk.specs.Reader.{step_in};
ghost use Rattle.desk.specs.Playing.{operations_of, counted_as, Plays, PlaysUpTo};

use crate::{Asked, Played, erases};
use decision::Asking;
use model::{Answer, Context, Rule, Tenant, Terms};
use plan::{Plan, Planned};
use profile::Setting;

// The n that stops no call: no list of stores is as long.
const NO_LIMIT: u64 = u64::MAX;

// A table of rules for settings that holds none.
fn no_limits() -> [u8; 6912]
    ensures { result ≡ no_limits_def }
{
    [0; 6912]
}

// A modem that has nothing.
fn no_tenant() -> Tenant
    ensures { result ≡ no_tenant_def }
{
    Tenant {
        share: 0,
        reserve: 0,
        vendor: [0; 16],
    }
}

// What every call takes: its n, no dead bytes, pages of one byte, our side.
fn context(n: u64) -> Context
    ensures { result ≡ desk_context n }
{
    Context {
        limit: n,
        count: 0,
        dead: [0; 16],
        width: 1,
        side: 0,
    }
}

// "our share L less 28".
fn share(b: usize) -> u32
    requires { (1 ≤ b) × (b ≤ 7) }
    ensures { result ≡ block * b - region_header_size }
{
    (layout::BLOCK * b - layout::REGION_HEADER) as u32
}

// What the session says to a set of a name.
fn terms(b: usize, name: &[u8], vendor: &[u8; 16]) -> Terms
    requires { (1 ≤ b) × (b ≤ 7) }
    ensures { Says false (desk_session b) (keyed name.now vendor.now) result no_limits_def }
{
    let tenant = no_tenant();
    let said = session::terms_for(false, 0, 0, 0, 0, share(b), tenant, 0);
    session::terms(said, false, name, vendor)
}

// The operations of what was planned: none of a call that is refused.
fn operations(planned: Result<Planned, Rule>) -> Plan
    ensures { result ≡ operations_of planned }
{
    match planned {
        Ok(planned) => planned.plan,
        Err(_) => plan::nothing(),
    }
}

// What a call made, by its answer: all of its stores, the first n, or none; and the blocks that these erase.
fn counted(answer: Answer, plan: Plan, n: u64) -> Played
    ensures { (result ≡ counted_as answer plan n) × (length plan ≡ 12) }
{
    match answer {
        Answer::Done(stores) => Played {
            answer,
            stores,
            erases: erases::erased(plan, stores),
        },
        Answer::Stopped => Played {
            answer,
            stores: n,
            erases: erases::erased(plan, n),
        },
        Answer::Refused(_) => Played {
            answer,
            stores: 0,
            erases: 0,
        },
    }
}

// A set of ours: planned, so that its erases can be counted, and then made up to n.
fn set(
    b: usize,
    name: &[u8],
    vendor: &[u8; 16],
    attributes: u32,
    bytes: &[u8],
    n: u64,
    image: &mut [u8],
    content: &mut [u8; layout::CONTENT],
) -> Played
    requires { (1 ≤ b) × (b ≤ 7) × (length image.old ≤ 61440) }
    ensures { PlaysUpTo n
        (set_plan false (desk_session b) (request_of name.now vendor.now attributes bytes.now 0 0) image.old)
        image.old image.new result }
{
    let limits = no_limits();
    let said = terms(b, name, vendor);
    let asking = Asking {
        attributes,
        presence: 0,
        verdict: 0,
    };
    let planned = engine::write::plan_set(
        said, &limits, image, name, vendor, asking, bytes, content,
    );
    let plan = operations(planned);
    let answer = engine::write::set(
        context(n),
        said,
        &limits,
        image,
        name,
        vendor,
        asking,
        bytes,
        content,
    );
    counted(answer, plan, n)
}

// The set of an item.
fn set_item(
    b: usize,
    script: &[u8],
    item: Setting,
    n: u64,
    image: &mut [u8],
    content: &mut [u8; layout::CONTENT],
) -> Played
    requires { (1 ≤ b) × (b ≤ 7) × (length image.old ≤ 61440) × Within (length script.now) item }
    ensures { PlaysUpTo n (set_plan false (desk_session b) (request_in script.now item) image.old)
        image.old image.new result }
{
    let vendor = profile::guid_of(script, item);
    set(
        b,
        profile::name_of(script, item),
        &vendor,
        item.attributes,
        profile::data_of(script, item),
        n,
        image,
        content,
    )
}

// A start-up, to its end.
fn start_up(b: usize, image: &mut [u8], content: &mut [u8; layout::CONTENT]) -> Played
    requires { (1 ≤ b) × (b ≤ 7) × (length image.old ≤ 61440) }
    ensures { Plays (2 ^ 20) (played_whole (start_up_plan (desk_setup b) image.old) image.old) result image.new }
{
    let tenant = no_tenant();
    let own = share(b);
    let planned = engine::start::plan_start_up(own, 0, tenant, image, content);
    let plan = operations(planned);
    let answer = engine::start::start_up(context(NO_LIMIT), own, 0, tenant, image, content);
    counted(answer, plan, NO_LIMIT)
}

// A step: its set; one that is cut, whatever its answer, and the start-up after it.
pub fn step(
    b: usize,
    script: &[u8],
    asked: Asked,
    image: &mut [u8],
    content: &mut [u8; layout::CONTENT],
) -> Played
    requires { (1 ≤ b) × (b ≤ 7) × (length image.old ≤ 61440) × Within (length script.now) asked.item }
    ensures { Plays (2 ^ 21) (step_played b (step_in script.now asked) image.old) result image.new }
{
    let Asked { limit, item } = asked;
    let Some(n) = limit else {
        return set_item(b, script, item, NO_LIMIT, image, content);
    };
    let p = set_item(b, script, item, n as u64, image, content);
    let q = start_up(b, image, content);
    Played {
        answer: p.answer,
        stores: p.stores + q.stores,
        erases: p.erases + q.erases,
    }
}

// The empty image: what formatting leaves.
pub fn empty(b: usize, image: &mut [u8], content: &mut [u8; layout::CONTENT])
    requires { (1 ≤ b) × (b ≤ 7) × (length image.old ≡ block * (2 * b + 1)) }
    ensures { image.new ≡ empty_image b }
{
    engine::write::format(context(NO_LIMIT), image, content);
}
