// The calls of the C interface, thin over the engine and the move: the parts of the session that a call needs, one call, and its answer in numbers. Numbers
// and structs of numbers cross, no enum; c/varstore.h documents them, and capi_c exports them.
#![tactic(auto)]

ghost use Rattle.std.specs.Prelude.{◌≡◌, false};
ghost use Rattle.model.specs.Layout.{authenticated, plain};
ghost use Rattle.model.specs.Name.{keyed};
ghost use Rattle.model.specs.Image.{region_size};
ghost use Rattle.model.specs.Region.{record_bit, values_of};
ghost use Rattle.model.specs.Session.{is_modem_def, at_runtime_def, fresh_session, moved_to_def};
ghost use Rattle.model.specs.Rules.{terms_for_def, view_of};
ghost use Rattle.model.specs.Query.{storage_for, remaining_for, largest_for, query_outcome, query_gives};
ghost use Rattle.model.specs.StartUp.{start_up_plan, format_plan};
ghost use Rattle.model.specs.Beside.{Gives, asked, Handed, Says};
ghost use Rattle.model.specs.Answers.{answer_of, side_of, outcome, image_after, get_reply, gets_reply, next_reply, lock_outcome, lock_session};
ghost use Rattle.model.specs.Move.{move_answer, image_moved};
ghost use Rattle.model.specs.Lent.{session_of};
ghost use Rattle.decision.specs.Decision.{request_of};
ghost use Rattle.model.specs.Book as book;
ghost use Rattle.model.specs.Book.{set_plan, get_plan, gets_plan, next_plan, profile_plan, mode_plan};
ghost use Rattle.recovery.specs.Host.{StartUpPlanned, PlannedFor};
ghost use Rattle.plan.specs.Planned.{Kept};
ghost use Rattle.plan.specs.Told.{Told};
ghost use Rattle.plan.specs.Numbers.{Numbered};
ghost use Rattle.capi.specs.Numbers.{numbers_of, checked_of, mode_number_def, present_of};

use decision::Asking;
use engine::modes;
use image::Ready;
use model::{Answer, Context, Got, Layout, Named, PlatMode, Queried, Session, Setup, Terms, View};
use plan::HostPlan;
use session::{Locks, lent};

// An answer in numbers: 0 done, 1 stopped, 2 refused; the rule if refused, else 0; the number of stores if done, else 0.
#[repr(C)]
#[derive(Clone, Copy)]
pub struct Answered {
    pub kind: u32,
    pub rule: u32,
    pub stores: u64,
}

// What a check tells: b and the offset of the tail, 0 if refused.
#[repr(C)]
#[derive(Clone, Copy)]
pub struct Checked {
    pub answer: Answered,
    pub blocks: u32,
    pub tail: u32,
}

// What is told of the platform's mode, 0 if refused.
#[repr(C)]
#[derive(Clone, Copy)]
pub struct Present {
    pub answer: Answered,
    pub mode: u32,
}

// What a get or next-name gives back; next-name has no attributes.
#[repr(C)]
#[derive(Clone, Copy)]
pub struct Reply {
    pub answer: Answered,
    pub size: u32,
    pub attributes: u32,
    pub needed: u32,
}

// What a query gives back: the bytes that all values of a class may take, those that a new one may take, and how many bytes its name and data may have; 0 if refused.
#[repr(C)]
#[derive(Clone, Copy)]
pub struct Room {
    pub answer: Answered,
    pub storage: u32,
    pub remaining: u32,
    pub largest: u32,
}

// What a lock gives back.
#[repr(C)]
#[derive(Clone, Copy)]
pub struct Listed {
    pub answer: Answered,
    pub session: Session,
}

// What a start-up gives back: the session is fresh, also where it is refused or stopped.
#[repr(C)]
#[derive(Clone, Copy)]
pub struct Started {
    pub answer: Answered,
    pub session: Session,
}

// 0 done, 1 stopped, 2 refused.
impl From<Answer> for Answered {
    ghost from_gives = { λ answer told. told ≡ numbers_of (answer_of answer) };

    fn from(answer: Answer) -> Answered {
        match answer {
            Answer::Done(stores) => Answered {
                kind: 0,
                rule: 0,
                stores,
            },
            Answer::Stopped => Answered {
                kind: 1,
                rule: 0,
                stores: 0,
            },
            Answer::Refused(rule) => Answered {
                kind: 2,
                rule: u32::from(rule),
                stores: 0,
            },
        }
    }
}

// What a get found, and its attributes.
impl From<Got> for Reply {
    ghost from_gives = { λ got told. (told.answer ≡ numbers_of (answer_of got.answer)) × (told.size ≡ got.size) × (told.attributes ≡ got.attributes) × (told.needed ≡ got.needed) };

    fn from(got: Got) -> Reply {
        Reply {
            answer: Answered::from(got.answer),
            size: got.size,
            attributes: got.attributes,
            needed: got.needed,
        }
    }
}

// What a next-name found.
impl From<Named> for Reply {
    ghost from_gives = { λ named told. (told.answer ≡ numbers_of (answer_of named.answer)) × (told.size ≡ named.size) × (told.attributes ≡ 0) × (told.needed ≡ named.needed) };

    fn from(named: Named) -> Reply {
        Reply {
            answer: Answered::from(named.answer),
            size: named.size,
            attributes: 0,
            needed: named.needed,
        }
    }
}

// What a query found.
impl From<Queried> for Room {
    ghost from_gives = { λ q told. (told.answer ≡ numbers_of (answer_of q.answer)) × (told.storage ≡ q.storage) × (told.remaining ≡ q.remaining) × (told.largest ≡ q.largest) };

    fn from(q: Queried) -> Room {
        Room {
            answer: Answered::from(q.answer),
            storage: q.storage,
            remaining: q.remaining,
            largest: q.largest,
        }
    }
}

// What a session says to a side's call that names no name.
fn terms_for(session: &Session, side: u32) -> Terms
    ensures { result ≡ terms_for_def (is_modem_def side) session.now }
{
    let tenant = session.setup.modem;
    session::terms_for(
        session::is_modem(side),
        session.phase,
        session.setup.custom,
        session.setup.reserve,
        session.setup.records,
        session.setup.share,
        tenant,
        session.setup.rules,
    )
}

// And to a set of a name.
fn terms(session: &Session, side: u32, name: &[u8], vendor: &[u8; 16]) -> Terms
    ensures { Says (is_modem_def side) session.now (keyed name.now vendor.now) result session.now.setup.limits }
{
    let said = terms_for(session, side);
    let sizes = session.sizes;
    let barred = session::is_barred(
        session.phase,
        session.count,
        sizes,
        &session.locks,
        name,
        vendor,
    );
    session::terms(said, barred, name, vendor)
}

// And to a get, a many-get or a next-name.
fn view(session: &Session, side: u32) -> View
    ensures { view_of (is_modem_def side) session.now ≡ result }
{
    let guid = session.setup.modem.vendor;
    session::view(session::is_modem(side), session.phase, guid)
}

// What a session's locks are counted by.
fn locks(session: &Session) -> Locks
    ensures { (result.phase ≡ session.now.phase) × (result.used ≡ session.now.count) × (result.sizes ≡ session.now.sizes) }
{
    let sizes = session.sizes;
    Locks {
        phase: session.phase,
        used: session.count,
        sizes,
    }
}

pub fn vs_check(image: &[u8]) -> Checked
    ensures { result ≡ checked_of image.now }
{
    match image::check_call(Layout::AUTHENTICATED, image) {
        Ok(Ready { blocks, tail, .. }) => Checked {
            answer: Answered::from(Answer::Done(0)),
            blocks: blocks as u32,
            tail: tail as u32,
        },
        Err(rule) => Checked {
            answer: Answered::from(Answer::Refused(rule)),
            blocks: 0,
            tail: 0,
        },
    }
}

// A mode in numbers: 0 setup, 1 user, 2 audit, 3 deployed.
fn mode_number(mode: PlatMode) -> u32
    ensures { result ≡ mode_number_def mode }
{
    match mode {
        PlatMode::Setup => 0,
        PlatMode::User => 1,
        PlatMode::Audit => 2,
        PlatMode::Deployed => 3,
    }
}

pub fn vs_present_mode(image: &[u8]) -> Present
    ensures { result ≡ present_of image.now }
{
    match modes::present(image) {
        Ok(mode) => Present {
            answer: Answered::from(Answer::Done(0)),
            mode: mode_number(mode),
        },
        Err(rule) => Present {
            answer: Answered::from(Answer::Refused(rule)),
            mode: 0,
        },
    }
}

pub fn vs_query(context: Context, session: Session, image: &[u8], attributes: u32) -> Room
    ensures { (result.answer ≡ numbers_of (query_outcome (at_runtime_def session) attributes image.now))
        × (result.storage ≡ query_gives (at_runtime_def session) attributes image.now
        (storage_for (terms_for_def (side_of context) session) (record_bit attributes) (region_size image.now)))
        × (result.remaining ≡ query_gives (at_runtime_def session) attributes image.now
        (remaining_for (terms_for_def (side_of context) session) (record_bit attributes) (region_size image.now) (values_of image.now)))
        × (result.largest ≡ query_gives (at_runtime_def session) attributes image.now
        (largest_for
        (remaining_for (terms_for_def (side_of context) session) (record_bit attributes) (region_size image.now) (values_of image.now)))) }
{
    let terms = terms_for(&session, context.side);
    Room::from(engine::room::query(terms, image, attributes))
}

pub fn vs_session_new(setup: Setup) -> Session
    ensures { result ≡ fresh_session setup }
{
    Session::fresh(setup)
}

pub fn vs_phase(session: Session, phase: u32) -> Session
    ensures { result ≡ moved_to_def session phase }
{
    session.moved_to(phase)
}

pub fn vs_lock(session: Session, side: u32, name: &[u8], vendor: &[u8; 16]) -> Listed
    ensures { (result.answer ≡ numbers_of (lock_outcome (is_modem_def side) session (keyed name.now vendor.now)))
        × (result.session ≡ lock_session (is_modem_def side) session (keyed name.now vendor.now)) }
{
    let l = session::lock(session, session::is_modem(side), name, vendor);
    Listed {
        answer: Answered::from(l.answer),
        session: l.session,
    }
}

pub fn vs_get(
    context: Context,
    session: Session,
    image: &[u8],
    name: &[u8],
    vendor: &[u8; 16],
    buffer: &mut [u8],
) -> Reply
    ensures { (result.answer
        ≡ numbers_of (outcome context
        (get_plan (side_of context) session (keyed name.now vendor.now) buffer.old image.now)
        image.now))
        × Gives
        (get_reply (side_of context) session (keyed name.now vendor.now) buffer.old image.now)
        result.size result.attributes result.needed buffer.new }
{
    let view = view(&session, context.side);
    let g = engine::read::get(context, view, image, name, vendor, buffer);
    Reply::from(g)
}

pub fn vs_get_many(
    context: Context,
    session: Session,
    image: &[u8],
    keys: &[u8],
    sizes: &[u32],
    told: &mut [u32; 256],
    buffer: &mut [u8],
) -> Answered
    ensures { (result
        ≡ numbers_of (outcome context
        (gets_plan (side_of context) session (asked keys.now sizes.now) buffer.old image.now)
        image.now))
        × Handed
        (gets_reply (side_of context) session (asked keys.now sizes.now) buffer.old image.now)
        told.old told.new buffer.new }
{
    let view = view(&session, context.side);
    let answer = engine::many::get_many(context, view, image, keys, sizes, told, buffer);
    Answered::from(answer)
}

pub fn vs_next_name(
    context: Context,
    session: Session,
    image: &[u8],
    name: &[u8],
    vendor: &[u8; 16],
    buffer: &mut [u8],
) -> Reply
    ensures { (result.answer
        ≡ numbers_of (outcome context
        (next_plan (side_of context) session (keyed name.now vendor.now) buffer.old image.now)
        image.now))
        × Gives
        (next_reply (side_of context) session (keyed name.now vendor.now) buffer.old image.now)
        result.size result.attributes result.needed buffer.new }
{
    let view = view(&session, context.side);
    let g = engine::read::next_name(context, view, image, name, vendor, buffer);
    Reply::from(g)
}

pub fn vs_set(
    context: Context,
    session: Session,
    image: &mut [u8],
    name: &[u8],
    vendor: &[u8; 16],
    attributes: u32,
    bytes: &[u8],
    presence: u32,
    verdict: u32,
    content: &mut [u8; layout::CONTENT],
) -> Answered
    ensures { (result
        ≡ numbers_of (outcome context
        (set_plan (side_of context) session (request_of name.now vendor.now attributes bytes.now presence verdict) image.old)
        image.old))
        × (image.new
        ≡ image_after context
        (set_plan (side_of context) session (request_of name.now vendor.now attributes bytes.now presence verdict) image.old)
        image.old)
        × Kept
        (set_plan (side_of context) session (request_of name.now vendor.now attributes bytes.now presence verdict) image.old)
        content.old
        content.new }
{
    let terms = terms(&session, context.side, name, vendor);
    let asking = Asking {
        attributes,
        presence,
        verdict,
    };
    let answer = engine::write::set(
        context,
        terms,
        &session.setup.limits,
        image,
        name,
        vendor,
        asking,
        bytes,
        content,
    );
    Answered::from(answer)
}

pub fn vs_profile(
    context: Context,
    session: Session,
    image: &mut [u8],
    file: &[u8],
    content: &mut [u8; layout::CONTENT],
) -> Answered
    ensures { (result ≡ numbers_of (outcome context (profile_plan (side_of context) session file.now image.old) image.old))
        × (image.new ≡ image_after context (profile_plan (side_of context) session file.now image.old) image.old)
        × Kept (profile_plan (side_of context) session file.now image.old) content.old content.new }
{
    let said = terms_for(&session, context.side);
    let held = locks(&session);
    let answer = engine::items::profile(
        context,
        said,
        held,
        &session.locks,
        &session.setup.limits,
        image,
        file,
        content,
    );
    Answered::from(answer)
}

pub fn vs_mode(
    context: Context,
    session: Session,
    image: &mut [u8],
    mode: u32,
    content: &mut [u8; layout::CONTENT],
) -> Answered
    ensures { (result ≡ numbers_of (outcome context (mode_plan (side_of context) session mode image.old) image.old))
        × (image.new ≡ image_after context (mode_plan (side_of context) session mode image.old) image.old)
        × Kept (mode_plan (side_of context) session mode image.old) content.old content.new }
{
    let said = terms_for(&session, context.side);
    let held = locks(&session);
    let answer = modes::mode(context, said, held, &session.locks, image, mode, content);
    Answered::from(answer)
}

pub fn vs_format(
    context: Context,
    image: &mut [u8],
    content: &mut [u8; layout::CONTENT],
) -> Answered
    ensures { (result ≡ numbers_of (outcome context (format_plan image.old) image.old))
        × (image.new ≡ image_after context (format_plan image.old) image.old)
        × Kept (format_plan image.old) content.old content.new }
{
    let answer = engine::write::format(context, image, content);
    Answered::from(answer)
}

pub fn vs_start_up(
    context: Context,
    image: &mut [u8],
    setup: Setup,
    content: &mut [u8; layout::CONTENT],
) -> Started
    ensures { (result.answer ≡ numbers_of (outcome context (start_up_plan setup image.old) image.old))
        × (result.session ≡ fresh_session setup)
        × (image.new ≡ image_after context (start_up_plan setup image.old) image.old)
        × Kept (start_up_plan setup image.old) content.old content.new }
{
    let tenant = setup.modem;
    let answer = engine::start::start_up(
        context,
        setup.share,
        setup.records,
        tenant,
        image,
        content,
    );
    let session = Session::fresh(setup);
    Started {
        answer: Answered::from(answer),
        session,
    }
}

pub fn vs_plan_set(
    session: Session,
    side: u32,
    image: &[u8],
    name: &[u8],
    vendor: &[u8; 16],
    attributes: u32,
    bytes: &[u8],
    presence: u32,
    verdict: u32,
    content: &mut [u8; layout::CONTENT],
) -> HostPlan
    ensures { PlannedFor
        (book.set (is_modem_def side) session (request_of name.now vendor.now attributes bytes.now presence verdict))
        image.now
        content.new
        result
        × Kept
        (set_plan (is_modem_def side) session (request_of name.now vendor.now attributes bytes.now presence verdict) image.now)
        content.old
        content.new
        × Numbered
        (set_plan (is_modem_def side) session (request_of name.now vendor.now attributes bytes.now presence verdict) image.now)
        image.now
        content.old
        content.new
        result }
{
    let terms = terms(&session, side, name, vendor);
    let asking = Asking {
        attributes,
        presence,
        verdict,
    };
    let planned = engine::write::plan_set(
        terms,
        &session.setup.limits,
        image,
        name,
        vendor,
        asking,
        bytes,
        content,
    );
    plan::in_numbers(planned)
}

pub fn vs_plan_profile(
    session: Session,
    side: u32,
    image: &[u8],
    file: &[u8],
    content: &mut [u8; layout::CONTENT],
) -> HostPlan
    ensures { PlannedFor (book.profile (is_modem_def side) session file.now) image.now content.new result
        × Kept (profile_plan (is_modem_def side) session file.now image.now) content.old content.new
        × Numbered (profile_plan (is_modem_def side) session file.now image.now) image.now content.old content.new result }
{
    let said = terms_for(&session, side);
    let held = locks(&session);
    let planned = engine::items::plan_profile(
        said,
        held,
        &session.locks,
        &session.setup.limits,
        image,
        file,
        content,
    );
    plan::in_numbers(planned)
}

pub fn vs_plan_mode(
    session: Session,
    side: u32,
    image: &[u8],
    mode: u32,
    content: &mut [u8; layout::CONTENT],
) -> HostPlan
    ensures { PlannedFor (book.mode (is_modem_def side) session mode) image.now content.new result
        × Kept (mode_plan (is_modem_def side) session mode image.now) content.old content.new
        × Numbered (mode_plan (is_modem_def side) session mode image.now) image.now content.old content.new result }
{
    let said = terms_for(&session, side);
    let held = locks(&session);
    let planned = modes::plan_mode(said, held, &session.locks, image, mode, content);
    plan::in_numbers(planned)
}

pub fn vs_plan_start_up(image: &[u8], setup: Setup, content: &mut [u8; layout::CONTENT]) -> HostPlan
    ensures { StartUpPlanned setup image.now content.new result
        × Kept (start_up_plan setup image.now) content.old content.new
        × Numbered (start_up_plan setup image.now) image.now content.old content.new result }
{
    let tenant = setup.modem;
    let planned = engine::start::plan_start_up(setup.share, setup.records, tenant, image, content);
    plan::in_numbers(planned)
}

pub fn vs_plan_format(image: &[u8], content: &mut [u8; layout::CONTENT]) -> HostPlan
    ensures { Told (format_plan image.now) content.new result
        × Kept (format_plan image.now) content.old content.new
        × Numbered (format_plan image.now) image.now content.old content.new result }
{
    let planned = engine::write::plan_format(image, content);
    plan::in_numbers(planned)
}

pub fn vs_from_plain(image: &[u8], target: &mut [u8]) -> Answered
    ensures { (result ≡ numbers_of (move_answer plain authenticated image.now target.old))
        × (target.new ≡ image_moved plain authenticated image.now target.old) }
{
    let answer = convert::move_values(Layout::plain(), Layout::authenticated(), image, target);
    Answered::from(answer)
}

pub fn vs_to_plain(image: &[u8], target: &mut [u8]) -> Answered
    ensures { (result ≡ numbers_of (move_answer authenticated plain image.now target.old))
        × (target.new ≡ image_moved authenticated plain image.now target.old) }
{
    let answer = convert::move_values(Layout::authenticated(), Layout::plain(), image, target);
    Answered::from(answer)
}

// The calls that have their session in the host's memory.

pub fn vs_session_fresh(session: &mut [u8; lent::SESSION])
    ensures { session_of session.new ≡ fresh_session (session_of session.old).setup }
{
    lent::renew(session);
}

pub fn vs_phase_lent(session: &mut Session, phase: u32)
    ensures { session.new ≡ moved_to_def session.old phase }
{
    *session = (*session).moved_to(phase);
}

pub fn vs_lock_lent(
    session: &mut [u8; lent::SESSION],
    side: u32,
    name: &[u8],
    vendor: &[u8; 16],
) -> Answered
    ensures { (result ≡ numbers_of (lock_outcome (is_modem_def side) (session_of session.old) (keyed name.now vendor.now)))
        × (session_of session.new ≡ lock_session (is_modem_def side) (session_of session.old) (keyed name.now vendor.now)) }
{
    let told = lent::lock(session, session::is_modem(side), name, vendor);
    Answered::from(told)
}

pub fn vs_get_lent(
    context: Context,
    session: &[u8; lent::SESSION],
    image: &[u8],
    name: &[u8],
    vendor: &[u8; 16],
    buffer: &mut [u8],
) -> Reply
    ensures { (result.answer
        ≡ numbers_of (outcome context
        (get_plan (side_of context) (session_of session.now) (keyed name.now vendor.now) buffer.old image.now)
        image.now))
        × Gives
        (get_reply (side_of context) (session_of session.now) (keyed name.now vendor.now) buffer.old image.now)
        result.size result.attributes result.needed buffer.new }
{
    let view = lent::view(session, session::is_modem(context.side));
    let told = engine::read::get(context, view, image, name, vendor, buffer);
    Reply::from(told)
}

pub fn vs_get_many_lent(
    context: Context,
    session: &[u8; lent::SESSION],
    image: &[u8],
    keys: &[u8],
    sizes: &[u32],
    told: &mut [u32; 256],
    buffer: &mut [u8],
) -> Answered
    ensures { (result
        ≡ numbers_of (outcome context
        (gets_plan (side_of context) (session_of session.now) (asked keys.now sizes.now) buffer.old image.now)
        image.now))
        × Handed
        (gets_reply (side_of context) (session_of session.now) (asked keys.now sizes.now) buffer.old image.now)
        told.old told.new buffer.new }
{
    let view = lent::view(session, session::is_modem(context.side));
    let reply = engine::many::get_many(context, view, image, keys, sizes, told, buffer);
    Answered::from(reply)
}

pub fn vs_next_name_lent(
    context: Context,
    session: &[u8; lent::SESSION],
    image: &[u8],
    name: &[u8],
    vendor: &[u8; 16],
    buffer: &mut [u8],
) -> Reply
    ensures { (result.answer
        ≡ numbers_of (outcome context
        (next_plan (side_of context) (session_of session.now) (keyed name.now vendor.now) buffer.old image.now)
        image.now))
        × Gives
        (next_reply (side_of context) (session_of session.now) (keyed name.now vendor.now) buffer.old image.now)
        result.size result.attributes result.needed buffer.new }
{
    let view = lent::view(session, session::is_modem(context.side));
    let told = engine::read::next_name(context, view, image, name, vendor, buffer);
    Reply::from(told)
}

pub fn vs_set_lent(
    context: Context,
    session: &[u8; lent::SESSION],
    image: &mut [u8],
    name: &[u8],
    vendor: &[u8; 16],
    attributes: u32,
    bytes: &[u8],
    presence: u32,
    verdict: u32,
    content: &mut [u8; layout::CONTENT],
) -> Answered
    ensures { (result
        ≡ numbers_of (outcome context
        (set_plan (side_of context) (session_of session.now) (request_of name.now vendor.now attributes bytes.now presence verdict) image.old)
        image.old))
        × (image.new
        ≡ image_after context
        (set_plan (side_of context) (session_of session.now) (request_of name.now vendor.now attributes bytes.now presence verdict) image.old)
        image.old)
        × Kept
        (set_plan (side_of context) (session_of session.now) (request_of name.now vendor.now attributes bytes.now presence verdict) image.old)
        content.old
        content.new }
{
    let terms = lent::terms(session, session::is_modem(context.side), name, vendor);
    let limits = lent::limits(session);
    let asking = Asking {
        attributes,
        presence,
        verdict,
    };
    let told = engine::write::set(
        context, terms, limits, image, name, vendor, asking, bytes, content,
    );
    Answered::from(told)
}

pub fn vs_profile_lent(
    context: Context,
    session: &[u8; lent::SESSION],
    image: &mut [u8],
    file: &[u8],
    content: &mut [u8; layout::CONTENT],
) -> Answered
    ensures { (result
        ≡ numbers_of (outcome context (profile_plan (side_of context) (session_of session.now) file.now image.old) image.old))
        × (image.new
        ≡ image_after context (profile_plan (side_of context) (session_of session.now) file.now image.old) image.old)
        × Kept
        (profile_plan (side_of context) (session_of session.now) file.now image.old)
        content.old
        content.new }
{
    let said = lent::terms_for(session, session::is_modem(context.side));
    let held = lent::locks(session);
    let locks = lent::places(session);
    let limits = lent::limits(session);
    let told = engine::items::profile(context, said, held, locks, limits, image, file, content);
    Answered::from(told)
}

pub fn vs_mode_lent(
    context: Context,
    session: &[u8; lent::SESSION],
    image: &mut [u8],
    mode: u32,
    content: &mut [u8; layout::CONTENT],
) -> Answered
    ensures { (result
        ≡ numbers_of (outcome context (mode_plan (side_of context) (session_of session.now) mode image.old) image.old))
        × (image.new
        ≡ image_after context (mode_plan (side_of context) (session_of session.now) mode image.old) image.old)
        × Kept
        (mode_plan (side_of context) (session_of session.now) mode image.old)
        content.old
        content.new }
{
    let said = lent::terms_for(session, session::is_modem(context.side));
    let held = lent::locks(session);
    let locks = lent::places(session);
    let told = modes::mode(context, said, held, locks, image, mode, content);
    Answered::from(told)
}

pub fn vs_start_up_lent(
    context: Context,
    image: &mut [u8],
    session: &mut [u8; lent::SESSION],
    content: &mut [u8; layout::CONTENT],
) -> Answered
    ensures { (result ≡ numbers_of (outcome context (start_up_plan (session_of session.old).setup image.old) image.old))
        × (session_of session.new ≡ fresh_session (session_of session.old).setup)
        × (image.new ≡ image_after context (start_up_plan (session_of session.old).setup image.old) image.old)
        × Kept (start_up_plan (session_of session.old).setup image.old) content.old content.new }
{
    let share = lent::share(session);
    let records = lent::records(session);
    let tenant = lent::tenant(session);
    lent::renew(session);
    let told = engine::start::start_up(context, share, records, tenant, image, content);
    Answered::from(told)
}

pub fn vs_plan_start_up_lent(
    session: &[u8; lent::SESSION],
    image: &[u8],
    content: &mut [u8; layout::CONTENT],
) -> HostPlan
    ensures { StartUpPlanned (session_of session.now).setup image.now content.new result
        × Kept (start_up_plan (session_of session.now).setup image.now) content.old content.new
        × Numbered (start_up_plan (session_of session.now).setup image.now) image.now content.old content.new result }
{
    let share = lent::share(session);
    let records = lent::records(session);
    let tenant = lent::tenant(session);
    let told = engine::start::plan_start_up(share, records, tenant, image, content);
    plan::in_numbers(told)
}

pub fn vs_plan_set_lent(
    session: &[u8; lent::SESSION],
    side: u32,
    image: &[u8],
    name: &[u8],
    vendor: &[u8; 16],
    attributes: u32,
    bytes: &[u8],
    presence: u32,
    verdict: u32,
    content: &mut [u8; layout::CONTENT],
) -> HostPlan
    ensures { PlannedFor
        (book.set (is_modem_def side) (session_of session.now) (request_of name.now vendor.now attributes bytes.now presence verdict))
        image.now
        content.new
        result
        × Kept
        (set_plan (is_modem_def side) (session_of session.now) (request_of name.now vendor.now attributes bytes.now presence verdict) image.now)
        content.old
        content.new
        × Numbered
        (set_plan (is_modem_def side) (session_of session.now) (request_of name.now vendor.now attributes bytes.now presence verdict) image.now)
        image.now
        content.old
        content.new
        result }
{
    let terms = lent::terms(session, session::is_modem(side), name, vendor);
    let limits = lent::limits(session);
    let asking = Asking {
        attributes,
        presence,
        verdict,
    };
    let told = engine::write::plan_set(terms, limits, image, name, vendor, asking, bytes, content);
    plan::in_numbers(told)
}

pub fn vs_plan_profile_lent(
    session: &[u8; lent::SESSION],
    side: u32,
    image: &[u8],
    file: &[u8],
    content: &mut [u8; layout::CONTENT],
) -> HostPlan
    ensures { PlannedFor (book.profile (is_modem_def side) (session_of session.now) file.now) image.now content.new result
        × Kept
        (profile_plan (is_modem_def side) (session_of session.now) file.now image.now)
        content.old
        content.new
        × Numbered
        (profile_plan (is_modem_def side) (session_of session.now) file.now image.now)
        image.now
        content.old
        content.new
        result }
{
    let said = lent::terms_for(session, session::is_modem(side));
    let held = lent::locks(session);
    let locks = lent::places(session);
    let limits = lent::limits(session);
    let told = engine::items::plan_profile(said, held, locks, limits, image, file, content);
    plan::in_numbers(told)
}

pub fn vs_plan_mode_lent(
    session: &[u8; lent::SESSION],
    side: u32,
    image: &[u8],
    mode: u32,
    content: &mut [u8; layout::CONTENT],
) -> HostPlan
    ensures { PlannedFor (book.mode (is_modem_def side) (session_of session.now) mode) image.now content.new result
        × Kept
        (mode_plan (is_modem_def side) (session_of session.now) mode image.now)
        content.old
        content.new
        × Numbered
        (mode_plan (is_modem_def side) (session_of session.now) mode image.now)
        image.now
        content.old
        content.new
        result }
{
    let said = lent::terms_for(session, session::is_modem(side));
    let held = lent::locks(session);
    let locks = lent::places(session);
    let told = modes::plan_mode(said, held, locks, image, mode, content);
    plan::in_numbers(told)
}

pub fn vs_query_lent(
    context: Context,
    session: &[u8; lent::SESSION],
    image: &[u8],
    attributes: u32,
) -> Room
    ensures { (result.answer ≡ numbers_of (query_outcome (at_runtime_def (session_of session.now)) attributes image.now))
        × (result.storage ≡ query_gives (at_runtime_def (session_of session.now)) attributes image.now
        (storage_for (terms_for_def (side_of context) (session_of session.now)) (record_bit attributes) (region_size image.now)))
        × (result.remaining ≡ query_gives (at_runtime_def (session_of session.now)) attributes image.now
        (remaining_for (terms_for_def (side_of context) (session_of session.now)) (record_bit attributes)
        (region_size image.now) (values_of image.now)))
        × (result.largest ≡ query_gives (at_runtime_def (session_of session.now)) attributes image.now
        (largest_for
        (remaining_for (terms_for_def (side_of context) (session_of session.now)) (record_bit attributes)
        (region_size image.now) (values_of image.now)))) }
{
    let terms = lent::terms_for(session, session::is_modem(context.side));
    Room::from(engine::room::query(terms, image, attributes))
}

// A lock of ours over a mutable `Session`: not exported, since it copies the session. A host has `vs_lock_lent`, of either side, over the session's bytes.
pub fn lock_over(session: &mut Session, name: &[u8], vendor: &[u8; 16]) -> Answered
    ensures { (result ≡ numbers_of (lock_outcome false session.old (keyed name.now vendor.now)))
        × (session.new ≡ lock_session false session.old (keyed name.now vendor.now)) }
{
    let l = vs_lock(*session, 0, name, vendor);
    *session = l.session;
    l.answer
}
