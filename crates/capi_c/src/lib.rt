// The C interface: each call of capi, exported under its name, with the same clauses.
#![tactic(auto)]

ghost use Rattle.std.specs.Prelude.{◌≡◌};
ghost use Rattle.model.specs.Layout.{authenticated, plain};
ghost use Rattle.model.specs.Name.{keyed};
ghost use Rattle.model.specs.Image.{region_size};
ghost use Rattle.model.specs.Region.{record_bit, values_of};
ghost use Rattle.model.specs.Session.{is_modem_def, at_runtime_def, fresh_session, moved_to_def};
ghost use Rattle.model.specs.Rules.{terms_for_def};
ghost use Rattle.model.specs.Query.{storage_for, remaining_for, largest_for, query_outcome, query_gives};
ghost use Rattle.model.specs.StartUp.{start_up_plan, format_plan};
ghost use Rattle.model.specs.Beside.{Gives, asked, Handed};
ghost use Rattle.model.specs.Answers.{side_of, outcome, image_after, get_reply, gets_reply, next_reply, lock_outcome, lock_session};
ghost use Rattle.model.specs.Move.{move_answer, image_moved};
ghost use Rattle.model.specs.Lent.{session_of};
ghost use Rattle.decision.specs.Decision.{request_of};
ghost use Rattle.model.specs.Book as book;
ghost use Rattle.model.specs.Book.{set_plan, get_plan, gets_plan, next_plan, profile_plan, mode_plan};
ghost use Rattle.recovery.specs.Host.{StartUpPlanned, PlannedFor};
ghost use Rattle.plan.specs.Planned.{Kept};
ghost use Rattle.plan.specs.Told.{Told};
ghost use Rattle.plan.specs.Numbers.{Numbered};
ghost use Rattle.capi.specs.Numbers.{numbers_of, checked_of, present_of};

use capi::{Answered, Checked, Listed, Present, Reply, Room, Started};
use model::{Context, Session, Setup};
use plan::HostPlan;
use session::lent;

#[unsafe(no_mangle)]
pub extern "C" fn vs_check(image: &[u8]) -> Checked
    ensures { result ≡ checked_of image.now }
{
    capi::vs_check(image)
}

#[unsafe(no_mangle)]
pub extern "C" fn vs_present_mode(image: &[u8]) -> Present
    ensures { result ≡ present_of image.now }
{
    capi::vs_present_mode(image)
}

#[unsafe(no_mangle)]
pub extern "C" fn vs_query(
    context: Context,
    session: Session,
    image: &[u8],
    attributes: u32,
) -> Room
    ensures { (result.answer ≡ numbers_of (query_outcome (at_runtime_def session) attributes image.now))
        × (result.storage ≡ query_gives (at_runtime_def session) attributes image.now
        (storage_for (terms_for_def (side_of context) session) (record_bit attributes) (region_size image.now)))
        × (result.remaining ≡ query_gives (at_runtime_def session) attributes image.now
        (remaining_for (terms_for_def (side_of context) session) (record_bit attributes) (region_size image.now) (values_of image.now)))
        × (result.largest ≡ query_gives (at_runtime_def session) attributes image.now
        (largest_for
        (remaining_for (terms_for_def (side_of context) session) (record_bit attributes) (region_size image.now) (values_of image.now)))) }
{
    capi::vs_query(context, session, image, attributes)
}

#[unsafe(no_mangle)]
pub extern "C" fn vs_session_new(setup: Setup) -> Session
    ensures { result ≡ fresh_session setup }
{
    capi::vs_session_new(setup)
}

#[unsafe(no_mangle)]
pub extern "C" fn vs_phase(session: Session, phase: u32) -> Session
    ensures { result ≡ moved_to_def session phase }
{
    capi::vs_phase(session, phase)
}

#[unsafe(no_mangle)]
pub extern "C" fn vs_lock(session: Session, side: u32, name: &[u8], vendor: &[u8; 16]) -> Listed
    ensures { (result.answer ≡ numbers_of (lock_outcome (is_modem_def side) session (keyed name.now vendor.now)))
        × (result.session ≡ lock_session (is_modem_def side) session (keyed name.now vendor.now)) }
{
    capi::vs_lock(session, side, name, vendor)
}

#[unsafe(no_mangle)]
pub extern "C" fn vs_get(
    context: Context,
    session: Session,
    image: &[u8],
    name: &[u8],
    vendor: &[u8; 16],
    buffer: &mut [u8],
) -> Reply
    ensures { (result.answer
        ≡ numbers_of (outcome context
        (get_plan (side_of context) session (keyed name.now vendor.now) buffer.old image.now)
        image.now))
        × Gives
        (get_reply (side_of context) session (keyed name.now vendor.now) buffer.old image.now)
        result.size result.attributes result.needed buffer.new }
{
    capi::vs_get(context, session, image, name, vendor, buffer)
}

#[unsafe(no_mangle)]
pub extern "C" fn vs_get_many(
    context: Context,
    session: Session,
    image: &[u8],
    keys: &[u8],
    sizes: &[u32],
    told: &mut [u32; 256],
    buffer: &mut [u8],
) -> Answered
    ensures { (result
        ≡ numbers_of (outcome context
        (gets_plan (side_of context) session (asked keys.now sizes.now) buffer.old image.now)
        image.now))
        × Handed
        (gets_reply (side_of context) session (asked keys.now sizes.now) buffer.old image.now)
        told.old told.new buffer.new }
{
    capi::vs_get_many(context, session, image, keys, sizes, told, buffer)
}

#[unsafe(no_mangle)]
pub extern "C" fn vs_next_name(
    context: Context,
    session: Session,
    image: &[u8],
    name: &[u8],
    vendor: &[u8; 16],
    buffer: &mut [u8],
) -> Reply
    ensures { (result.answer
        ≡ numbers_of (outcome context
        (next_plan (side_of context) session (keyed name.now vendor.now) buffer.old image.now)
        image.now))
        × Gives
        (next_reply (side_of context) session (keyed name.now vendor.now) buffer.old image.now)
        result.size result.attributes result.needed buffer.new }
{
    capi::vs_next_name(context, session, image, name, vendor, buffer)
}

#[unsafe(no_mangle)]
pub extern "C" fn vs_set(
    context: Context,
    session: Session,
    image: &mut [u8],
    name: &[u8],
    vendor: &[u8; 16],
    attributes: u32,
    bytes: &[u8],
    presence: u32,
    verdict: u32,
    content: &mut [u8; layout::CONTENT],
) -> Answered
    ensures { (result
        ≡ numbers_of (outcome context
        (set_plan (side_of context) session (request_of name.now vendor.now attributes bytes.now presence verdict) image.old)
        image.old))
        × (image.new
        ≡ image_after context
        (set_plan (side_of context) session (request_of name.now vendor.now attributes bytes.now presence verdict) image.old)
        image.old)
        × Kept
        (set_plan (side_of context) session (request_of name.now vendor.now attributes bytes.now presence verdict) image.old)
        content.old
        content.new }
{
    capi::vs_set(
        context, session, image, name, vendor, attributes, bytes, presence, verdict, content,
    )
}

#[unsafe(no_mangle)]
pub extern "C" fn vs_profile(
    context: Context,
    session: Session,
    image: &mut [u8],
    file: &[u8],
    content: &mut [u8; layout::CONTENT],
) -> Answered
    ensures { (result ≡ numbers_of (outcome context (profile_plan (side_of context) session file.now image.old) image.old))
        × (image.new ≡ image_after context (profile_plan (side_of context) session file.now image.old) image.old)
        × Kept (profile_plan (side_of context) session file.now image.old) content.old content.new }
{
    capi::vs_profile(context, session, image, file, content)
}

#[unsafe(no_mangle)]
pub extern "C" fn vs_mode(
    context: Context,
    session: Session,
    image: &mut [u8],
    mode: u32,
    content: &mut [u8; layout::CONTENT],
) -> Answered
    ensures { (result ≡ numbers_of (outcome context (mode_plan (side_of context) session mode image.old) image.old))
        × (image.new ≡ image_after context (mode_plan (side_of context) session mode image.old) image.old)
        × Kept (mode_plan (side_of context) session mode image.old) content.old content.new }
{
    capi::vs_mode(context, session, image, mode, content)
}

#[unsafe(no_mangle)]
pub extern "C" fn vs_format(
    context: Context,
    image: &mut [u8],
    content: &mut [u8; layout::CONTENT],
) -> Answered
    ensures { (result ≡ numbers_of (outcome context (format_plan image.old) image.old))
        × (image.new ≡ image_after context (format_plan image.old) image.old)
        × Kept (format_plan image.old) content.old content.new }
{
    capi::vs_format(context, image, content)
}

#[unsafe(no_mangle)]
pub extern "C" fn vs_start_up(
    context: Context,
    image: &mut [u8],
    setup: Setup,
    content: &mut [u8; layout::CONTENT],
) -> Started
    ensures { (result.answer ≡ numbers_of (outcome context (start_up_plan setup image.old) image.old))
        × (result.session ≡ fresh_session setup)
        × (image.new ≡ image_after context (start_up_plan setup image.old) image.old)
        × Kept (start_up_plan setup image.old) content.old content.new }
{
    capi::vs_start_up(context, image, setup, content)
}

#[unsafe(no_mangle)]
pub extern "C" fn vs_plan_set(
    session: Session,
    side: u32,
    image: &[u8],
    name: &[u8],
    vendor: &[u8; 16],
    attributes: u32,
    bytes: &[u8],
    presence: u32,
    verdict: u32,
    content: &mut [u8; layout::CONTENT],
) -> HostPlan
    ensures { PlannedFor
        (book.set (is_modem_def side) session (request_of name.now vendor.now attributes bytes.now presence verdict))
        image.now
        content.new
        result
        × Kept
        (set_plan (is_modem_def side) session (request_of name.now vendor.now attributes bytes.now presence verdict) image.now)
        content.old
        content.new
        × Numbered
        (set_plan (is_modem_def side) session (request_of name.now vendor.now attributes bytes.now presence verdict) image.now)
        image.now
        content.old
        content.new
        result }
{
    capi::vs_plan_set(
        session, side, image, name, vendor, attributes, bytes, presence, verdict, content,
    )
}

#[unsafe(no_mangle)]
pub extern "C" fn vs_plan_profile(
    session: Session,
    side: u32,
    image: &[u8],
    file: &[u8],
    content: &mut [u8; layout::CONTENT],
) -> HostPlan
    ensures { PlannedFor (book.profile (is_modem_def side) session file.now) image.now content.new result
        × Kept (profile_plan (is_modem_def side) session file.now image.now) content.old content.new
        × Numbered (profile_plan (is_modem_def side) session file.now image.now) image.now content.old content.new result }
{
    capi::vs_plan_profile(session, side, image, file, content)
}

#[unsafe(no_mangle)]
pub extern "C" fn vs_plan_mode(
    session: Session,
    side: u32,
    image: &[u8],
    mode: u32,
    content: &mut [u8; layout::CONTENT],
) -> HostPlan
    ensures { PlannedFor (book.mode (is_modem_def side) session mode) image.now content.new result
        × Kept (mode_plan (is_modem_def side) session mode image.now) content.old content.new
        × Numbered (mode_plan (is_modem_def side) session mode image.now) image.now content.old content.new result }
{
    capi::vs_plan_mode(session, side, image, mode, content)
}

#[unsafe(no_mangle)]
pub extern "C" fn vs_plan_start_up(
    image: &[u8],
    setup: Setup,
    content: &mut [u8; layout::CONTENT],
) -> HostPlan
    ensures { StartUpPlanned setup image.now content.new result
        × Kept (start_up_plan setup image.now) content.old content.new
        × Numbered (start_up_plan setup image.now) image.now content.old content.new result }
{
    capi::vs_plan_start_up(image, setup, content)
}

#[unsafe(no_mangle)]
pub extern "C" fn vs_plan_format(image: &[u8], content: &mut [u8; layout::CONTENT]) -> HostPlan
    ensures { Told (format_plan image.now) content.new result
        × Kept (format_plan image.now) content.old content.new
        × Numbered (format_plan image.now) image.now content.old content.new result }
{
    capi::vs_plan_format(image, content)
}

#[unsafe(no_mangle)]
pub extern "C" fn vs_from_plain(image: &[u8], target: &mut [u8]) -> Answered
    ensures { (result ≡ numbers_of (move_answer plain authenticated image.now target.old))
        × (target.new ≡ image_moved plain authenticated image.now target.old) }
{
    capi::vs_from_plain(image, target)
}

#[unsafe(no_mangle)]
pub extern "C" fn vs_to_plain(image: &[u8], target: &mut [u8]) -> Answered
    ensures { (result ≡ numbers_of (move_answer authenticated plain image.now target.old))
        × (target.new ≡ image_moved authenticated plain image.now target.old) }
{
    capi::vs_to_plain(image, target)
}

#[unsafe(no_mangle)]
pub extern "C" fn vs_session_fresh(session: &mut [u8; lent::SESSION])
    ensures { session_of session.new ≡ fresh_session (session_of session.old).setup }
{
    capi::vs_session_fresh(session);
}

#[unsafe(no_mangle)]
pub extern "C" fn vs_phase_lent(session: &mut Session, phase: u32)
    ensures { session.new ≡ moved_to_def session.old phase }
{
    capi::vs_phase_lent(session, phase);
}

#[unsafe(no_mangle)]
pub extern "C" fn vs_lock_lent(
    session: &mut [u8; lent::SESSION],
    side: u32,
    name: &[u8],
    vendor: &[u8; 16],
) -> Answered
    ensures { (result ≡ numbers_of (lock_outcome (is_modem_def side) (session_of session.old) (keyed name.now vendor.now)))
        × (session_of session.new ≡ lock_session (is_modem_def side) (session_of session.old) (keyed name.now vendor.now)) }
{
    capi::vs_lock_lent(session, side, name, vendor)
}

#[unsafe(no_mangle)]
pub extern "C" fn vs_get_lent(
    context: Context,
    session: &[u8; lent::SESSION],
    image: &[u8],
    name: &[u8],
    vendor: &[u8; 16],
    buffer: &mut [u8],
) -> Reply
    ensures { (result.answer
        ≡ numbers_of (outcome context
        (get_plan (side_of context) (session_of session.now) (keyed name.now vendor.now) buffer.old image.now)
        image.now))
        × Gives
        (get_reply (side_of context) (session_of session.now) (keyed name.now vendor.now) buffer.old image.now)
        result.size result.attributes result.needed buffer.new }
{
    capi::vs_get_lent(context, session, image, name, vendor, buffer)
}

#[unsafe(no_mangle)]
pub extern "C" fn vs_get_many_lent(
    context: Context,
    session: &[u8; lent::SESSION],
    image: &[u8],
    keys: &[u8],
    sizes: &[u32],
    told: &mut [u32; 256],
    buffer: &mut [u8],
) -> Answered
    ensures { (result
        ≡ numbers_of (outcome context
        (gets_plan (side_of context) (session_of session.now) (asked keys.now sizes.now) buffer.old image.now)
        image.now))
        × Handed
        (gets_reply (side_of context) (session_of session.now) (asked keys.now sizes.now) buffer.old image.now)
        told.old told.new buffer.new }
{
    capi::vs_get_many_lent(context, session, image, keys, sizes, told, buffer)
}

#[unsafe(no_mangle)]
pub extern "C" fn vs_next_name_lent(
    context: Context,
    session: &[u8; lent::SESSION],
    image: &[u8],
    name: &[u8],
    vendor: &[u8; 16],
    buffer: &mut [u8],
) -> Reply
    ensures { (result.answer
        ≡ numbers_of (outcome context
        (next_plan (side_of context) (session_of session.now) (keyed name.now vendor.now) buffer.old image.now)
        image.now))
        × Gives
        (next_reply (side_of context) (session_of session.now) (keyed name.now vendor.now) buffer.old image.now)
        result.size result.attributes result.needed buffer.new }
{
    capi::vs_next_name_lent(context, session, image, name, vendor, buffer)
}

#[unsafe(no_mangle)]
pub extern "C" fn vs_set_lent(
    context: Context,
    session: &[u8; lent::SESSION],
    image: &mut [u8],
    name: &[u8],
    vendor: &[u8; 16],
    attributes: u32,
    bytes: &[u8],
    presence: u32,
    verdict: u32,
    content: &mut [u8; layout::CONTENT],
) -> Answered
    ensures { (result
        ≡ numbers_of (outcome context
        (set_plan (side_of context) (session_of session.now) (request_of name.now vendor.now attributes bytes.now presence verdict) image.old)
        image.old))
        × (image.new
        ≡ image_after context
        (set_plan (side_of context) (session_of session.now) (request_of name.now vendor.now attributes bytes.now presence verdict) image.old)
        image.old)
        × Kept
        (set_plan (side_of context) (session_of session.now) (request_of name.now vendor.now attributes bytes.now presence verdict) image.old)
        content.old
        content.new }
{
    capi::vs_set_lent(
        context, session, image, name, vendor, attributes, bytes, presence, verdict, content,
    )
}

#[unsafe(no_mangle)]
pub extern "C" fn vs_profile_lent(
    context: Context,
    session: &[u8; lent::SESSION],
    image: &mut [u8],
    file: &[u8],
    content: &mut [u8; layout::CONTENT],
) -> Answered
    ensures { (result
        ≡ numbers_of (outcome context (profile_plan (side_of context) (session_of session.now) file.now image.old) image.old))
        × (image.new
        ≡ image_after context (profile_plan (side_of context) (session_of session.now) file.now image.old) image.old)
        × Kept
        (profile_plan (side_of context) (session_of session.now) file.now image.old)
        content.old
        content.new }
{
    capi::vs_profile_lent(context, session, image, file, content)
}

#[unsafe(no_mangle)]
pub extern "C" fn vs_mode_lent(
    context: Context,
    session: &[u8; lent::SESSION],
    image: &mut [u8],
    mode: u32,
    content: &mut [u8; layout::CONTENT],
) -> Answered
    ensures { (result
        ≡ numbers_of (outcome context (mode_plan (side_of context) (session_of session.now) mode image.old) image.old))
        × (image.new
        ≡ image_after context (mode_plan (side_of context) (session_of session.now) mode image.old) image.old)
        × Kept
        (mode_plan (side_of context) (session_of session.now) mode image.old)
        content.old
        content.new }
{
    capi::vs_mode_lent(context, session, image, mode, content)
}

#[unsafe(no_mangle)]
pub extern "C" fn vs_start_up_lent(
    context: Context,
    image: &mut [u8],
    session: &mut [u8; lent::SESSION],
    content: &mut [u8; layout::CONTENT],
) -> Answered
    ensures { (result ≡ numbers_of (outcome context (start_up_plan (session_of session.old).setup image.old) image.old))
        × (session_of session.new ≡ fresh_session (session_of session.old).setup)
        × (image.new ≡ image_after context (start_up_plan (session_of session.old).setup image.old) image.old)
        × Kept (start_up_plan (session_of session.old).setup image.old) content.old content.new }
{
    capi::vs_start_up_lent(context, image, session, content)
}

#[unsafe(no_mangle)]
pub extern "C" fn vs_plan_start_up_lent(
    session: &[u8; lent::SESSION],
    image: &[u8],
    content: &mut [u8; layout::CONTENT],
) -> HostPlan
    ensures { StartUpPlanned (session_of session.now).setup image.now content.new result
        × Kept (start_up_plan (session_of session.now).setup image.now) content.old content.new
        × Numbered (start_up_plan (session_of session.now).setup image.now) image.now content.old content.new result }
{
    capi::vs_plan_start_up_lent(session, image, content)
}

#[unsafe(no_mangle)]
pub extern "C" fn vs_plan_set_lent(
    session: &[u8; lent::SESSION],
    side: u32,
    image: &[u8],
    name: &[u8],
    vendor: &[u8; 16],
    attributes: u32,
    bytes: &[u8],
    presence: u32,
    verdict: u32,
    content: &mut [u8; layout::CONTENT],
) -> HostPlan
    ensures { PlannedFor
        (book.set (is_modem_def side) (session_of session.now) (request_of name.now vendor.now attributes bytes.now presence verdict))
        image.now
        content.new
        result
        × Kept
        (set_plan (is_modem_def side) (session_of session.now) (request_of name.now vendor.now attributes bytes.now presence verdict) image.now)
        content.old
        content.new
        × Numbered
        (set_plan (is_modem_def side) (session_of session.now) (request_of name.now vendor.now attributes bytes.now presence verdict) image.now)
        image.now
        content.old
        content.new
        result }
{
    capi::vs_plan_set_lent(
        session, side, image, name, vendor, attributes, bytes, presence, verdict, content,
    )
}

#[unsafe(no_mangle)]
pub extern "C" fn vs_plan_profile_lent(
    session: &[u8; lent::SESSION],
    side: u32,
    image: &[u8],
    file: &[u8],
    content: &mut [u8; layout::CONTENT],
) -> HostPlan
    ensures { PlannedFor (book.profile (is_modem_def side) (session_of session.now) file.now) image.now content.new result
        × Kept
        (profile_plan (is_modem_def side) (session_of session.now) file.now image.now)
        content.old
        content.new
        × Numbered
        (profile_plan (is_modem_def side) (session_of session.now) file.now image.now)
        image.now
        content.old
        content.new
        result }
{
    capi::vs_plan_profile_lent(session, side, image, file, content)
}

#[unsafe(no_mangle)]
pub extern "C" fn vs_plan_mode_lent(
    session: &[u8; lent::SESSION],
    side: u32,
    image: &[u8],
    mode: u32,
    content: &mut [u8; layout::CONTENT],
) -> HostPlan
    ensures { PlannedFor (book.mode (is_modem_def side) (session_of session.now) mode) image.now content.new result
        × Kept
        (mode_plan (is_modem_def side) (session_of session.now) mode image.now)
        content.old
        content.new
        × Numbered
        (mode_plan (is_modem_def side) (session_of session.now) mode image.now)
        image.now
        content.old
        content.new
        result }
{
    capi::vs_plan_mode_lent(session, side, image, mode, content)
}

#[unsafe(no_mangle)]
pub extern "C" fn vs_query_lent(
    context: Context,
    session: &[u8; lent::SESSION],
    image: &[u8],
    attributes: u32,
) -> Room
    ensures { (result.answer ≡ numbers_of (query_outcome (at_runtime_def (session_of session.now)) attributes image.now))
        × (result.storage ≡ query_gives (at_runtime_def (session_of session.now)) attributes image.now
        (storage_for (terms_for_def (side_of context) (session_of session.now)) (record_bit attributes) (region_size image.now)))
        × (result.remaining ≡ query_gives (at_runtime_def (session_of session.now)) attributes image.now
        (remaining_for (terms_for_def (side_of context) (session_of session.now)) (record_bit attributes)
        (region_size image.now) (values_of image.now)))
        × (result.largest ≡ query_gives (at_runtime_def (session_of session.now)) attributes image.now
        (largest_for
        (remaining_for (terms_for_def (side_of context) (session_of session.now)) (record_bit attributes)
        (region_size image.now) (values_of image.now)))) }
{
    capi::vs_query_lent(context, session, image, attributes)
}
