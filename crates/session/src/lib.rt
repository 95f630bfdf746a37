// What a session says to a call, by its parts: its phase, its locks, and what is a side's; and the lock call.
#![tactic(auto)]

ghost use Rattle.std.specs.Prelude.{◌≡◌, cond, ◌≤◌, ◌<◌, eqb};
ghost use Rattle.model.specs.Name.{keyed};
ghost use Rattle.model.specs.Session.{counted_phase, counted_reserve, is_modem_def};
ghost use Rattle.model.specs.Answers.{answer_of, lock_outcome, lock_session};
ghost use Rattle.model.specs.Beside.{one_more_lock};
ghost use Rattle.session.specs.Places.{holds, held_from, sides, count_from, full};
ghost use Rattle.session.specs.Said.{barred_by, terms_by, terms_with, view_by, lock_judged};

use layout::fixed;
use model::{Answer, Listed, Rule, Session, Tenant, Terms, View};

pub mod lent;

// Whether a side's number is the modem's: 1 is, any other is ours.
pub fn is_modem(side: u32) -> bool
    ensures { result ≡ is_modem_def side }
{
    side == 1
}

// Whether the phase is boot.
pub fn in_boot(phase: u32) -> bool
    ensures { result ≡ eqb (counted_phase phase) 0 }
{
    phase == 0
}

// Whether the phase is runtime: 2, and any number above it.
pub fn at_runtime(phase: u32) -> bool
    ensures { result ≡ eqb (counted_phase phase) 2 }
{
    2 <= phase
}

// The bytes kept back: R at runtime, at most 4,096, else none.
fn reserved(phase: u32, reserve: u32) -> u32
    ensures { (result ≡ cond (eqb (counted_phase phase) 2) (counted_reserve reserve) 0) × (result ≤ 4096) }
{
    if phase < 2 {
        return 0;
    }
    reserve.min(model::LARGEST_RESERVE)
}

// The phase and a lock list, but for its bytes: how many places are in use, and the sizes of their names.
#[derive(Clone, Copy)]
pub struct Locks {
    pub phase: u32,
    pub used: u32,
    pub sizes: [u32; 16],
}

// Whether a place of the lock list holds a name: well formed, and the same name and GUID. A listed name that is not well formed locks nothing.
fn is_place(locks: &[u8], place: usize, size: usize, name: &[u8], vendor: &[u8]) -> bool
    requires { place < 16 }
    ensures { result ≡ holds locks.now place size (keyed name.now vendor.now) }
{
    let at = 144 * place;
    let listed = slices::cut(locks, at, size);
    if !slices::is_named(listed) {
        return false;
    }
    if !slices::equal(listed, name) {
        return false;
    }
    let guid = slices::cut(locks, at + slices::LONGEST_NAME, 16);
    slices::equal(guid, vendor)
}

// Whether a name is locked: one of the places in use of a lock list holds it. A count above 16 is 16.
fn is_locked(used: u32, sizes: [u32; 16], locks: &[u8], name: &[u8], vendor: &[u8; 16]) -> bool
    ensures { result ≡ held_from sizes locks.now used (keyed name.now vendor.now) 0 }
{
    let count = used as usize;
    for i in 0..count.min(16) {
        if is_place(locks, i, sizes[i] as usize, name, vendor) {
            return true;
        }
    }
    false
}

// Rule 6: the name is locked and the phase is not boot. In the boot phase the list is not looked through.
pub fn is_barred(
    phase: u32,
    used: u32,
    sizes: [u32; 16],
    locks: &[u8],
    name: &[u8],
    vendor: &[u8; 16],
) -> bool
    ensures { result ≡ barred_by phase used sizes locks.now (keyed name.now vendor.now) }
{
    if in_boot(phase) {
        return false;
    }
    is_locked(used, sizes, locks, name, vendor)
}

// Whether a place of the lock list holds a name of a side: well formed, and its own.
fn is_sides(guid: &[u8; 16], modem: bool, locks: &[u8], place: usize, size: usize) -> bool
    requires { place < 16 }
    ensures { result ≡ sides guid.now modem locks.now place size }
{
    let at = 144 * place;
    let name = slices::cut(locks, at, size);
    if !slices::is_named(name) {
        return false;
    }
    let vendor = slices::cut(locks, at + slices::LONGEST_NAME, 16);
    fixed::is_own(guid, modem, name, vendor)
}

// How many places in use hold names of a side. A count above 16 is 16.
fn locks_of(guid: &[u8; 16], modem: bool, used: u32, sizes: [u32; 16], locks: &[u8]) -> usize
    ensures { result ≡ count_from guid.now modem sizes locks.now used 0 }
{
    let most = used as usize;
    let mut n = 0;
    for place in 0..most.min(16) {
        n += usize::from(is_sides(guid, modem, locks, place, sizes[place] as usize));
    }
    n
}

// Whether a side finds no place: it has eight, or none is free.
fn is_full(guid: &[u8; 16], modem: bool, used: u32, sizes: [u32; 16], locks: &[u8]) -> bool
    ensures { result ≡ full guid.now modem sizes locks.now used }
{
    16 <= used || 8 <= locks_of(guid, modem, used, sizes, locks)
}

// Of a number for each side, a side's own.
fn of_side(modem: bool, theirs: u32, ours: u32) -> u32
    ensures { result ≡ cond modem theirs ours }
{
    if modem {
        return theirs;
    }
    ours
}

// What a session says to a call of a side that names no name, by its numbers: R and the share are ours; what is the modem's is the tenant's.
pub fn terms_for(
    modem: bool,
    phase: u32,
    custom: u32,
    reserve: u32,
    records: u32,
    share: u32,
    tenant: Tenant,
    rules: u32,
) -> Terms
    ensures { result ≡ terms_by modem phase custom reserve records share tenant rules }
{
    let own = of_side(modem, tenant.reserve, reserve);
    let vendor = tenant.vendor;
    Terms {
        runtime: at_runtime(phase),
        foreign: false,
        barred: false,
        custom: custom != 0,
        reserve: reserved(phase, own),
        share: of_side(modem, tenant.share, share),
        records,
        rules,
        modem,
        vendor,
    }
}

// And to a set of a name: the same, with whether the name is the other side's, and whether a lock bars it.
pub fn terms(t: Terms, barred: bool, name: &[u8], vendor: &[u8; 16]) -> Terms
    ensures { result ≡ terms_with t barred (keyed name.now vendor.now) }
{
    Terms {
        foreign: !fixed::is_own(&t.vendor, t.modem, name, vendor),
        barred,
        ..t
    }
}

// What a session says to a side's get and next-name: the GUID is the modem's.
pub fn view(modem: bool, phase: u32, vendor: [u8; 16]) -> View
    ensures { result ≡ view_by modem phase vendor }
{
    View {
        runtime: at_runtime(phase),
        modem,
        vendor,
    }
}

// What a side's lock comes to: the first rule that it breaks, of 3, 22, 15 and 16 in this order, or whether the name enters the list: one already listed is accepted, and does
// not enter again.
fn judged(
    modem: bool,
    phase: u32,
    used: u32,
    sizes: [u32; 16],
    locks: &[u8],
    guid: &[u8; 16],
    name: &[u8],
    vendor: &[u8; 16],
) -> Result<bool, Rule>
    ensures { result ≡ lock_judged modem phase used sizes locks.now guid.now (keyed name.now vendor.now) }
{
    let named = slices::is_named(name);
    let boot = in_boot(phase);
    if !named {
        return Err(Rule::Name);
    }
    if !fixed::is_own(guid, modem, name, vendor) {
        return Err(Rule::Side);
    }
    if !boot {
        return Err(Rule::LockPhase);
    }
    if is_locked(used, sizes, locks, name, vendor) {
        return Ok(false);
    }
    if is_full(guid, modem, used, sizes, locks) {
        return Err(Rule::LockSpace);
    }
    Ok(true)
}

// The same, of a session by value. The list is copied here: with a reference into the session the compiler would keep one more copy of the session.
fn comes_to(s: Session, modem: bool, name: &[u8], vendor: &[u8; 16]) -> Result<bool, Rule>
    ensures { result ≡ lock_judged modem s.phase s.count s.sizes s.locks s.setup.modem.vendor (keyed name.now vendor.now) }
{
    let guid = s.setup.modem.vendor;
    let sizes = s.sizes;
    let locks = s.locks;
    judged(modem, s.phase, s.count, sizes, &locks, &guid, name, vendor)
}

// The session with the name, if it enters.
fn entered(s: Session, enters: bool, name: &[u8], vendor: &[u8; 16]) -> Session
    ensures { result ≡ cond enters (one_more_lock s (keyed name.now vendor.now)) s }
{
    if enters {
        return s.with_lock(name, vendor);
    }
    s
}

// The lock call of a side: rules 3, 22, 15 and 16 in this order; a name already listed is accepted unchanged.
pub fn lock(s: Session, modem: bool, name: &[u8], vendor: &[u8; 16]) -> Listed
    ensures { (answer_of result.answer ≡ lock_outcome modem s (keyed name.now vendor.now))
        × (result.session ≡ lock_session modem s (keyed name.now vendor.now)) }
{
    let told = comes_to(s, modem, name, vendor);
    match told {
        Ok(enters) => Listed {
            answer: Answer::Done(0),
            session: entered(s, enters, name, vendor),
        },
        Err(rule) => Listed {
            answer: Answer::Refused(rule),
            session: s,
        },
    }
}
