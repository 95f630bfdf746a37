// A session in its host's memory, C's vs_session: what it says to a call, read where it is, and the fresh one and a lock made in place. Nothing of it is copied but numbers
// and the modem's GUID.
ghost use Rattle.std.specs.Prelude.{◌≡◌, cond, ◌≤◌, ◌<◌, length};
ghost use Rattle.std.proofs.lemmas.List.Edits.{sets};
ghost use Rattle.model.specs.Lists.{part, u32_at, numbers_at};
ghost use Rattle.model.specs.Name.{keyed};
ghost use Rattle.model.specs.Session.{is_yes, counted_reserve, place_bytes, fresh_session};
ghost use Rattle.model.specs.Rules.{terms_of, terms_for_def, view_of};
ghost use Rattle.model.specs.Answers.{answer_of, lock_outcome, lock_session};
ghost use Rattle.model.specs.Lent.{session_of};
ghost use Rattle.session.specs.Said.{barred_by, lock_judged};
ghost use Rattle.session.specs.Written.{number_bytes, enlisted};

use crate::Locks;
use model::{Answer, Rule, Tenant, Terms, View};
use std::array;

// The bytes of a session, and the offsets of its fields: those of the modem are in the midst of what a start-up is given.
pub const SESSION: usize = 9332;

const PHASE: usize = 0;

const CUSTOM: usize = 4;

const RESERVE: usize = 8;

const RECORDS: usize = 12;

const SHARE: usize = 16;

const MODEM_SHARE: usize = 20;

const MODEM_RESERVE: usize = 24;

const MODEM_VENDOR: usize = 28;

const RULES: usize = 44;

const LIMITS: usize = 48;

const COUNT: usize = 6960;

const SIZES: usize = 6964;

const LOCKS: usize = 7028;

// The name sizes of the places of the lock list.
fn sizes(s: &[u8]) -> [u32; 16]
    ensures { result ≡ numbers_at s.now 6964 16 }
{
    array::from_fn(|i| layout::u32_at(s, SIZES + 4 * i))
}

// Rule 6, of a name.
fn is_barred(s: &[u8], name: &[u8], vendor: &[u8; 16]) -> bool
    ensures { result ≡ barred_by (u32_at s.now 0) (u32_at s.now 6960) (numbers_at s.now 6964 16) (part 7028 2304 s.now)
        (keyed name.now vendor.now) }
{
    let sizes = sizes(s);
    crate::is_barred(
        layout::u32_at(s, PHASE),
        layout::u32_at(s, COUNT),
        sizes,
        slices::cut(s, LOCKS, 2304),
        name,
        vendor,
    )
}

// Its phase and its lock list.
pub fn locks(s: &[u8]) -> Locks
    ensures { (result.phase ≡ (session_of s.now).phase)
        × (result.used ≡ (session_of s.now).count)
        × (result.sizes ≡ (session_of s.now).sizes) }
{
    let sizes = sizes(s);
    Locks {
        phase: layout::u32_at(s, PHASE),
        used: layout::u32_at(s, COUNT),
        sizes,
    }
}

pub fn places(s: &[u8]) -> &[u8]
    ensures { result.now ≡ (session_of s.now).locks }
{
    slices::cut(s, LOCKS, 2304)
}

// The modem's GUID.
fn guid(s: &[u8; SESSION]) -> [u8; 16]
    ensures { result ≡ part 28 16 s.now }
{
    let mut guid = [0; 16];
    guid.copy_from_slice(slices::cut(s, MODEM_VENDOR, 16));
    guid
}

// What is the modem's: its share, its reserve and its GUID.
pub fn tenant(s: &[u8; SESSION]) -> Tenant
    ensures { result ≡ (session_of s.now).setup.modem }
{
    let vendor = guid(s);
    Tenant {
        share: layout::u32_at(s, MODEM_SHARE),
        reserve: layout::u32_at(s, MODEM_RESERVE),
        vendor,
    }
}

// What a session says to a call of a side that names no name.
pub fn terms_for(s: &[u8; SESSION], modem: bool) -> Terms
    ensures { result ≡ terms_for_def modem (session_of s.now) }
{
    let tenant = tenant(s);
    crate::terms_for(
        modem,
        layout::u32_at(s, PHASE),
        layout::u32_at(s, CUSTOM),
        layout::u32_at(s, RESERVE),
        layout::u32_at(s, RECORDS),
        layout::u32_at(s, SHARE),
        tenant,
        layout::u32_at(s, RULES),
    )
}

// And to a set of a name.
pub fn terms(s: &[u8; SESSION], modem: bool, name: &[u8], vendor: &[u8; 16]) -> Terms
    ensures { result ≡ terms_of modem (session_of s.now) (keyed name.now vendor.now) }
{
    let told = terms_for(s, modem);
    crate::terms(told, is_barred(s, name, vendor), name, vendor)
}

// Its table of rules for settings.
pub fn limits(s: &[u8]) -> &[u8]
    ensures { result.now ≡ (session_of s.now).setup.limits }
{
    slices::cut(s, LIMITS, 6912)
}

// What a session says to a side's get and next-name.
pub fn view(s: &[u8; SESSION], modem: bool) -> View
    ensures { result ≡ view_of modem (session_of s.now) }
{
    let vendor = guid(s);
    crate::view(modem, layout::u32_at(s, PHASE), vendor)
}

// What it says of room beside what is the modem's: H, and our share.
pub fn records(s: &[u8]) -> u32
    ensures { result ≡ (session_of s.now).setup.records }
{
    layout::u32_at(s, RECORDS)
}

pub fn share(s: &[u8]) -> u32
    ensures { result ≡ (session_of s.now).setup.share }
{
    layout::u32_at(s, SHARE)
}

// A number below 65,536 at its place.
fn put_number(s: &mut [u8; SESSION], at: usize, n: usize)
    requires { (at < 9332) × (n < 65536) }
    ensures { s.new ≡ sets s.old at (number_bytes n) }
{
    let bytes = [(n % 256) as u8, (n / 256) as u8, 0, 0];
    output::put_bytes(s, at, &bytes);
}

// Custom mode in its place as 0 or 1, and a reserve in its place as 4,096 if above.
fn keep_flag(s: &mut [u8; SESSION])
    ensures { s.new ≡ sets s.old 4 (number_bytes (cond (is_yes (u32_at s.old 4)) 1 0)) }
{
    let yes = usize::from(layout::u32_at(s, CUSTOM) != 0);
    put_number(s, CUSTOM, yes);
}

fn keep_reserve(s: &mut [u8; SESSION], at: usize)
    requires { at < 9332 }
    ensures { s.new ≡ sets s.old at (number_bytes (counted_reserve (u32_at s.old at))) }
{
    let kept = crate::reserved(2, layout::u32_at(s, at)) as usize;
    put_number(s, at, kept);
}

// The session that a start-up begins with, made in place of one that holds what the start-up is given.
pub fn renew(s: &mut [u8; SESSION])
    ensures { session_of s.new ≡ fresh_session (session_of s.old).setup }
{
    put_number(s, PHASE, 0);
    keep_flag(s);
    keep_reserve(s, RESERVE);
    keep_reserve(s, MODEM_RESERVE);
    output::put_fill(s, COUNT, 0, SESSION - COUNT);
}

// What a side's lock comes to.
fn comes_to(s: &[u8; SESSION], modem: bool, name: &[u8], vendor: &[u8; 16]) -> Result<bool, Rule>
    ensures { result ≡ lock_judged modem (u32_at s.now 0) (u32_at s.now 6960) (numbers_at s.now 6964 16)
        (part 7028 2304 s.now) (part 28 16 s.now) (keyed name.now vendor.now) }
{
    let guid = guid(s);
    let sizes = sizes(s);
    let locks = slices::cut(s, LOCKS, 2304);
    let phase = layout::u32_at(s, PHASE);
    let used = layout::u32_at(s, COUNT);
    crate::judged(modem, phase, used, sizes, locks, &guid, name, vendor)
}

// A name in a place of the lock list: the name, zeros up to 128 bytes, the GUID.
fn put_place(s: &mut [u8; SESSION], at: usize, name: &[u8], vendor: &[u8; 16])
    requires { (at < 9332) × (length name.now ≤ 128) }
    ensures { s.new ≡ sets s.old at (place_bytes (keyed name.now vendor.now)) }
{
    let next = output::put_bytes(s, at, name);
    let next = output::put_fill(s, next, 0, slices::LONGEST_NAME - name.len());
    output::put_bytes(s, next, vendor);
}

// One more lock: all bytes of the next place, its size and the count.
fn enlist(s: &mut [u8; SESSION], place: usize, name: &[u8], vendor: &[u8; 16])
    requires { (place < 16) × (length name.now ≤ 128) }
    ensures { s.new ≡ enlisted s.old place (keyed name.now vendor.now) }
{
    put_place(s, LOCKS + 144 * place, name, vendor);
    put_number(s, SIZES + 4 * place, name.len());
    put_number(s, COUNT, place + 1);
}

// The lock call of a side: rules 3, 22, 15 and 16 in this order; a name already listed is accepted unchanged.
pub fn lock(s: &mut [u8; SESSION], modem: bool, name: &[u8], vendor: &[u8; 16]) -> Answer
    ensures { (answer_of result ≡ lock_outcome modem (session_of s.old) (keyed name.now vendor.now))
        × (session_of s.new ≡ lock_session modem (session_of s.old) (keyed name.now vendor.now)) }
{
    let told = comes_to(s, modem, name, vendor);
    let enters = match told {
        Ok(enters) => enters,
        Err(rule) => return Answer::Refused(rule),
    };
    if enters {
        let place = layout::u32_at(s, COUNT) as usize;
        enlist(s, place, name, vendor);
    }
    Answer::Done(0)
}
