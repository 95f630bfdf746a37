// The platform's mode, and the decision on a mode request over a sound region: rules 22, 6, 24 and 13, in this order.
ghost use Rattle.std.specs.Prelude.{ℕ, ◌≡◌, true, ◌&&◌, ◌||◌, ◌≤◌, length};
ghost use Rattle.model.specs.Lists.{any};
ghost use Rattle.model.specs.Region.{sound, entries, values, added, replacing};
ghost use Rattle.model.specs.Request.{key_pk, key_mode, mode_of};
ghost use Rattle.model.specs.Change.{transition, mode_changes};
ghost use Rattle.model.specs.Rules.{first_broken, removes, rule24};
ghost use Rattle.values.specs.Found.{found_of};
ghost use Rattle.decision.specs.Parts.{judged_of, found_pk, found_mode, mode_by_def, offset_of};
ghost use Rattle.decision.specs.Modes.{barring, transition_rules, transition_of, lost_by, byte_of, transition_by};

use crate::{Change, joint, rules};
use layout::fixed;
use model::{PlatMode, Rule, Terms};
use region::Placed;
use session::Locks;
use values::{Places, lookup};

// The modes that a request may name, each by the byte that PlatMode stores, and the rounded size of PlatMode's entry.
pub(crate) const AUDIT: u8 = 2;

pub(crate) const DEPLOYED: u8 = 3;

pub(crate) const ENTRY: usize = 80;

// What a mode request comes to: the first broken rule or a put; the offset of PK's entry if that goes; the byte to store; and the places of PlatMode's entries.
#[derive(Clone, Copy)]
pub struct Transition {
    pub what: Result<Change, Rule>,
    pub pk: Option<usize>,
    pub byte: u8,
    pub places: Places,
}

// What is there of PK.
pub(crate) fn pk(region: &[u8]) -> Option<Placed>
    ensures { result ≡ found_pk region.now }
{
    let name = fixed::pk_name();
    let vendor = fixed::global_vendor();
    lookup::find(region, &name, &vendor)
}

// The offset of what was found.
pub fn offset(found: Option<Placed>) -> Option<usize>
    ensures { result ≡ offset_of found }
{
    found.map(|placed| placed.at)
}

// The mode by what is there: "a 2 beside a PK, a 3 without one .. count as absent".
fn mode_by(region: &[u8], pk: Option<Placed>, there: Option<Placed>) -> PlatMode
    requires { (pk ≡ found_pk region.now) × (there ≡ found_mode region.now) }
    ensures { result ≡ mode_by_def region.now }
{
    if pk.is_some() {
        if rules::stores(region, there, DEPLOYED) {
            return PlatMode::Deployed;
        }
        return PlatMode::User;
    }
    if rules::stores(region, there, AUDIT) {
        return PlatMode::Audit;
    }
    PlatMode::Setup
}

// The mode of a sound region.
pub fn present(region: &[u8]) -> PlatMode
    requires { sound region.now ≡ true }
    ensures { result ≡ mode_of (values (entries region.now)) }
{
    mode_by(region, pk(region), rules::platform(region))
}

// Whether PK is lost: "user to audit, losing PK".
fn loses(m: PlatMode, to: u32) -> bool
    ensures { result ≡ any removes (transition m to) }
{
    match m {
        PlatMode::User => to == u32::from(AUDIT),
        PlatMode::Setup => false,
        PlatMode::Audit => false,
        PlatMode::Deployed => false,
    }
}

// Rule 24: "another transition is requested".
fn another(m: PlatMode, to: u32) -> bool
    ensures { result ≡ rule24 (transition m to) }
{
    match m {
        PlatMode::Setup => to != u32::from(AUDIT),
        PlatMode::User => to != u32::from(AUDIT) && to != u32::from(DEPLOYED),
        PlatMode::Audit => true,
        PlatMode::Deployed => true,
    }
}

// The byte to store.
fn byte(to: u32) -> u8
    ensures { result ≡ byte_of to }
{
    if to == u32::from(AUDIT) {
        return AUDIT;
    }
    DEPLOYED
}

// Rule 6: "(PlatMode, and PK if lost)".
fn is_barred(held: Locks, locks: &[u8], lost: bool) -> bool
    ensures { result ≡ (barring held locks.now key_mode || (lost && barring held locks.now key_pk)) }
{
    let sizes = held.sizes;
    let vendor = fixed::global_vendor();
    let name = fixed::mode_name();
    let key = fixed::pk_name();
    session::is_barred(held.phase, held.used, sizes, locks, &name, &vendor)
        || lost && session::is_barred(held.phase, held.used, sizes, locks, &key, &vendor)
}

// Rules 22, 6 and 24 in a mode. PlatMode is ours.
fn judge(said: Terms, held: Locks, locks: &[u8], m: PlatMode, to: u32) -> Result<(), Rule>
    ensures { result ≡ judged_of (first_broken (transition_rules said (barring held locks.now) (transition m to))) }
{
    if said.modem {
        return Err(Rule::Side);
    }
    if is_barred(held, locks, loses(m, to)) {
        return Err(Rule::Locked);
    }
    if another(m, to) {
        return Err(Rule::Mode);
    }
    Ok(())
}

// What is there of PK, if it is lost.
fn lost(pk: Option<Placed>, m: PlatMode, to: u32) -> Option<Placed>
    ensures { result ≡ lost_by pk m to }
{
    if loses(m, to) {
        return pk;
    }
    None
}

// These rules and then 13, by what is there of PK, if it is lost, and of PlatMode.
fn roomed(
    said: Terms,
    held: Locks,
    locks: &[u8],
    region: &[u8],
    m: PlatMode,
    gone: Option<Placed>,
    there: Option<Placed>,
    to: u32,
) -> Result<Change, Rule>
    requires { (sound region.now ≡ true) × (length region.now ≤ 28672) × (m ≡ mode_by_def region.now)
        × (gone ≡ lost_by (found_pk region.now) m to) × (there ≡ found_mode region.now) }
    ensures { result ≡ transition_of said (barring held locks.now) to (length region.now) (values (entries region.now)) }
{
    judge(said, held, locks, m, to)?;
    joint::room(said, region, gone, there, ENTRY)?;
    Ok(Change::Put)
}

// The places of PlatMode's entries.
fn places(region: &[u8]) -> Places
    ensures { (result.added ≡ found_of (added key_mode (entries region.now)))
        × (result.replacing ≡ found_of (replacing key_mode (entries region.now))) }
{
    let name = fixed::mode_name();
    let vendor = fixed::global_vendor();
    lookup::places(region, &name, &vendor)
}

// The decision on a mode request: the first broken rule, or the changes by numbers.
pub fn decide(said: Terms, held: Locks, locks: &[u8], region: &[u8], to: u32) -> Transition
    requires { (sound region.now ≡ true) × (length region.now ≤ 28672) }
    ensures { (result.what ≡ transition_of said (barring held locks.now) to (length region.now) (values (entries region.now)))
        × (result.places.added ≡ found_of (added key_mode (entries region.now)))
        × (result.places.replacing ≡ found_of (replacing key_mode (entries region.now)))
        × (result.what ≡ Ok Change.Put → transition_by result.pk result.byte ≡ mode_changes to (values (entries region.now)))
        × ((at : ℕ) → result.pk ≡ Some at → offset_of (found_pk region.now) ≡ Some at)
        × (result.byte ≡ byte_of to) }
{
    let places = places(region);
    let there = lookup::standing(places);
    let pk = pk(region);
    let m = mode_by(region, pk, there);
    let gone = lost(pk, m, to);
    let what = roomed(said, held, locks, region, m, gone, there, to);
    Transition {
        what,
        pk: offset(gone),
        byte: byte(to),
        places,
    }
}
