// The decision on a set over a sound region: the first broken of rules 3 to 13, 17, 18, 21, 22 and 24, or what the set does to the values. That on a profile is in `items`.
#![tactic(auto)]

ghost use Rattle.std.specs.Prelude.{ℕ, ◌≡◌, true, cond, [], ◌++◌, ◌≤◌, length};
ghost use Rattle.std.proofs.Math.Option.{none};
ghost use Rattle.model.specs.Name.{keyed};
ghost use Rattle.model.specs.Region.{sound, entries, values, tail_at, added, replacing, standing, find};
ghost use Rattle.model.specs.Request.{wanted_verdicts, proper_of};
ghost use Rattle.model.specs.Limits.{limits_in};
ghost use Rattle.model.specs.Change.{new_value, change_in, beside_pk};
ghost use Rattle.model.specs.Rules.{first_broken, rule22};
ghost use Rattle.values.specs.Found.{found_of, else_found, old_data_def};
ghost use Rattle.policy.specs.Descriptor.{stamp_of_def};
ghost use Rattle.decision.specs.Decision.{request_of, item_of, tried_of, decision_of, broken_of, beside_by};
ghost use Rattle.decision.specs.Parts.{judged_of, stands, found_mode, mode_by_def, offset_of, standing_by, verdict_by, new_size, value_by, TriedAs, JoinedAs};

use model::{Rule, Terms};
use region::Placed;
use values::{Places, lookup};

mod beside;
mod effect;
pub mod items;
mod joint;
pub mod modes;
mod rules;

// What a set does: nothing, remove the value that stands, put a new one.
#[derive(Clone, Copy)]
pub enum Change {
    Nothing,
    Remove,
    Put,
}

// The numbers of a set: its attributes, "physical presence and the verdict".
#[derive(Clone, Copy)]
pub struct Asking {
    pub attributes: u32,
    pub presence: u32,
    pub verdict: u32,
}

// A value to put, by numbers: its attributes and stamp, whether it keeps the data of the value that is there, and where in the caller's data its own begin.
#[derive(Clone, Copy)]
pub struct NewValue {
    pub attributes: u32,
    pub stamp: [u8; 16],
    pub keeps: bool,
    pub own: usize,
}

// A set decided by numbers: the first broken rule or what it does; the places of the name's entries, which it marks or leaves out; and the value that it puts, if it puts one.
// Where PlatMode changes with it, `beside` is the offset of its entry; and `deploys` says whether a 3 comes in its place.
#[derive(Clone, Copy)]
pub struct Decided {
    pub what: Result<Change, Rule>,
    pub places: Places,
    pub value: NewValue,
    pub beside: Option<usize>,
    pub deploys: bool,
}

// What a set that breaks no rule does, and what of PlatMode changes with it, as above.
#[derive(Clone, Copy)]
struct Joined {
    what: Change,
    beside: Option<usize>,
    deploys: bool,
}

// Rounded entry sizes by class: of the error records; and of the other values those of the side that asks, and those of the other side.
#[derive(Clone, Copy, Default)]
pub struct Sums {
    pub records: usize,
    pub own: usize,
    pub others: usize,
}

// What a set, or an item of a profile, that breaks no rule before room does, and the size of the data that a value to put would have.
#[derive(Clone, Copy)]
pub struct Tried {
    pub what: Change,
    pub size: usize,
}

// What an item of a profile that breaks no rule, room apart, weighs: the offset of the entry that it leaves behind, 0 if it leaves none; and the rounded sizes of that
// entry and of the one that comes.
#[derive(Clone, Copy, Default)]
pub struct Weight {
    pub at: usize,
    pub gone: usize,
    pub comes: usize,
}

// The same of all items: an offset for each, whether it stores a value, and the sums of the sizes.
#[derive(Clone, Copy)]
pub struct Weights {
    pub leave: [usize; 8],
    pub stores: [bool; 8],
    pub gone: usize,
    pub comes: usize,
}

// What a profile comes to: the first broken rule, nothing, or a compaction, which leaves out the entries at eight offsets and adds a value for each item that stores one.
#[derive(Clone, Copy)]
pub struct Weighed {
    pub what: Result<Change, Rule>,
    pub leave: [usize; 8],
    pub stores: [bool; 8],
}

// Rules 7 to 10 and 24: the mode is looked up, and the stamp read, only where 7 and 8 are kept.
fn judge_standing(
    t: Terms,
    region: &[u8],
    old: Option<Placed>,
    name: &[u8],
    vendor: &[u8; 16],
    attributes: u32,
    bytes: &[u8],
    presence: u32,
    verdict: u32,
) -> Result<(), Rule>
    ensures { result ≡ judged_of (first_broken (standing_by t.runtime attributes bytes.now old
        ++ verdict_by region.now old (keyed name.now vendor.now) attributes
        (wanted_verdicts t.custom presence (mode_by_def region.now) (keyed name.now vendor.now) attributes (stands old))
        verdict (stamp_of_def attributes bytes.now))) }
{
    rules::standing(t.runtime, attributes, bytes, old)?;
    let w = rules::wanted(
        region,
        t.custom,
        name,
        vendor,
        attributes,
        presence,
        old.is_some(),
    );
    let stamp = policy::stamp(attributes, bytes);
    rules::verdict(region, old, name, vendor, attributes, w, verdict, &stamp)
}

// Rules 3 to 12, 17, 22 and 24 in their order, then the change. `size` is that of the data that a value to put would have.
fn judge(
    t: Terms,
    region: &[u8],
    old: Option<Placed>,
    name: &[u8],
    vendor: &[u8; 16],
    asking: Asking,
    bytes: &[u8],
    proper: &[u8],
    size: usize,
) -> Result<Change, Rule>
    requires sound_region { sound region.now ≡ true }
    requires found_value { old ≡ found_of (standing (keyed name.now vendor.now) (entries region.now)) }
    requires proper_data { (proper.now ≡ proper_of asking.attributes bytes.now)
        × (size ≡ new_size region.now old asking.attributes (length proper.now)) }
    ensures { result ≡ item_of t
        (request_of name.now vendor.now asking.attributes bytes.now asking.presence asking.verdict)
        (values (entries region.now)) }
{
    let attributes = asking.attributes;
    rules::request(t, name, vendor, attributes)?;
    judge_standing(
        t,
        region,
        old,
        name,
        vendor,
        attributes,
        bytes,
        asking.presence,
        asking.verdict,
    )?;
    effect::outcome(region, old, attributes, proper, size)
}

// Rules 3 to 12, 17, 22, 24 and 21, by what is there of the name. Whether 21 is broken is asked first, and reported in its place.
fn before_room(
    t: Terms,
    limits: &[u8],
    region: &[u8],
    old: Option<Placed>,
    name: &[u8],
    vendor: &[u8; 16],
    asking: Asking,
    bytes: &[u8],
) -> Result<Tried, Rule>
    requires sound_region { sound region.now ≡ true }
    requires found_value { old ≡ found_of (standing (keyed name.now vendor.now) (entries region.now)) }
    ensures { TriedAs (tried_of (limits_in limits.now t.rules (keyed name.now vendor.now)) t
        (request_of name.now vendor.now asking.attributes bytes.now asking.presence asking.verdict)
        (values (entries region.now)))
        (new_size region.now old asking.attributes (length (proper_of asking.attributes bytes.now)))
        result }
{
    let attributes = asking.attributes;
    let proper = policy::proper(attributes, bytes);
    let kept = effect::kept_data(region, old, policy::appends(attributes));
    let forbidden = effect::forbids(limits, t.rules, old, name, vendor, attributes, kept, proper);
    let size = kept.len() + proper.len();
    let what = judge(t, region, old, name, vendor, asking, bytes, proper, size)?;
    if forbidden {
        return Err(Rule::Setting);
    }
    Ok(Tried { what, size })
}

// What a set comes to, by what is there of its name: room is asked last, of both changes where PlatMode changes too.
fn decide_over(
    t: Terms,
    limits: &[u8],
    region: &[u8],
    tail: usize,
    old: Option<Placed>,
    name: &[u8],
    vendor: &[u8; 16],
    asking: Asking,
    bytes: &[u8],
) -> Result<Joined, Rule>
    requires sound_region { sound region.now ≡ true }
    requires short_region { length region.now ≤ 28672 }
    requires right_tail { (tail ≡ tail_at region.now) × (tail ≤ length region.now) }
    requires told_side { t.foreign ≡ rule22 t.vendor t.modem (keyed name.now vendor.now) }
    requires found_value { old ≡ found_of (standing (keyed name.now vendor.now) (entries region.now)) }
    ensures { JoinedAs (decision_of (limits_in limits.now t.rules (keyed name.now vendor.now)) t
        (request_of name.now vendor.now asking.attributes bytes.now asking.presence asking.verdict)
        (length region.now) (values (entries region.now)))
        (beside_pk
        (change_in (request_of name.now vendor.now asking.attributes bytes.now asking.presence asking.verdict)
        (values (entries region.now)))
        (values (entries region.now)))
        (found_mode region.now)
        result }
{
    let Tried { what, size } = before_room(t, limits, region, old, name, vendor, asking, bytes)?;
    let there = beside::found(what, region, old, name, vendor);
    match there {
        Some(mode) => {
            let deploys = beside::deploys(what, region, there);
            let what = beside::roomed(what, t, region, old, there, deploys, name.len(), size)?;
            Ok(Joined {
                what,
                beside: Some(mode.at),
                deploys,
            })
        }
        None => {
            let what = effect::roomed(
                what,
                t,
                region,
                tail,
                old,
                name,
                vendor,
                asking.attributes,
                size,
            )?;
            Ok(Joined {
                what,
                beside: None,
                deploys: false,
            })
        }
    }
}

// The decision on a set, by the region and the offset of its tail: the first broken rule, or the change by numbers.
pub fn decide(
    t: Terms,
    limits: &[u8],
    region: &[u8],
    tail: usize,
    name: &[u8],
    vendor: &[u8; 16],
    asking: Asking,
    bytes: &[u8],
) -> Decided
    requires sound_region { sound region.now ≡ true }
    requires short_region { length region.now ≤ 28672 }
    requires right_tail { (tail ≡ tail_at region.now) × (tail ≤ length region.now) }
    requires told_side { t.foreign ≡ rule22 t.vendor t.modem (keyed name.now vendor.now) }
    ensures { (result.what ≡ decision_of (limits_in limits.now t.rules (keyed name.now vendor.now)) t
        (request_of name.now vendor.now asking.attributes bytes.now asking.presence asking.verdict)
        (length region.now) (values (entries region.now)))
        × (broken_of result.what ≡ none → beside_by result.beside result.deploys
        ≡ beside_pk
        (change_in (request_of name.now vendor.now asking.attributes bytes.now asking.presence asking.verdict)
        (values (entries region.now)))
        (values (entries region.now)))
        × ((at : ℕ) → result.beside ≡ Some at → offset_of (found_mode region.now) ≡ Some at)
        × (result.places.added ≡ found_of (added (keyed name.now vendor.now) (entries region.now)))
        × (result.places.replacing ≡ found_of (replacing (keyed name.now vendor.now) (entries region.now)))
        × (result.what ≡ Ok Change.Put
        → value_by region.now name.now vendor.now bytes.now (else_found result.places.added result.places.replacing) result.value
        ≡ new_value
        (request_of name.now vendor.now asking.attributes bytes.now asking.presence asking.verdict)
        (find (keyed name.now vendor.now) (values (entries region.now)))) }
{
    let places = lookup::places(region, name, vendor);
    let old = lookup::standing(places);
    let joined = decide_over(t, limits, region, tail, old, name, vendor, asking, bytes);
    let value = effect::value(region, old, asking.attributes, bytes);
    match joined {
        Ok(joined) => Decided {
            what: Ok(joined.what),
            places,
            value,
            beside: joined.beside,
            deploys: joined.deploys,
        },
        Err(rule) => Decided {
            what: Err(rule),
            places,
            value,
            beside: None,
            deploys: false,
        },
    }
}

// The data of the value that is there which a change keeps.
pub fn kept(region: &[u8], places: Places, keeps: bool) -> &[u8]
    ensures { result.now ≡ cond keeps (old_data_def region.now (else_found places.added places.replacing)) [] }
{
    effect::kept_data(region, lookup::standing(places), keeps)
}
