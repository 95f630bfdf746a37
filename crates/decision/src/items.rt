// The decision on a profile over a sound region: its items, each judged as a set is, and room once, after the last.
ghost use Rattle.std.specs.Prelude.{◌≡◌, true, ◌+◌, ◌^◌, ◌<◌, ◌≤◌, length};
ghost use Rattle.model.specs.Name.{keyed};
ghost use Rattle.model.specs.Entry.{header_size_def, rounded};
ghost use Rattle.model.specs.Region.{sound, entries, values};
ghost use Rattle.model.specs.Request.{request_key};
ghost use Rattle.model.specs.Sides.{side_sizes};
ghost use Rattle.profile.specs.Reader.{request_in, requests_in, Within};
ghost use Rattle.profile.specs.Folded.{Folds};
ghost use Rattle.decision.specs.Decision.{request_of};
ghost use Rattle.decision.specs.Profile.{told_of, limits_of, weighed_of, Weighable, leaving_by, weight_by, ItemWeighed, ItemsWeighed, folded_sums, roomed_of};

use crate::{Asking, Change, Sums, Weighed, Weight, Weights, before_room, effect};
use model::{Layout, Rule, Terms};
use profile::{Setting, Settings};
use region::Placed;
use session::Locks;
use values::{list, lookup};

// What is said to an item: as to a set of its name.
fn told(said: Terms, held: Locks, locks: &[u8], name: &[u8], vendor: &[u8; 16]) -> Terms
    ensures { result ≡ told_of said held locks.now (keyed name.now vendor.now) }
{
    let sizes = held.sizes;
    let barred = session::is_barred(held.phase, held.used, sizes, locks, name, vendor);
    session::terms(said, barred, name, vendor)
}

// An item that leaves the entry of the value that is there behind, if there is one.
fn leaving(region: &[u8], old: Option<Placed>, comes: usize) -> Weight
    ensures { result ≡ leaving_by region.now old comes }
{
    match old {
        Some(Placed { at, entry }) => Weight {
            at,
            gone: list::size_of(Layout::AUTHENTICATED, region, at, entry),
            comes,
        },
        None => Weight {
            comes,
            ..Weight::default()
        },
    }
}

// The weight of an item, by what it does, and the sizes of its name and of the data that a value to put would have.
fn weight(region: &[u8], old: Option<Placed>, what: Change, name: usize, size: usize) -> Weight
    requires { (name < 2 ^ 63) × (what ≡ Change.Put → size ≤ 2048) }
    ensures { result ≡ weight_by region.now old what (rounded (header_size_def + name + size)) }
{
    match what {
        Change::Nothing => Weight::default(),
        Change::Remove => leaving(region, old, 0),
        Change::Put => leaving(
            region,
            old,
            layout::entry_size(Layout::AUTHENTICATED, name, size),
        ),
    }
}

// An item weighed by itself: judged as a set without presence and verdict, over the values that the call finds.
fn weigh_item(
    t: Terms,
    limits: &[u8],
    region: &[u8],
    attributes: u32,
    name: &[u8],
    vendor: &[u8; 16],
    bytes: &[u8],
) -> Result<Weight, Rule>
    requires { (sound region.now ≡ true) × (length region.now ≤ 28672) }
    ensures { ItemWeighed t (limits_of t limits.now (keyed name.now vendor.now))
        (request_of name.now vendor.now attributes bytes.now 0 0) region.now result }
{
    let old = lookup::find(region, name, vendor);
    let asking = Asking {
        attributes,
        presence: 0,
        verdict: 0,
    };
    let tried = before_room(t, limits, region, old, name, vendor, asking, bytes)?;
    Ok(weight(region, old, tried.what, name.len(), tried.size))
}

// An item of the file, weighed so.
fn weigh_at(
    said: Terms,
    held: Locks,
    locks: &[u8],
    limits: &[u8],
    region: &[u8],
    file: &[u8],
    t: Setting,
) -> Result<Weight, Rule>
    requires { (sound region.now ≡ true) × (length region.now ≤ 28672) × Within (length file.now) t }
    ensures { ItemWeighed (told_of said held locks.now (request_key (request_in file.now t)))
        (limits_of said limits.now (request_key (request_in file.now t))) (request_in file.now t) region.now result }
{
    let name = profile::name_of(file, t);
    let vendor = profile::guid_of(file, t);
    let terms = told(said, held, locks, name, &vendor);
    let bytes = profile::data_of(file, t);
    weigh_item(terms, limits, region, t.attributes, name, &vendor, bytes)
}

// The items one after another, up to the first that breaks a rule.
fn weigh_items(
    said: Terms,
    held: Locks,
    locks: &[u8],
    limits: &[u8],
    region: &[u8],
    file: &[u8],
    p: Settings,
) -> Result<Weights, Rule>
    requires { Weighable region.now file.now p }
    ensures { ItemsWeighed (told_of said held locks.now) (limits_of said limits.now) (requests_in file.now p) region.now result }
{
    let list = p.list;
    let mut leave = [0; 8];
    let mut stores = [false; 8];
    let mut gone = 0;
    let mut comes = 0;
    for i in 0..p.count {
        let w = weigh_at(said, held, locks, limits, region, file, list[i])?;
        leave[i] = w.at;
        stores[i] = w.comes != 0;
        gone += w.gone;
        comes += w.comes;
    }
    Ok(Weights {
        leave,
        stores,
        gone,
        comes,
    })
}

// The sums after the items, of which those that go and come are the side's own.
pub(crate) fn after(said: Terms, region: &[u8], gone: usize, comes: usize) -> Sums
    requires { (length region.now ≤ 28672) × (comes ≤ 2 ^ 16)
        × (gone ≤ side_sizes said.vendor said.modem (values (entries region.now)) + comes) }
    ensures { (result ≡ folded_sums said region.now gone comes) × (result.records + result.own + result.others < 2 ^ 63) }
{
    let guid = said.vendor;
    let sums = list::tally(Layout::AUTHENTICATED, region, &guid, said.modem);
    Sums {
        records: sums.records,
        own: sums.own + comes - gone,
        others: sums.others,
    }
}

// What items that break no rule come to. An entry has a size: where none comes room is not asked, and where none goes either nothing changes.
fn roomed(said: Terms, region: &[u8], gone: usize, comes: usize) -> Result<Change, Rule>
    requires { (length region.now ≤ 28672) × (comes ≤ 2 ^ 16)
        × (gone ≤ side_sizes said.vendor said.modem (values (entries region.now)) + comes) }
    ensures { result ≡ roomed_of said region.now gone comes }
{
    if comes == 0 {
        if gone == 0 {
            return Ok(Change::Nothing);
        }
        return Ok(Change::Put);
    }
    let sums = after(said, region, gone, comes);
    effect::room(said, region.len(), false, sums)?;
    Ok(Change::Put)
}

// What a profile comes to: the first rule that an item breaks; else by room, which is judged after the last. Offsets and flags are told where something changes.
pub fn weigh(
    said: Terms,
    held: Locks,
    locks: &[u8],
    limits: &[u8],
    region: &[u8],
    file: &[u8],
    p: Settings,
) -> Weighed
    requires { Weighable region.now file.now p }
    ensures { (result.what ≡ weighed_of said (told_of said held locks.now) (limits_of said limits.now)
        (requests_in file.now p) (length region.now) (values (entries region.now)))
        × (result.what ≡ Ok Change.Put → Folds region.now (requests_in file.now p) result.leave result.stores) }
{
    let w = weigh_items(said, held, locks, limits, region, file, p);
    match w {
        Ok(w) => {
            let leave = w.leave;
            let stores = w.stores;
            Weighed {
                what: roomed(said, region, w.gone, w.comes),
                leave,
                stores,
            }
        }
        Err(rule) => Weighed {
            what: Err(rule),
            leave: [0; 8],
            stores: [false; 8],
        },
    }
}
