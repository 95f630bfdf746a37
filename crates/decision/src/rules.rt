// Rules 3 to 10, 17, 22 and 24: on the call itself and on what stands. Where a key is named, the platform's mode says which verdict is wanted.
ghost use Rattle.std.specs.Prelude.{◌≡◌, false, ◌&&◌, []};
ghost use Rattle.model.specs.Name.{keyed};
ghost use Rattle.model.specs.Request.{deployed_mode, wanted_verdicts};
ghost use Rattle.model.specs.Rules.{first_broken, request_rules, rule7};
ghost use Rattle.policy.specs.Verdict.{verdicts_of};
ghost use Rattle.decision.specs.Decision.{request_of};
ghost use Rattle.decision.specs.Parts.{judged_of, on_found, stands, stores_by, found_pk, found_mode, mode_by_def, standing_by, not_later_def, verdict_by};

use crate::modes::DEPLOYED;
use layout::fixed;
use model::{Layout, Rule, Terms};
use policy::Wanted;
use region::{Placed, walk};
use values::lookup;

// Rules 3, 22, 4, 5, 17 and 6, on the call itself.
pub(crate) fn request(t: Terms, name: &[u8], vendor: &[u8; 16], attributes: u32) -> Result<(), Rule>
    ensures { result ≡ judged_of (first_broken (request_rules t (request_of name.now vendor.now attributes [] 0 0))) }
{
    if !slices::is_named(name) {
        return Err(Rule::Name);
    }
    if t.foreign {
        return Err(Rule::Side);
    }
    if policy::attributes_broken(t.runtime, attributes) {
        return Err(Rule::Attributes);
    }
    if policy::key_attributes_broken(name, vendor, attributes) {
        return Err(Rule::KeyAttributes);
    }
    if policy::record_broken(name, vendor, attributes) {
        return Err(Rule::RecordName);
    }
    if t.barred {
        return Err(Rule::Locked);
    }
    Ok(())
}

// Rule 7, where a value stands.
fn attributes_differ(runtime: bool, attributes: u32, old: Option<Placed>) -> bool
    ensures { result ≡ on_found old (λ at e. rule7 runtime attributes e.attributes) false }
{
    match old {
        Some(Placed { entry, .. }) => policy::standing_broken(
            runtime,
            attributes,
            entry.attributes,
        ),
        None => false,
    }
}

// Rules 7 and 8.
pub fn standing(
    runtime: bool,
    attributes: u32,
    bytes: &[u8],
    old: Option<Placed>,
) -> Result<(), Rule>
    ensures { result ≡ judged_of (first_broken (standing_by runtime attributes bytes.now old)) }
{
    if attributes_differ(runtime, attributes, old) {
        return Err(Rule::Standing);
    }
    if policy::descriptor_broken(attributes, bytes) {
        return Err(Rule::Descriptor);
    }
    Ok(())
}

// User mode: PK has a value.
fn user_mode(region: &[u8]) -> bool
    ensures { result ≡ stands (found_pk region.now) }
{
    let name = fixed::pk_name();
    let vendor = fixed::global_vendor();
    lookup::find(region, &name, &vendor).is_some()
}

// What is there of PlatMode.
pub fn platform(region: &[u8]) -> Option<Placed>
    ensures { result ≡ found_mode region.now }
{
    let name = fixed::mode_name();
    let vendor = fixed::global_vendor();
    lookup::find(region, &name, &vendor)
}

// Whether what is there of PlatMode stores this mode: "other data or attributes count as absent".
pub fn stores(region: &[u8], there: Option<Placed>, mode: u8) -> bool
    ensures { result ≡ stores_by region.now mode there }
{
    match there {
        Some(Placed { at, entry }) => {
            let one = [mode];
            entry.attributes == 0x07
                && slices::equal(
                    walk::data_of(Layout::AUTHENTICATED, region, at, entry),
                    &one,
                )
        }
        None => false,
    }
}

// Whether a platform in user mode is deployed. PlatMode is looked up only beside a PK.
fn is_deployed(region: &[u8], user: bool) -> bool
    ensures { result ≡ (user && stores_by region.now deployed_mode (found_mode region.now)) }
{
    user && stores(region, platform(region), DEPLOYED)
}

// Verdict wanted. PK is looked up for key names only, and PlatMode for those in person: custom mode does not count in deployed.
pub fn wanted(
    region: &[u8],
    custom: bool,
    name: &[u8],
    vendor: &[u8; 16],
    attributes: u32,
    presence: u32,
    stands: bool,
) -> Wanted
    ensures { verdicts_of result ≡ wanted_verdicts custom presence (mode_by_def region.now) (keyed name.now vendor.now) attributes stands }
{
    if fixed::is_key_name(name, vendor) {
        let user = user_mode(region);
        if policy::in_person(custom, presence) && !is_deployed(region, user) {
            return Wanted::Free;
        }
        return policy::key_verdicts(user, name, vendor);
    }
    policy::other_verdicts(attributes, stands)
}

// Whether the stamp is not later than that of the value that stands.
fn not_later(region: &[u8], old: Option<Placed>, stamp: &[u8; 16]) -> bool
    ensures { result ≡ not_later_def region.now old stamp.now }
{
    match old {
        Some(Placed { at, .. }) => {
            let own = policy::stamp_in(walk::stamp_of(region, at));
            !policy::later(stamp, &own)
        }
        None => false,
    }
}

// Rules 9, 24 and 10; an append may carry any stamp.
pub fn verdict(
    region: &[u8],
    old: Option<Placed>,
    name: &[u8],
    vendor: &[u8; 16],
    attributes: u32,
    wanted: Wanted,
    given: u32,
    stamp: &[u8; 16],
) -> Result<(), Rule>
    ensures { result ≡ judged_of (first_broken (verdict_by region.now old (keyed name.now vendor.now) attributes (verdicts_of wanted) given
        stamp.now)) }
{
    if policy::verdict_broken(wanted, given) {
        return Err(Rule::Verdict);
    }
    if fixed::is_mode(name, vendor) {
        return Err(Rule::Mode);
    }
    if policy::appends(attributes) {
        return Ok(());
    }
    if policy::verdict_wanted(wanted) && not_later(region, old, stamp) {
        return Err(Rule::Stamp);
    }
    Ok(())
}
