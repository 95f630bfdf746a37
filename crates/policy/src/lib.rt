// What the rules say of the call itself: attributes, descriptor and stamp, verdict, and what a set asks for. No image is looked at.
#![tactic(auto)]

ghost use Rattle.std.specs.Prelude.{◌≡◌, ◌==◌, ◌/◌, ◌%◌, not, cond, ◌∷◌, ◌<◌, length};
ghost use Rattle.model.specs.Lists.{among, is_empty};
ghost use Rattle.model.specs.Name.{keyed};
ghost use Rattle.model.specs.Region.{stored_attributes};
ghost use Rattle.model.specs.Request.{runtime_access_def, time_based_def, appends, without_append_def, right_descriptor, later, key_verdicts_def, proper_at, proper_of, in_person_def, other_verdicts_def};
ghost use Rattle.model.specs.Change.{later_of_def, deletes, empty_append_def, equal_to};
ghost use Rattle.model.specs.Rules.{rule4, rule5, unlike_stored, rule7, rule8, rule9, rule17};
ghost use Rattle.policy.specs.Descriptor.{no_stamp_def, stamp_in_def, stamp_of_def, right_size, right_kind};
ghost use Rattle.policy.specs.Verdict.{verdicts_of};

use layout::fixed;

// Of which verdicts one is wanted: of none, of this one, of PK or KEK.
#[derive(Clone, Copy)]
pub enum Wanted {
    Free,
    One(u32),
    Either,
}

// Whether one of the attribute bits is set: 0x04 runtime access, 0x20 time-based authentication, 0x40 append.
fn has(attributes: u32, bit: u32) -> bool
    requires { 0 < bit }
    ensures { result ≡ (attributes / bit % 2 == 1) }
{
    attributes / bit % 2 == 1
}

pub fn runtime_access(attributes: u32) -> bool
    ensures { result ≡ runtime_access_def attributes }
{
    has(attributes, 0x04)
}

pub fn time_based(attributes: u32) -> bool
    ensures { result ≡ time_based_def attributes }
{
    has(attributes, 0x20)
}

pub fn appends(attributes: u32) -> bool
    ensures { result ≡ appends attributes }
{
    has(attributes, 0x40)
}

pub fn without_append(attributes: u32) -> u32
    ensures { result ≡ without_append_def attributes }
{
    if appends(attributes) {
        attributes - 0x40
    } else {
        attributes
    }
}

// Attributes without 0x40 that a set may ask for.
fn is_known(attributes: u32) -> bool
    ensures { result ≡ among (0 ∷ stored_attributes) attributes }
{
    matches!(attributes, 0 | 0x03 | 0x07 | 0x23 | 0x27 | 0x0F)
}

// Rule 4: attributes without 0x40 are none of these, or are exactly 0x40, or at runtime are not 0 and lack RT.
#[tactic(auto, unfolding(model::specs::Rules::rule4))]
pub fn attributes_broken(runtime: bool, attributes: u32) -> bool
    ensures { result ≡ rule4 runtime attributes }
{
    if attributes == 0x40 || !is_known(without_append(attributes)) {
        return true;
    }
    runtime && attributes != 0 && !runtime_access(attributes)
}

// Rule 5: a key name has other attributes than 0x27 or 0x67.
#[tactic(auto, unfolding(model::specs::Rules::rule5))]
pub fn key_attributes_broken(name: &[u8], vendor: &[u8; 16], attributes: u32) -> bool
    ensures { result ≡ rule5 (keyed name.now vendor.now) attributes }
{
    !matches!(attributes, 0x27 | 0x67) && fixed::is_key_name(name, vendor)
}

// Rule 17: attributes other than 0 have 0x08 without a record's name and GUID, or lack it with both.
#[tactic(auto, unfolding(model::specs::Rules::rule17))]
pub fn record_broken(name: &[u8], vendor: &[u8; 16], attributes: u32) -> bool
    ensures { result ≡ rule17 (keyed name.now vendor.now) attributes }
{
    let named = fixed::is_record_name(name, vendor);
    if layout::is_error_record(attributes) {
        !named
    } else {
        named && attributes != 0
    }
}

// Whether attributes without 0x40 are neither 0 nor the stored ones, or are 0 over a stored 0x20.
#[tactic(auto, unfolding(model::specs::Rules::unlike_stored))]
fn unlike(asked: u32, stored: u32) -> bool
    ensures { result ≡ unlike_stored asked stored }
{
    if asked == 0 {
        return time_based(stored);
    }
    asked != stored
}

// Rule 7 over a value that stands; at runtime the stored attributes may not lack RT.
#[tactic(auto, unfolding(model::specs::Rules::rule7))]
pub fn standing_broken(runtime: bool, attributes: u32, stored: u32) -> bool
    ensures { result ≡ rule7 runtime attributes stored }
{
    unlike(without_append(attributes), stored) || (runtime && !runtime_access(stored))
}

// The descriptor's length is 24 or more, counted from behind the stamp, and the data hold it.
#[tactic(auto, unfolding(crate::specs::Descriptor::right_size))]
fn size_right(bytes: &[u8]) -> bool
    ensures { result ≡ right_size bytes.now }
{
    let length = layout::u32_at(bytes, 16);
    24 <= length && 16 + length as usize <= bytes.len()
}

// Revision 0x0200, type 0x0EF1 and the certificate GUID.
#[tactic(auto, unfolding(crate::specs::Descriptor::right_kind))]
fn kind_right(bytes: &[u8]) -> bool
    ensures { result ≡ right_kind bytes.now }
{
    layout::u16_at(bytes, 20) == 0x0200
        && layout::u16_at(bytes, 22) == 0x0EF1
        && slices::equal(slices::cut(bytes, 24, 16), &fixed::certificate())
}

// Whether a descriptor fits the form and the data; nine bytes of its stamp are zero.
fn descriptor_right(bytes: &[u8]) -> bool
    ensures { result ≡ right_descriptor bytes.now }
{
    let zeros = [0u8; 9];
    size_right(bytes) && kind_right(bytes) && slices::equal(slices::cut(bytes, 7, 9), &zeros)
}

// Rule 8: a descriptor is wanted and does not fit the form or the data.
#[tactic(auto, unfolding(model::specs::Rules::rule8))]
pub fn descriptor_broken(attributes: u32, bytes: &[u8]) -> bool
    ensures { result ≡ rule8 attributes bytes.now }
{
    time_based(attributes) && !descriptor_right(bytes)
}

// Where the data proper begin: after the descriptor, or at once without one.
pub fn proper_from(attributes: u32, bytes: &[u8]) -> usize
    ensures { result ≡ cond (time_based_def attributes) (proper_at bytes.now) 0 }
{
    if time_based(attributes) {
        return 16 + layout::u32_at(bytes, 16) as usize;
    }
    0
}

// The data proper.
#[tactic(auto, unfolding(model::specs::Request::proper_of))]
pub fn proper(attributes: u32, bytes: &[u8]) -> &[u8]
    ensures { result.now ≡ proper_of attributes bytes.now }
{
    slices::from(bytes, proper_from(attributes, bytes))
}

// No stamp is 16 zeros.
#[tactic(auto, unfolding(crate::specs::Descriptor::no_stamp_def))]
fn no_stamp() -> [u8; 16]
    ensures { result ≡ no_stamp_def }
{
    [0; 16]
}

// The stamp at the front of some bytes, with zeros for what they lack of it.
pub fn stamp_in(bytes: &[u8]) -> [u8; 16]
    ensures { result ≡ stamp_in_def bytes.now }
{
    let mut stamp = no_stamp();
    let front = slices::cut(bytes, 0, 16);
    stamp[..front.len()].copy_from_slice(front);
    stamp
}

// The stamp to store: the descriptor's; zeros without one.
#[tactic(auto, unfolding(crate::specs::Descriptor::stamp_of_def))]
pub fn stamp(attributes: u32, bytes: &[u8]) -> [u8; 16]
    ensures { result ≡ stamp_of_def attributes bytes.now }
{
    if time_based(attributes) {
        return stamp_in(bytes);
    }
    no_stamp()
}

// Stamps are compared by year down to second: the first number that differs decides.
pub fn later(a: &[u8; 16], b: &[u8; 16]) -> bool
    ensures { result ≡ later a.now b.now }
{
    let year = layout::u16_at(a, 0);
    let other = layout::u16_at(b, 0);
    if year != other {
        return other < year;
    }
    a[2..7] > b[2..7]
}

// The later of two stamps, the old one if neither is later.
#[tactic(auto, unfolding(model::specs::Change::later_of_def))]
pub fn later_of(given: &[u8; 16], old: &[u8; 16]) -> [u8; 16]
    ensures { result ≡ later_of_def given.now old.now }
{
    if later(given, old) {
        return *given;
    }
    *old
}

// Key names want no verdict in custom mode with presence: both are needed.
#[tactic(auto, unfolding(model::specs::Request::in_person_def))]
pub fn in_person(custom: bool, presence: u32) -> bool
    ensures { result ≡ in_person_def custom presence }
{
    custom && presence != 0
}

// PK wants 3 in setup and 1 in user mode; KEK none in setup, 1 in user; db, dbx, dbt none in setup, 1 or 2 in user.
#[tactic(auto, unfolding(model::specs::Request::key_verdicts_def))]
pub fn key_verdicts(user: bool, name: &[u8], vendor: &[u8; 16]) -> Wanted
    ensures { verdicts_of result ≡ key_verdicts_def user (keyed name.now vendor.now) }
{
    if user {
        if fixed::is_database(name, vendor) {
            return Wanted::Either;
        }
        return Wanted::One(1);
    }
    if fixed::is_pk(name, vendor) {
        return Wanted::One(3);
    }
    Wanted::Free
}

// Other names with 0x20 want 3 if absent, else 4; without 0x20 none is wanted.
#[tactic(auto, unfolding(model::specs::Request::other_verdicts_def))]
pub fn other_verdicts(attributes: u32, stands: bool) -> Wanted
    ensures { verdicts_of result ≡ other_verdicts_def attributes stands }
{
    if time_based(attributes) {
        if stands {
            return Wanted::One(4);
        }
        return Wanted::One(3);
    }
    Wanted::Free
}

// Whether a verdict is wanted.
pub fn verdict_wanted(wanted: Wanted) -> bool
    ensures { result ≡ not (is_empty (verdicts_of wanted)) }
{
    !matches!(wanted, Wanted::Free)
}

// Rule 9: a wanted verdict is absent.
#[tactic(auto, unfolding(model::specs::Rules::rule9))]
pub fn verdict_broken(wanted: Wanted, verdict: u32) -> bool
    ensures { result ≡ rule9 (verdicts_of wanted) verdict }
{
    match wanted {
        Wanted::Free => false,
        Wanted::One(one) => verdict != one,
        Wanted::Either => verdict != 1 && verdict != 2,
    }
}

// Attributes 0, or empty data proper without append, delete.
#[tactic(auto, unfolding(model::specs::Change::deletes))]
pub fn deletes(attributes: u32, size: usize) -> bool
    ensures { result ≡ deletes attributes size }
{
    attributes == 0 || (size == 0 && !appends(attributes))
}

// An empty append changes nothing.
#[tactic(auto, unfolding(model::specs::Change::empty_append_def))]
pub fn empty_append(attributes: u32, size: usize) -> bool
    ensures { result ≡ empty_append_def attributes size }
{
    size == 0 && appends(attributes)
}

// Equal data and attributes, neither 0x20 nor 0x40 among them; what is cheap to compare comes first.
#[tactic(auto, unfolding(model::specs::Change::equal_to))]
pub fn equal(attributes: u32, proper: &[u8], stored: u32, old: &[u8]) -> bool
    ensures { result ≡ equal_to attributes proper.now stored old.now }
{
    attributes == stored
        && !time_based(attributes)
        && !appends(attributes)
        && slices::equal(proper, old)
}
