// The rules for settings: whether a set breaks one that is for its name. A rule is read where it is in the table. The data that would stand are lent in two parts, the
// old ones of an append and the call's own, and are never put together.
#![tactic(auto)]

ghost use Rattle.std.specs.Prelude.{◌≡◌, true, ◌++◌, ◌<◌, get_or};
ghost use Rattle.model.specs.Lists.{part, among, numbers_at};
ghost use Rattle.model.specs.Name.{keyed};
ghost use Rattle.model.specs.Limits.{limit_of, is_for_def, limits_in, little, listed, allowed, widths, meets};
ghost use Rattle.limits.specs.Broken.{broken_by, breaks_for};

// The bytes of a rule, and the offsets of its fields.
const RULE: usize = 216;

const SIZE: usize = 0;

const LEAST: usize = 4;

const MOST: usize = 8;

const FIXED: usize = 12;

const AT: usize = 16;

const WIDTH: usize = 20;

const RANGED: usize = 24;

const LOW: usize = 28;

const HIGH: usize = 32;

const COUNT: usize = 36;

const NUMBERS: usize = 40;

const NAME: usize = 72;

const VENDOR: usize = 200;

// Whether a number is one of those in use of a rule's list. More than eight are ignored.
fn is_listed(t: &[u8], count: u32, n: u32) -> bool
    ensures { result ≡ listed (numbers_at t.now 40 8) count n }
{
    for i in 0..(count as usize).min(8) {
        if layout::u32_at(t, NUMBERS + 4 * i) == n {
            return true;
        }
    }
    false
}

// Whether a rule allows a number in its field.
#[tactic(auto, unfolding(model::specs::Limits::allowed, model::specs::Limits::limit_of))]
fn is_allowed(t: &[u8], n: u32) -> bool
    ensures { result ≡ allowed (limit_of t.now) n }
{
    if layout::u32_at(t, RANGED) == 0 {
        return is_listed(t, layout::u32_at(t, COUNT), n);
    }
    layout::u32_at(t, LOW) <= n && n <= layout::u32_at(t, HIGH)
}

// A byte of the data that would stand, 0 past their end.
fn byte_of(old: &[u8], own: &[u8], i: usize) -> u32
    ensures { (result ≡ get_or (old.now ++ own.now) i 0) × (result < 256) }
{
    let n = old.len();
    let byte = if i < n { old.get(i) } else { own.get(i - n) };
    byte.map_or(0, |&b| u32::from(b))
}

// Whether a field may be so wide.
fn is_width(width: u32) -> bool
    ensures { result ≡ among widths width }
{
    matches!(width, 1 | 2 | 4)
}

// The number that a field holds, low byte first.
#[tactic(auto, using(crate::proofs::Fields::one_byte, crate::proofs::Fields::two_bytes, crate::proofs::Fields::four_bytes, crate::proofs::Fields::width_four))]
fn field(old: &[u8], own: &[u8], at: u32, width: u32) -> u32
    requires { among widths width ≡ true }
    ensures { result ≡ little (part at width (old.now ++ own.now)) }
{
    let from = at as usize;
    let first = byte_of(old, own, from);
    if width == 1 {
        return first;
    }
    let second = byte_of(old, own, from + 1);
    if width == 2 {
        return first + 256 * second;
    }
    let third = byte_of(old, own, from + 2);
    let fourth = byte_of(old, own, from + 3);
    first + 256 * second + 65536 * (third + 256 * fourth)
}

// Whether data meet a rule: their size, and the field in them. It is kept apart: joined to its callers it reads the table at more places than the compiler follows,
// which then copies a session that goes by value.
#[inline(never)]
fn meets(t: &[u8], old: &[u8], own: &[u8]) -> bool
    ensures { result ≡ meets (limit_of t.now) (old.now ++ own.now) }
{
    let n = old.len() + own.len();
    if n < layout::u32_at(t, LEAST) as usize {
        return false;
    }
    if (layout::u32_at(t, MOST) as usize) < n {
        return false;
    }
    let width = layout::u32_at(t, WIDTH);
    if !is_width(width) {
        return false;
    }
    let at = layout::u32_at(t, AT);
    if n < at as usize + width as usize {
        return false;
    }
    is_allowed(t, field(old, own, at, width))
}

// Whether a rule is for a name: most are told apart by their length.
#[tactic(auto, unfolding(model::specs::Limits::limit_of))]
fn is_for(t: &[u8], name: &[u8], vendor: &[u8; 16]) -> bool
    ensures { result ≡ is_for_def (limit_of t.now) (keyed name.now vendor.now) }
{
    let size = layout::u32_at(t, SIZE) as usize;
    if slices::LONGEST_NAME < size {
        return false;
    }
    let room = slices::cut(t, NAME, slices::LONGEST_NAME);
    slices::equal(slices::cut(room, 0, size), name)
        && slices::equal(slices::cut(t, VENDOR, 16), vendor)
}

// Whether a rule is for a name and broken by a set of it: read-only refuses every one, and the data, if any would stand, must meet the rest.
#[tactic(auto, unfolding(crate::specs::Broken::breaks_for, model::specs::Limits::limit_of))]
fn breaks_one(
    t: &[u8],
    name: &[u8],
    vendor: &[u8; 16],
    stands: bool,
    old: &[u8],
    own: &[u8],
) -> bool
    ensures { result ≡ breaks_for (keyed name.now vendor.now) stands (old.now ++ own.now) (limit_of t.now) }
{
    is_for(t, name, vendor) && (layout::u32_at(t, FIXED) != 0 || (stands && !meets(t, old, own)))
}

// Whether a set of a name breaks one of the rules in use of a table that are for it. More than 32 are ignored.
pub fn breaks(
    limits: &[u8],
    rules: u32,
    name: &[u8],
    vendor: &[u8; 16],
    stands: bool,
    old: &[u8],
    own: &[u8],
) -> bool
    ensures { result ≡ broken_by (limits_in limits.now rules (keyed name.now vendor.now)) stands (old.now ++ own.now) }
{
    for i in 0..(rules as usize).min(32) {
        let rule = slices::cut(limits, RULE * i, RULE);
        if breaks_one(rule, name, vendor, stands, old, own) {
            return true;
        }
    }
    false
}
