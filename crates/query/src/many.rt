// Where many names are met, by one walk over the region. Each is a GUID with a name behind it, in a place of 144 bytes.
ghost use Rattle.std.specs.Prelude.{◌≡◌, true, cond, ℕ, ◌+◌, ◌<◌, ◌≤◌, length, eqb};
ghost use Rattle.model.specs.Name.{same_key_def};
ghost use Rattle.model.specs.Walk.{entry_key};
ghost use Rattle.region.specs.Walk.{entry_at};
ghost use Rattle.region.specs.Judge.{live_state_def};
ghost use Rattle.region.specs.Met.{is_sought_def, key_from};
ghost use Rattle.model.specs.Beside.{asked_bytes, asked_at};
ghost use Rattle.query.specs.Many.{key_bytes, leads, Indexed, within, noted_at, none_met_def, met_as, NotedIn, Noted, AllMet};

use model::Layout;
use region::walk::{self, Stored};
use region::{Met, Placed, judge, marks};
use std::ops::Range;

// How many bytes a place has.
const PLACE: usize = 144;

// What the table tells of the place of several marks.
const SEVERAL: u8 = 255;

// Where the 3F entry of a name was met, and where its 3E entry. An offset of a region fits in 16 bits, so a list of them is short.
#[derive(Clone, Copy)]
pub struct Offsets {
    pub added: Option<u16>,
    pub replacing: Option<u16>,
}

impl From<Offsets> for Met {
    ghost from_gives = { λ o m. m ≡ met_as o };

    fn from(offsets: Offsets) -> Met {
        Met {
            added: offsets.added.map(usize::from),
            replacing: offsets.replacing.map(usize::from),
        }
    }
}

// The GUID and name of a place, of so many bytes; none, where they are not wholly lent or have no room in a place.
#[tactic(auto, unfolding(model::specs::Beside::asked_bytes))]
pub fn asked(keys: &[u8], k: usize, size: u32) -> &[u8]
    requires { k < 64 }
    ensures { result.now ≡ asked_bytes keys.now k size }
{
    let n = size as usize;
    if PLACE < n {
        return &keys[..0];
    }
    match keys.get(PLACE * k..PLACE * k + n) {
        Some(place) => place,
        None => &keys[..0],
    }
}

// What the table tells of a mark's place once a name is there: its number and one more, or that there are several.
fn taken(old: u8, k: usize) -> u8
    requires { k < 64 }
    ensures { result ≡ cond (eqb old 0) (k + 1) 255 }
{
    if old == 0 { (k + 1) as u8 } else { SEVERAL }
}

// The marks of the names, in a table. What it held before does no harm: it only tells of several names where there is one.
fn index(keys: &[u8], sizes: &[u32], noted: &mut [u8])
    requires { (length sizes.now ≤ 64) × (length noted.old ≡ 1280) }
    ensures { Indexed keys.now sizes.now noted.new (length sizes.now) }
{
    for k in 0..sizes.len() {
        let place = marks::mark_of_key(asked(keys, k, sizes[k])).place;
        noted[place] = taken(noted[place], k);
    }
}

// The names to which the table leads.
#[tactic(auto, unfolding(crate::specs::Many::leads, crate::specs::Many::within))]
fn names(told: u8, n: usize) -> Range<usize>
    requires { n ≤ 64 }
    ensures { (result.start ≤ result.end) × (result.end ≤ n) × ((k : ℕ) → k < n → leads told k ≡ true → within result.start result.end k ≡ true) }
{
    if told == SEVERAL {
        return 0..n;
    }
    let end = usize::from(told);
    if end == 0 || n < end {
        return 0..0;
    }
    end - 1..end
}

// With one more entry of a name, in a live state; the first in a state counts.
#[tactic(auto, unfolding(crate::specs::Many::first_of))]
fn with(found: Offsets, state: u8, at: u16) -> Offsets
    requires { live_state_def state ≡ true }
    ensures { result ≡ noted_at (eqb state 0x3F) (eqb state 0x3E) at found }
{
    if state == 0x3F {
        Offsets {
            added: found.added.or(Some(at)),
            ..found
        }
    } else {
        Offsets {
            replacing: found.replacing.or(Some(at)),
            ..found
        }
    }
}

// Whether a live entry has the name and GUID of a place.
fn is_asked(region: &[u8], placed: Placed, keys: &[u8], k: usize, size: u32) -> bool
    requires { (k < 64) × (live_state_def placed.entry.state ≡ true) × (placed.at + 60 ≤ length region.now) }
    ensures { result ≡ same_key_def (entry_key (entry_at region.now placed.at placed.entry)) (asked_at keys.now k size) }
{
    let key = asked(keys, k, size);
    let rest = slices::from(region, placed.at);
    slices::equal(
        layout::key_of(Layout::AUTHENTICATED, rest, placed.entry),
        key,
    )
}

// A live entry noted for those of some names that are its own.
fn note(
    region: &[u8],
    placed: Placed,
    keys: &[u8],
    sizes: &[u32],
    names: Range<usize>,
    found: &mut [Offsets],
)
    requires { (placed.at < 65536) × (names.start ≤ names.end) × (names.end ≤ length sizes.now) × (length sizes.now ≤ 64) × (length found.old ≡ 64)
        × (live_state_def placed.entry.state ≡ true) × (placed.at + 60 ≤ length region.now) }
    ensures { NotedIn keys.now sizes.now region.now placed.at placed.entry names.start names.end found.old found.new }
{
    for k in names.start..names.end {
        if is_asked(region, placed, keys, k, sizes[k]) {
            found[k] = with(found[k], placed.entry.state, placed.at as u16);
        }
    }
}

// An entry noted for all names, of which the table leads to those that it may have.
fn note_entry(
    region: &[u8],
    placed: Placed,
    told: u8,
    keys: &[u8],
    sizes: &[u32],
    found: &mut [Offsets],
)
    requires { (placed.at < 65536) × (length sizes.now ≤ 64) × (length found.old ≡ 64) × (placed.at + 60 ≤ length region.now)
        × ((k : ℕ) → k < length sizes.now → is_sought_def (key_from (key_bytes keys.now sizes.now k)) (entry_at region.now placed.at placed.entry) ≡ true → leads told k ≡ true) }
    ensures { Noted keys.now sizes.now region.now placed.at placed.entry found.old found.new }
{
    if judge::is_live(placed.entry.state) {
        note(region, placed, keys, sizes, names(told, sizes.len()), found);
    }
}

// A list in which no name is met.
#[tactic(auto, unfolding(crate::specs::Many::none_met_def))]
pub fn none_met() -> [Offsets; 64]
    ensures { result ≡ none_met_def }
{
    let nowhere = Offsets {
        added: None,
        replacing: None,
    };
    [nowhere; 64]
}

// Where the names are met, by one walk. An entry to whose mark the table does not lead has none of them.
pub fn find(region: &[u8], keys: &[u8], sizes: &[u32], found: &mut [Offsets])
    requires { (length region.now ≤ 28672) × (length sizes.now ≤ 64) × (found.old ≡ none_met_def) }
    ensures { AllMet keys.now sizes.now region.now found.new }
{
    let mut table = marks::no_marks();
    index(keys, sizes, &mut table);
    for e in walk::entries(Layout::AUTHENTICATED, region) {
        let Stored { at, entry, .. } = e;
        let mark = marks::mark_of(Layout::AUTHENTICATED, &region[at..], entry);
        let told = table[mark.place];
        if told != 0 {
            note_entry(region, Placed { at, entry }, told, keys, sizes, found);
        }
    }
}
