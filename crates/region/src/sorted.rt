// The pass over the entries for a region in which many names have equal marks, so that no choice of names makes a check take long. A table of offsets is sorted by state,
// name and GUID; then each live entry is looked up in it. The place that is found is a function of state, name and GUID, so of two entries that have them in common only
// one finds itself there. That the table is sorted is not proved, and not needed: an entry that does not find itself is looked for among those before it.
ghost use Rattle.std.specs.Prelude.{◌≡◌, ◌<◌, ◌≤◌, length, slice_index_or};
ghost use Rattle.region.specs.Judge.{scan_of};
ghost use Rattle.region.specs.Walk.{entry_as};
ghost use Rattle.region.specs.Sorted.{key_before_def, is_before_def, place_of_def, owns_place_def};

use crate::{judge, walk};
use layout::Entry;
use model::Layout;

// How many offsets the table holds. Seven blocks hold 716 of the smallest entries in the plain form, and 421 in the form in which calls store.
const PLACES: usize = 720;

// What is at a place where none is entered. No entry of seven blocks begins there.
const NOWHERE: u16 = 0xFFFF;

// The offset at a place of the table.
fn offset_at(table: &[u16], i: usize) -> u16
    ensures { result ≡ slice_index_or table.now i 65535 }
{
    table.get(i).copied().unwrap_or(NOWHERE)
}

// Whether a GUID with the name after it comes before another of the same length, by words of eight bytes from the front on. The last of them may overlap.
fn key_before(a: &[u8], b: &[u8]) -> bool
    requires { (8 ≤ length b.now) × (length b.now ≤ length a.now) }
    ensures { result ≡ key_before_def a.now b.now }
{
    let n = b.len();
    for i in 0..n / 8 {
        let x = slices::standing_eight(a, 8 * i);
        let y = slices::standing_eight(b, 8 * i);
        if x != y {
            return x < y;
        }
    }
    slices::standing_eight(a, n - 8) < slices::standing_eight(b, n - 8)
}

// Whether the entry at an offset comes before this state, GUID and name: the longer name first, then by the state, then by the bytes. So an entry with too few bytes
// after it for such a name does not, whatever else it is.
fn is_before(y: Layout, region: &[u8], at: u16, state: u8, key: &[u8]) -> bool
    requires { (16 ≤ length key.now) × (length key.now ≤ 65536) }
    ensures { result ≡ is_before_def y region.now at state key.now }
{
    let from = usize::from(at);
    if region.len() < from + (y.vendor() + key.len()) {
        return false;
    }
    let s = &region[from..];
    let size = slices::word(s, y.name_size()) as usize;
    let n = key.len() - 16;
    if size != n {
        return n < size;
    }
    let own = s[Layout::STATE];
    if own != state {
        return own < state;
    }
    let v = y.vendor();
    key_before(&s[v..], key)
}

// The place of a state, GUID and name in a sorted table: how many of its entries come before them.
#[tactic(auto, unfolding(crate::specs::Sorted::place_of_def))]
fn place_of(y: Layout, region: &[u8], table: &[u16], state: u8, key: &[u8]) -> usize
    ensures { result ≡ place_of_def y region.now table.now state key.now }
{
    if key.len() < 16 || 65536 < key.len() {
        return 0;
    }
    let mut step: usize = 511;
    let mut low: usize = 0;
    for _ in 0..10_usize {
        if is_before(y, region, offset_at(table, low + step), state, key) {
            low += step + 1;
        }
        step /= 2;
    }
    low
}

// Enters an offset at a place, after so many others; those from there on move up.
fn insert(table: &mut [u16; PLACES], count: usize, place: usize, at: usize)
    requires { count < 720 }
{
    let place = place.min(count);
    table.copy_within(place..count, place + 1);
    table[place] = (at % 65536) as u16;
}

// Whether the entry at an offset has this state, GUID and name.
fn is_same(y: Layout, region: &[u8], at: usize, state: u8, key: &[u8]) -> bool {
    let Some((e, _)) = walk::turn(y, region, at) else {
        return false;
    };
    e.state == state && slices::equal(layout::key_of(y, slices::from(region, at), e), key)
}

// Enters an entry in a table of so many if it is live, and answers how many there are then. Of a doubled name the first stays. A name that ends past the region, which is not
// sound, is not entered: by its size it would come before others, and by its bytes after them.
fn enter(
    y: Layout,
    region: &[u8],
    table: &mut [u16; PLACES],
    count: usize,
    at: usize,
    e: Entry,
) -> usize
    requires { count < 720 }
    ensures { result ≤ 720 }
{
    if !judge::is_live(e.state) {
        return count;
    }
    let key = layout::key_of(y, slices::from(region, at), e);
    if key.len() != 16 + e.name as usize {
        return count;
    }
    let p = place_of(y, region, table, e.state, key);
    if is_same(y, region, usize::from(offset_at(table, p)), e.state, key) {
        return count;
    }
    insert(table, count, p, at);
    count + 1
}

// Enters the live entries of a region, as many as there is place for.
fn sort(y: Layout, region: &[u8], table: &mut [u16; PLACES]) {
    let mut count = 0;
    for e in walk::entries(y, region) {
        if count == PLACES {
            return;
        }
        count = enter(y, region, table, count, e.at, e.entry);
    }
}

// Whether an entry, if it is live, finds itself in the table.
#[tactic(auto, unfolding(crate::specs::Sorted::owns_place_def, crate::specs::Walk::entry_as, model::specs::Walk::placed, layout::specs::Head::name_in))]
fn owns_place(y: Layout, region: &[u8], table: &[u16], at: usize, e: Entry) -> bool
    ensures { result ≡ owns_place_def y region.now table.now (entry_as y region.now at e) }
{
    if !judge::is_live(e.state) {
        return true;
    }
    let key = layout::key_of(y, slices::from(region, at), e);
    let p = place_of(y, region, table, e.state, key);
    usize::from(offset_at(table, p)) == at
}

// One pass over the entries by a table: where the tail begins, if they are sound and no name is doubled.
fn scan_by_table(y: Layout, region: &[u8], table: &[u16]) -> Option<usize>
    ensures { result ≡ scan_of y region.now }
{
    let mut settled = true;
    let mut tail = layout::REGION_HEADER;
    for e in walk::entries(y, region) {
        if !judge::entry_sound(y, &region[e.at..], e.entry) {
            return None;
        }
        settled &= owns_place(y, region, table, e.at, e.entry);
        if judge::is_doubled(y, region, e.at, e.entry, !settled) {
            return None;
        }
        tail = e.next;
    }
    Some(tail)
}

// The same by a table of its own, which is sorted first.
pub(crate) fn scan_sorted(y: Layout, region: &[u8]) -> Option<usize>
    ensures { result ≡ scan_of y region.now }
{
    let mut table = [NOWHERE; PLACES];
    sort(y, region, &mut table);
    scan_by_table(y, region, &table)
}
