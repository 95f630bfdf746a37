// When a region is sound and clean, in every stored form.
ghost use Rattle.std.specs.Prelude.{◌≡◌, ◌-◌, ◌*◌, ◌+◌, ◌≤◌, true, ◌&&◌, length, drop};
ghost use Rattle.std.specs.Option.{is_some, IfSome};
ghost use Rattle.std.specs.Result.{IfOk};
ghost use Rattle.model.specs.Lists.{among, all_ff, part};
ghost use Rattle.model.specs.Name.{keyed};
ghost use Rattle.model.specs.Layout.{header_length};
ghost use Rattle.model.specs.Entry.{states};
ghost use Rattle.model.specs.Walk.{entry_key};
ghost use Rattle.model.specs.Region.{entries_in, right_live_def, is_entry_def};
ghost use Rattle.region.specs.Walk.{entry_as};
ghost use Rattle.region.specs.Judge.{plain_attributes_def, live_state_def, right_record_def, entry_sound_def, doubled_in, judged_in, UsualFront, RightSizes, UsualOf};
ghost use Rattle.region.specs.Marks.{up_to};
ghost use Rattle.region.specs.Met.{first_at, key_from, is_sought_def, met_of, met_by, met_at_def, surveyed, searched_in};

use crate::{GivenUp, Met, Searched, Sound, Survey, Usual, marks, sorted, walk};
use layout::Entry;
use model::Layout;

// How many bytes of the region the looks among entries before may pass, eight blocks; then a table is sorted, which takes as long as some eight times as many.
const WALKED: usize = 32768;

// Whether a state is one of the six.
fn known_state(state: u8) -> bool
    ensures { result ≡ among states state }
{
    matches!(state, 0xFF | 0x7F | 0x3F | 0x3E | 0x3D | 0x3C)
}

// Whether attributes are among those that are stored, an error record's apart.
fn plain_attributes(attributes: u32) -> bool
    ensures { result ≡ among plain_attributes_def attributes }
{
    matches!(attributes, 0x03 | 0x07 | 0x23 | 0x27)
}

// Whether a state is 3F or 3E.
pub fn is_live(state: u8) -> bool
    ensures { result ≡ live_state_def state }
{
    matches!(state, 0x3F | 0x3E)
}

// Whether the entry at the front of `s` has the attributes of an error record, and a well-formed name that is a record's.
#[tactic(auto, unfolding(crate::specs::Walk::entry_as, layout::specs::Head::name_in, model::specs::Walk::placed))]
fn right_record(y: Layout, s: &[u8], e: Entry) -> bool
    ensures { result ≡ right_record_def e.attributes (entry_key (entry_as y s.now 0 e)) }
{
    if e.attributes != 0x0F {
        return false;
    }
    let name = layout::name_of(y, s, e);
    slices::is_named(name) && layout::fixed::is_record_name(name, layout::vendor_of(y, s))
}

// Whether the entry at the front of `s`, if it is live, has a right name, data of a right size, and attributes that are stored.
#[tactic(auto, using(crate::proofs::Judging::rights))]
fn right_live(y: Layout, s: &[u8], e: Entry) -> bool
    ensures { result ≡ right_live_def (entry_as y s.now 0 e) }
{
    if !is_live(e.state) {
        return true;
    }
    if e.size < 1 || layout::LARGEST_DATA < e.size {
        return false;
    }
    if plain_attributes(e.attributes) {
        slices::is_named(layout::name_of(y, s, e))
    } else {
        right_record(y, s, e)
    }
}

// Whether the entry at the front of `s` is sound by itself: a known state, an end within the region, and right if it is live.
#[tactic(auto, unfolding(crate::specs::Judge::entry_sound_def, crate::specs::Walk::entry_as, model::specs::Walk::placed))]
pub(crate) fn entry_sound(y: Layout, s: &[u8], e: Entry) -> bool
    ensures { result ≡ entry_sound_def (length s.now) (entry_as y s.now 0 e) }
{
    if e.state == 0xFF {
        return true;
    }
    known_state(e.state)
        && y.header() + e.name as usize + e.size as usize <= s.len()
        && right_live(y, s, e)
}

// The offset of the first entry before an offset that has this state, name and GUID.
#[tactic(auto, unfolding(crate::specs::Marks::up_to))]
fn first_before(
    y: Layout,
    region: &[u8],
    end: usize,
    state: u8,
    name: &[u8],
    vendor: &[u8],
) -> Option<usize>
    ensures { result ≡ first_at (is_entry_def state (keyed name.now vendor.now)) (up_to end (entries_in y region.now)) }
{
    for e in walk::entries(y, region) {
        if end <= e.at {
            return None;
        }
        if e.is(state, name, vendor) {
            return Some(e.at);
        }
    }
    None
}

// Whether an entry is live and its state, name and GUID came before. They are looked for only where that may be.
#[tactic(auto, using(crate::proofs::Scanning::doubled_live, crate::proofs::Scanning::doubled_dead, crate::proofs::Meetings::any_met))]
pub(crate) fn is_doubled(y: Layout, region: &[u8], at: usize, e: Entry, suspect: bool) -> bool
    ensures { result ≡ (suspect && doubled_in (entry_as y region.now at e) (up_to at (entries_in y region.now))) }
{
    if suspect && is_live(e.state) {
        let name = walk::name_of(y, region, at, e);
        let vendor = walk::vendor_of(y, region, at);
        return first_before(y, region, at, e.state, name, vendor).is_some();
    }
    false
}

// Whether a header begins as that of a usual entry: start id, state 3F, a zero byte, and attributes that are stored, an error record's apart. All are in one number,
// which with attributes 07 is one constant: most entries have them.
fn usual_front(s: &[u8]) -> bool
    requires { 8 ≤ length s.now }
    ensures { result ≡ true → UsualFront s.now }
{
    let front = slices::standing_eight(s, 0);
    if front == 0x7003F55AA {
        return true;
    }
    if front % 0x100000000 != 0x003F55AA {
        return false;
    }
    plain_attributes((front / 0x100000000) as u32)
}

// How many characters so many bytes are; of an odd number more than any name has, so that one comparison asks for both.
fn characters(n: u32) -> u32
    ensures { result ≤ 64 → n ≡ 2 * result }
{
    n / 2 + n % 2 * 0x80000000
}

// Whether a live entry may have a name and data of so many bytes.
fn right_sizes(name: u32, size: u32) -> bool
    ensures { result ≡ true → RightSizes name size }
{
    if size < 1 || layout::LARGEST_DATA < size {
        return false;
    }
    let count = characters(name);
    2 <= count && count <= 64
}

// The entry at the front of `s`, if it is *usual*: in state 3F, no error record, sound by itself. Only the yes is proved, here and in the tests above: an entry that is not
// known to be usual is judged as any other.
fn usual_of(y: Layout, s: &[u8]) -> Option<Usual>
    requires { header_length y ≤ length s.now }
    ensures { IfSome result (λ u. UsualOf y s.now u.name u.end) }
{
    if !usual_front(s) {
        return None;
    }
    let name = slices::word(s, y.name_size()) as u32;
    let size = slices::word(s, y.data_size()) as u32;
    if !right_sizes(name, size) {
        return None;
    }
    let h = y.header();
    let n = name as usize;
    let end = h + n + size as usize;
    if s.len() < end {
        return None;
    }
    if slices::is_zero_ended(&s[h..h + n]) {
        Some(Usual { name: n, end })
    } else {
        None
    }
}

// The offset at which a header that ends with the region begins; 0 where none fits.
fn last_header(y: Layout, region: &[u8]) -> usize
    ensures { result ≡ length region.now - header_length y }
{
    region.len().saturating_sub(y.header())
}

// The usual entry at an offset. What begins with the last header has no room for a name.
fn usual_at(y: Layout, region: &[u8], last: usize, at: usize) -> Option<Usual>
    requires { last ≡ length region.now - header_length y }
    ensures { IfSome result (λ u. (at ≤ length region.now) × UsualOf y (drop at region.now) u.name u.end) }
{
    if last <= at {
        return None;
    }
    usual_of(y, &region[at..])
}

// What is left of WALKED once an entry that may be doubled, and is live, is looked for among those before it.
fn left_after(left: usize, at: usize, e: Entry, suspect: bool) -> usize {
    if suspect && is_live(e.state) {
        return left.saturating_sub(at);
    }
    left
}

// Whether an entry is live and has the sought name and GUID. They are compared only where that may be.
fn is_sought(y: Layout, region: &[u8], at: usize, e: Entry, key: &[u8], suspect: bool) -> bool
    requires { at + header_length y ≤ length region.now }
    ensures { result ≡ (suspect && is_sought_def (key_from key.now) (entry_as y region.now at e)) }
{
    if suspect && is_live(e.state) {
        return slices::equal(layout::key_of(y, slices::from(region, at), e), key);
    }
    false
}

// Whether the sought name was met in a live state.
fn is_met(met: Met, state: u8) -> bool
    ensures { result ≡ is_some (met_by state met) }
{
    if state == 0x3F {
        return met.added.is_some();
    }
    met.replacing.is_some()
}

// Where it is met once it is met in such a state at an offset.
fn met_at(met: Met, state: u8, at: usize) -> Met
    ensures { result ≡ met_at_def state at met }
{
    if state == 0x3F {
        return Met {
            added: Some(at),
            ..met
        };
    }
    Met {
        replacing: Some(at),
        ..met
    }
}

// One pass over the entries: each is sound by itself, and no name with its GUID has two 3F or two 3E entries. An entry whose mark is not noted is the first of its
// name. The inner loop passes usual entries whose marks are not noted, as nearly all are; at any other it stops, and the code after it judges that one. The mark of the
// sought name is noted from the beginning, so none of its entries is passed by the inner loop. Where too many bytes would have to be passed in looking back, it
// gives up.
fn scan_by_marks(y: Layout, region: &[u8], key: &[u8]) -> Result<Option<Survey>, GivenUp>
    ensures { IfOk result (λ found. found ≡ surveyed y region.now key.now) }
{
    let last = last_header(y, region);
    let mut noted = marks::no_marks();
    let own = marks::mark_of_key(key);
    noted[own.place] = own.sign;
    let mut met = Met {
        added: None,
        replacing: None,
    };
    let mut left = WALKED;
    let mut at = layout::REGION_HEADER;
    loop {
        while let Some(u) = usual_at(y, region, last, at) {
            let v = at + y.vendor();
            let m = marks::mark_of_key(&region[v..v + (16 + u.name)]);
            let old = noted[m.place];
            if old == 0 {
                noted[m.place] = m.sign;
                at += layout::rounded(u.end);
                continue;
            }
            if marks::is_noted(old, m.sign) {
                break;
            }
            noted[m.place] = marks::note(old, m.sign);
            at += layout::rounded(u.end);
        }
        let Some((e, next)) = walk::turn(y, region, at) else {
            return Ok(Some(Survey { tail: at, met }));
        };
        if !entry_sound(y, &region[at..], e) {
            return Ok(None);
        }
        let m = marks::mark_of(y, &region[at..], e);
        let old = noted[m.place];
        let suspect = marks::is_noted(old, m.sign);
        if is_sought(y, region, at, e, key, suspect) {
            if is_met(met, e.state) {
                return Ok(None);
            }
            met = met_at(met, e.state, at);
            at = next;
            continue;
        }
        left = left_after(left, at, e, suspect);
        if left == 0 {
            return Err(GivenUp);
        }
        if is_doubled(y, region, at, e, suspect) {
            return Ok(None);
        }
        noted[m.place] = marks::note(old, m.sign);
        at = next;
    }
}

// Where a name is met, by a walk over all entries for each state.
fn met_in(y: Layout, region: &[u8], key: &[u8]) -> Met
    ensures { result ≡ met_of (key_from key.now) (entries_in y region.now) }
{
    let name = slices::from(key, 16);
    let vendor = slices::cut(key, 0, 16);
    Met {
        added: first_before(y, region, region.len(), 0x3F, name, vendor),
        replacing: first_before(y, region, region.len(), 0x3E, name, vendor),
    }
}

// What one pass over the entries finds, if they are sound and no name is doubled.
fn scan(y: Layout, region: &[u8], key: &[u8]) -> Option<Survey>
    ensures { result ≡ surveyed y region.now key.now }
{
    if let Ok(found) = scan_by_marks(y, region, key) {
        return found;
    }
    let tail = sorted::scan_sorted(y, region)?;
    let met = met_in(y, region, key);
    Some(Survey { tail, met })
}

// What is told of a sound region, by where its tail begins.
fn with_tail(region: &[u8], tail: usize) -> Sound
    ensures { result ≡ record { tail = tail; clean = all_ff (part tail (length region.now) region.now) } }
{
    Sound {
        tail,
        clean: slices::is_blank(slices::cut(region, tail, region.len())),
    }
}

// What is told of a region, if it is sound: where its tail begins, whether it is clean, and where it has a name. It is sought as a GUID with the name behind it; by no
// bytes, nothing is.
pub fn judge_for(y: Layout, region: &[u8], key: &[u8]) -> Option<Searched>
    ensures { result ≡ searched_in y region.now key.now }
{
    if !layout::fixed::right_header(y, region) {
        return None;
    }
    let Survey { tail, met } = scan(y, region, key)?;
    let sound = with_tail(region, tail);
    Some(Searched { sound, met })
}

// The same with no name sought.
pub fn judge(y: Layout, region: &[u8]) -> Option<Sound>
    ensures { result ≡ judged_in y region.now }
{
    let found = judge_for(y, region, b"")?;
    Some(found.sound)
}
