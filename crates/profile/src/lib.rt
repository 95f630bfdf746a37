// A profile's file: its numbers and items, read at their places.
#![tactic(auto)]

ghost use Rattle.std.specs.Prelude.{◌≡◌, ◌+◌, ◌^◌, ◌<◌, ◌≤◌, length, drop, get_or};
ghost use Rattle.std.specs.List.{list_any, slice_range};
ghost use Rattle.model.specs.Lists.{part, among};
ghost use Rattle.model.specs.Name.{same_key_def};
ghost use Rattle.model.specs.Request.{request_key};
ghost use Rattle.model.specs.Profile.{number_at, item_attributes, item_body, item_at, items_at, shares_name_def};
ghost use Rattle.profile.specs.Reader.{number_of, Below, request_in, item_of, Ends, requests_in, no_setting, ReadsAs, Reads};

// How many items a profile may hold.
const MOST: usize = 8;

// The bytes of a GUID.
const GUID: usize = 16;

// The most groups of a number.
const GROUPS: usize = 3;

// A number that was read, and the place after it.
#[derive(Clone, Copy)]
pub struct Numeral {
    pub value: usize,
    pub next: usize,
}

// An item: its attributes, the place of its GUID in the file, and the sizes of its name and its data, which follow the GUID.
#[derive(Clone, Copy, Default)]
pub struct Setting {
    pub attributes: u32,
    pub at: usize,
    pub name: u32,
    pub size: u32,
}

// How many items a profile has, and these in their order.
#[derive(Clone, Copy)]
pub struct Settings {
    pub count: usize,
    pub list: [Setting; MOST],
}

// A number: "groups of seven bits, low group first, top bit set where another follows, shortest form, three at most": a last group of 0 is alone only.
pub fn number(s: &[u8], at: usize) -> Option<Numeral>
    ensures { (number_of s.now result ≡ number_at (drop at s.now)) × Below (2 ^ 21) (length s.now) result }
{
    let mut next = at;
    let mut value = 0;
    let mut weight = 1;
    for i in 0..GROUPS {
        let b = usize::from(*s.get(next)?);
        next += 1;
        if b < 128 {
            if 0 < i && b == 0 {
                return None;
            }
            value += weight * b;
            return Some(Numeral { value, next });
        }
        value += weight * (b - 128);
        weight *= 128;
    }
    None
}

// "Attributes are 0x03 or 0x07".
fn is_item(attributes: usize) -> bool
    ensures { result ≡ among item_attributes attributes }
{
    matches!(attributes, 3 | 7)
}

// After an item's numbers: "GUID, name and data", as long as these say.
fn body(
    s: &[u8],
    attributes: usize,
    name: usize,
    size: usize,
    at: usize,
) -> Option<(Setting, usize)>
    requires { (attributes < 2 ^ 21) × (name < 2 ^ 21) × (size < 2 ^ 21) × (at ≤ length s.now) }
    ensures { (item_of s.now result ≡ item_body attributes name size (drop at s.now)) × Ends (length s.now) result }
{
    if is_item(attributes) {
        let next = at + GUID + name + size;
        if next <= s.len() {
            return Some((
                Setting {
                    attributes: attributes as u32,
                    at,
                    name: name as u32,
                    size: size as u32,
                },
                next,
            ));
        }
    }
    None
}

// An item: "attributes, name size, data size, GUID, name and data".
pub fn item(s: &[u8], at: usize) -> Option<(Setting, usize)>
    ensures { (item_of s.now result ≡ item_at (drop at s.now)) × Ends (length s.now) result }
{
    let attributes = number(s, at)?;
    let name = number(s, attributes.next)?;
    let size = number(s, name.next)?;
    body(s, attributes.value, name.value, size.value, size.next)
}

// So many items from a place on, and nothing after them.
fn items(file: &[u8], count: usize, from: usize) -> Option<Settings>
    requires { (count ≤ 8) × (from ≤ length file.now) }
    ensures { ReadsAs (items_at count (drop from file.now)) file.now result }
{
    let mut list = [Setting::default(); MOST];
    let mut at = from;
    for i in 0..count {
        let (setting, next) = item(file, at)?;
        list[i] = setting;
        at = next;
    }
    if at == file.len() {
        return Some(Settings { count, list });
    }
    None
}

// A profile: "up to eight settings .. their number, then for each ..", and no bytes after them.
pub fn read(file: &[u8]) -> Option<Settings>
    ensures { Reads file.now result }
{
    let Numeral {
        value: count,
        next: from,
    } = number(file, 0)?;
    if MOST < count {
        return None;
    }
    items(file, count, from)
}

// An item's GUID.
pub fn guid_of(file: &[u8], t: Setting) -> [u8; 16]
    requires { t.at + 16 ≤ length file.now }
    ensures { result ≡ part t.at 16 file.now }
{
    let mut guid = [0; 16];
    guid.copy_from_slice(slices::cut(file, t.at, GUID));
    guid
}

// An item's name.
pub fn name_of(file: &[u8], t: Setting) -> &[u8]
    ensures { result.now ≡ part (t.at + 16) t.name file.now }
{
    slices::cut(slices::from(file, t.at), GUID, t.name as usize)
}

// An item's data.
pub fn data_of(file: &[u8], t: Setting) -> &[u8]
    ensures { result.now ≡ part (t.at + 16 + t.name) t.size file.now }
{
    let named = slices::from(slices::from(file, t.at), GUID);
    slices::cut(named, t.name as usize, t.size as usize)
}

// Whether two items are of one name and GUID.
fn same_key(file: &[u8], a: Setting, b: Setting) -> bool
    ensures { result ≡ same_key_def (request_key (request_in file.now a)) (request_key (request_in file.now b)) }
{
    slices::equal(name_of(file, a), name_of(file, b))
        && slices::equal(slices::cut(file, a.at, GUID), slices::cut(file, b.at, GUID))
}

// Whether an item after the i-th has its name and GUID.
fn recurs(file: &[u8], p: Settings, i: usize) -> bool
    requires { (p.count ≤ 8) × (i < p.count) }
    ensures { result
        ≡ list_any
        (λ (t : Setting). same_key_def (request_key (request_in file.now t)) (request_key (request_in file.now (get_or p.list i no_setting))))
        (slice_range p.list (i + 1) p.count) }
{
    let one = p.list[i];
    p.list[i + 1..p.count]
        .iter()
        .any(|t| same_key(file, *t, one))
}

// "two items share name and GUID".
pub fn shares_name(file: &[u8], p: Settings) -> bool
    requires { p.count ≤ 8 }
    ensures { result ≡ shares_name_def (requests_in file.now p) }
{
    (0..p.count).any(|i| recurs(file, p, i))
}
