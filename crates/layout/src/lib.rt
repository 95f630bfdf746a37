// The readers of an entry, in every stored form; the fixed byte strings of the format stand in `fixed`.
#![tactic(auto)]

ghost use Rattle.std.specs.Prelude.{◌≡◌, false, ◌++◌, ◌+◌, ◌<◌, ◌^◌};
ghost use Rattle.model.specs.Lists.{u16_at_def, u32_at};
ghost use Rattle.model.specs.Layout.{header_length};
ghost use Rattle.model.specs.Region.{record_bit};
ghost use Rattle.model.specs.Entry.{header_fields, header_fields_in, rounded};
ghost use Rattle.layout.specs.Head.{head_in, name_in, data_in, may_be_def, Unlike};

use model::Layout;

pub mod fixed;

// The bytes of a block.
pub const BLOCK: usize = 4096;

// The bytes of the longest region, seven blocks: as many has the content in which calls compose.
pub const CONTENT: usize = 28672;

// The bytes of the region's header, behind which the walk starts.
pub const REGION_HEADER: usize = 28;

// The bytes of the longest data that a value may have.
pub const LARGEST_DATA: u32 = 2048;

// The numbers of an entry's header: state, attributes, size of the name, size of the data.
#[derive(Clone, Copy)]
pub struct Entry {
    pub state: u8,
    pub attributes: u32,
    pub name: u32,
    pub size: u32,
}

// Little-endian fields; bytes past the end count as 0.
pub fn u16_at(s: &[u8], i: usize) -> u32
    ensures { (result ≡ u16_at_def s.now i) × (result < 65536) }
{
    if s.len() <= i {
        return 0;
    }
    let high = if i + 1 < s.len() { s[i + 1] } else { 0 };
    u32::from(s[i]) + 256 * u32::from(high)
}

pub fn u32_at(s: &[u8], i: usize) -> u32
    ensures { result ≡ u32_at s.now i }
{
    if s.len() <= i {
        return 0;
    }
    u16_at(s, i) + 65536 * u16_at(s, i + 2)
}

// The header at the front of `s`, the part of the region from an entry's first byte on; none at the end of the walk.
#[tactic(auto, unfolding(crate::specs::Head::head_in, model::specs::Entry::read_header_in, model::specs::Entry::header_fields_in))]
pub fn read_head(y: Layout, s: &[u8]) -> Option<Entry>
    ensures { result ≡ head_in y s.now }
{
    if s.len() < y.header() {
        return None;
    }
    if u16_at(s, 0) == 0x55AA {
        Some(Entry {
            state: s[Layout::STATE],
            attributes: u32_at(s, Layout::ATTRIBUTES),
            name: u32_at(s, y.name_size()),
            size: u32_at(s, y.data_size()),
        })
    } else {
        None
    }
}

// A size up to the next multiple of 4, at which the next entry begins.
pub fn rounded(size: usize) -> usize
    requires { size + 3 < 2 ^ 64 }
    ensures { result ≡ rounded size }
{
    (size + 3) / 4 * 4
}

// The rounded size of an entry whose name and data have so many bytes.
pub fn entry_size(y: Layout, name: usize, size: usize) -> usize
    requires { header_length y + name + size + 3 < 2 ^ 64 }
    ensures { result ≡ rounded (header_length y + name + size) }
{
    rounded(y.header() + name + size)
}

// Whether attributes are those of an error record.
pub fn is_error_record(attributes: u32) -> bool
    ensures { result ≡ record_bit attributes }
{
    attributes / 0x08 % 2 == 1
}

// The stamp of the entry at the front of `s`, in the form in which calls store.
#[tactic(auto, unfolding(model::specs::Entry::header_fields_in))]
pub fn stamp_of(s: &[u8]) -> &[u8]
    ensures { result.now ≡ (header_fields s.now).stamp }
{
    slices::cut(s, Layout::STAMP, 16)
}

// The GUID of the entry at the front of `s`.
#[tactic(auto, unfolding(model::specs::Entry::header_fields_in))]
pub fn vendor_of(y: Layout, s: &[u8]) -> &[u8]
    ensures { result.now ≡ (header_fields_in y s.now).vendor }
{
    slices::cut(s, y.vendor(), 16)
}

// Its GUID and its name, which stand one behind the other.
pub fn key_of(y: Layout, s: &[u8], e: Entry) -> &[u8]
    ensures { result.now ≡ (header_fields_in y s.now).vendor ++ name_in y s.now e }
{
    let at = y.vendor();
    if e.state == 0xFF {
        return slices::cut(s, at, 16);
    }
    slices::cut(s, at, 16 + e.name as usize)
}

// Its name by its numbers, as much of it as is there; an unfinished entry has none.
#[tactic(auto, unfolding(crate::specs::Head::name_in, model::specs::Walk::placed))]
pub fn name_of(y: Layout, s: &[u8], e: Entry) -> &[u8]
    ensures { result.now ≡ name_in y s.now e }
{
    if e.state == 0xFF {
        return &s[..0];
    }
    slices::cut(s, y.header(), e.name as usize)
}

// Its data, likewise.
#[tactic(auto, unfolding(crate::specs::Head::data_in, model::specs::Walk::placed))]
pub fn data_of(y: Layout, s: &[u8], e: Entry) -> &[u8]
    ensures { result.now ≡ data_in y s.now e }
{
    if e.state == 0xFF {
        return &s[..0];
    }
    slices::cut(s, y.header() + e.name as usize, e.size as usize)
}

// Whether the entry at the front of `s`, in the form in which calls store and whatever its numbers, may have this name: the words at the end and at the front
// of the name, which are cheap to see.
#[tactic(auto, unfolding(crate::specs::Head::may_be_def))]
pub fn may_be(s: &[u8], name: &[u8]) -> bool
    ensures { (result ≡ may_be_def s.now name.now) × (result ≡ false → Unlike s.now name.now) }
{
    let n = name.len();
    if n < 4 {
        return true;
    }
    slices::four(s, Layout::HEADER + (n - 4)) == slices::four(name, n - 4)
        && slices::four(s, Layout::HEADER) == slices::four(name, 0)
}
