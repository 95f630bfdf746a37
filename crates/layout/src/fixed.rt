// The fixed byte strings of the format: vendor GUIDs, certificate GUID, key names, a record's name, and the region's header.
ghost use Rattle.std.specs.Prelude.{◌≡◌, ◌&&◌, ◌||◌, ◌+◌, ◌≤◌, length, take, drop};
ghost use Rattle.model.specs.Lists.{same};
ghost use Rattle.model.specs.Image.{region_header_in};
ghost use Rattle.model.specs.Region.{right_header_in};
ghost use Rattle.model.specs.Name.{keyed, same_key_def, record_vendor_def, record_front_def, is_digit_def, digits, record_name};
ghost use Rattle.model.specs.Sides.{modem_name, owns};
ghost use Rattle.model.specs.Request.{global_vendor_def, database_vendor_def, certificate, key_pk, key_kek, keydb, keydbx, keydbt, is_database_def, is_key_name_def, key_mode};
ghost use Rattle.layout.specs.Digits.{digit_at};

use model::Layout;

// The bytes of a record's name: eight characters, four digits and the zero character.
const RECORD_NAME: usize = 26;

#[tactic(auto, unfolding(model::specs::Request::global_vendor_def))]
pub fn global_vendor() -> [u8; 16]
    ensures { result ≡ global_vendor_def }
{
    *b"\x61\xDF\xE4\x8B\xCA\x93\xD2\x11\xAA\x0D\x00\xE0\x98\x03\x2B\x8C"
}

#[tactic(auto, unfolding(model::specs::Request::database_vendor_def))]
fn database_vendor() -> [u8; 16]
    ensures { result ≡ database_vendor_def }
{
    *b"\xCB\xB2\x19\xD7\x3A\x3D\x96\x45\xA3\xBC\xDA\xD0\x0E\x67\x65\x6F"
}

#[tactic(auto, unfolding(model::specs::Request::certificate))]
pub fn certificate() -> [u8; 16]
    ensures { result ≡ certificate }
{
    *b"\x9D\xD2\xAF\x4A\xDF\x68\xEE\x49\x8A\xA9\x34\x7D\x37\x56\x65\xA7"
}

#[tactic(auto, unfolding(model::specs::Name::record_vendor_def))]
fn record_vendor() -> [u8; 16]
    ensures { result ≡ record_vendor_def }
{
    *b"\xDD\x6B\x4E\x41\x7B\xE4\xCC\x47\xB2\x44\xBB\x61\x02\x0C\xF5\x16"
}

// The characters in front of a record's digits.
#[tactic(auto, unfolding(model::specs::Name::record_front_def))]
fn record_front() -> [u8; 16]
    ensures { result ≡ record_front_def }
{
    *b"H\0w\0E\0r\0r\0R\0e\0c\0"
}

#[tactic(auto, unfolding(model::specs::Request::key_pk))]
pub fn pk_name() -> [u8; 6]
    ensures { result ≡ key_pk.name }
{
    *b"P\0K\0\0\0"
}

#[tactic(auto, unfolding(model::specs::Request::key_kek))]
fn kek_name() -> [u8; 8]
    ensures { result ≡ key_kek.name }
{
    *b"K\0E\0K\0\0\0"
}

#[tactic(auto, unfolding(model::specs::Request::keydb))]
fn db_name() -> [u8; 6]
    ensures { result ≡ keydb.name }
{
    *b"d\0b\0\0\0"
}

#[tactic(auto, unfolding(model::specs::Request::keydbx))]
fn dbx_name() -> [u8; 8]
    ensures { result ≡ keydbx.name }
{
    *b"d\0b\0x\0\0\0"
}

#[tactic(auto, unfolding(model::specs::Request::keydbt))]
fn dbt_name() -> [u8; 8]
    ensures { result ≡ keydbt.name }
{
    *b"d\0b\0t\0\0\0"
}

#[tactic(auto, unfolding(model::specs::Request::key_mode))]
pub fn mode_name() -> [u8; 18]
    ensures { result ≡ key_mode.name }
{
    *b"P\0l\0a\0t\0M\0o\0d\0e\0\0\0"
}

// The header of a region of `size` bytes: the form's signature, the size, format 5A, state FE, six zero bytes.
pub fn region_header(y: Layout, size: usize) -> [u8; 28]
    ensures { result ≡ region_header_in y size }
{
    let s = y.signature();
    let [a, b, c, d, ..] = size.to_le_bytes();
    [
        s[0], s[1], s[2], s[3], s[4], s[5], s[6], s[7], s[8], s[9], s[10], s[11], s[12], s[13],
        s[14], s[15], a, b, c, d, 0x5A, 0xFE, 0, 0, 0, 0, 0, 0,
    ]
}

#[tactic(auto, unfolding(model::specs::Region::right_header_in))]
pub fn right_header(y: Layout, region: &[u8]) -> bool
    ensures { result ≡ right_header_in y region.now }
{
    let header = region_header(y, region.len());
    slices::equal(slices::cut(region, 0, crate::REGION_HEADER), &header)
}

// Whether a name and vendor are those of one key.
fn is_key(name: &[u8], vendor: &[u8; 16], key: &[u8], of: &[u8; 16]) -> bool
    ensures { result ≡ (same name.now key.now && same vendor.now of.now) }
{
    slices::equal(name, key) && slices::equal(vendor, of)
}

#[tactic(auto, unfolding(model::specs::Request::key_pk))]
pub fn is_pk(name: &[u8], vendor: &[u8; 16]) -> bool
    ensures { result ≡ same_key_def (keyed name.now vendor.now) key_pk }
{
    is_key(name, vendor, &pk_name(), &global_vendor())
}

#[tactic(auto, unfolding(model::specs::Request::key_kek))]
fn is_kek(name: &[u8], vendor: &[u8; 16]) -> bool
    ensures { result ≡ same_key_def (keyed name.now vendor.now) key_kek }
{
    is_key(name, vendor, &kek_name(), &global_vendor())
}

// Whether a name is db, dbx or dbt, whatever its vendor.
fn is_database_name(name: &[u8]) -> bool
    ensures { result ≡ (same name.now keydb.name || same name.now keydbx.name || same name.now keydbt.name) }
{
    slices::equal(name, &db_name())
        || slices::equal(name, &dbx_name())
        || slices::equal(name, &dbt_name())
}

#[tactic(auto, unfolding(model::specs::Request::is_database_def, model::specs::Request::keydb, model::specs::Request::keydbx, model::specs::Request::keydbt))]
pub fn is_database(name: &[u8], vendor: &[u8; 16]) -> bool
    ensures { result ≡ is_database_def (keyed name.now vendor.now) }
{
    slices::equal(vendor, &database_vendor()) && is_database_name(name)
}

#[tactic(auto, unfolding(model::specs::Request::is_key_name_def))]
pub fn is_key_name(name: &[u8], vendor: &[u8; 16]) -> bool
    ensures { result ≡ is_key_name_def (keyed name.now vendor.now) }
{
    is_pk(name, vendor) || is_kek(name, vendor) || is_database(name, vendor)
}

// Whether a name and vendor are PlatMode's.
#[tactic(auto, unfolding(model::specs::Request::key_mode))]
pub fn is_mode(name: &[u8], vendor: &[u8; 16]) -> bool
    ensures { result ≡ same_key_def (keyed name.now vendor.now) key_mode }
{
    is_key(name, vendor, &mode_name(), &global_vendor())
}

// Whether a byte is one of 0 to 9 and A to F.
fn is_digit(c: u8) -> bool
    ensures { result ≡ is_digit_def c }
{
    matches!(c, b'0'..=b'9' | b'A'..=b'F')
}

// Whether the character at an offset of a name is a digit.
#[tactic(auto, unfolding(crate::specs::Digits::digit_at))]
fn is_digit_at(name: &[u8], at: usize) -> bool
    requires { at + 2 ≤ length name.now }
    ensures { result ≡ digit_at name.now at }
{
    name[at + 1] == 0 && is_digit(name[at])
}

// Whether the four characters behind a record's front are digits.
fn has_digits(name: &[u8]) -> bool
    requires { length name.now ≡ 26 }
    ensures { result ≡ (digit_at name.now 16 && digit_at name.now 18 && digit_at name.now 20 && digit_at name.now 22) }
{
    is_digit_at(name, 16) && is_digit_at(name, 18) && is_digit_at(name, 20) && is_digit_at(name, 22)
}

// Whether four digits and the zero character stand behind a record's front.
fn is_record_number(name: &[u8]) -> bool
    requires { length name.now ≡ 26 }
    ensures { result ≡ digits 4 (drop 16 name.now) }
{
    has_digits(name) && name[24] == 0 && name[25] == 0
}

// Whether a name of this length is HwErrRec and four digits.
fn is_record_form(name: &[u8]) -> bool
    requires { length name.now ≡ 26 }
    ensures { result ≡ (same (take 16 name.now) record_front_def && digits 4 (drop 16 name.now)) }
{
    slices::equal(slices::cut(name, 0, 16), &record_front()) && is_record_number(name)
}

// Whether a name and vendor are those of a hardware error record. Most names have another length, and cost no more.
#[tactic(auto, using(crate::proofs::Records::record_length), unfolding(model::specs::Name::record_name))]
pub fn is_record_name(name: &[u8], vendor: &[u8]) -> bool
    ensures { result ≡ record_name (keyed name.now vendor.now) }
{
    name.len() == RECORD_NAME && is_record_form(name) && slices::equal(vendor, &record_vendor())
}

// Whether a name is the modem's, whose vendor GUID is given: all names under it are, but key names, PlatMode and those of error records.
#[tactic(auto, using(crate::proofs::Owners::modem_as))]
fn is_modems(guid: &[u8; 16], name: &[u8], vendor: &[u8]) -> bool
    ensures { result ≡ modem_name guid.now (keyed name.now vendor.now) }
{
    slices::equal(vendor, guid)
        && !is_key_name(name, guid)
        && !is_mode(name, guid)
        && !is_record_name(name, guid)
}

// Whether a name is a side's own: the modem's, or ours.
#[tactic(auto, unfolding(model::specs::Sides::owns))]
pub fn is_own(guid: &[u8; 16], modem: bool, name: &[u8], vendor: &[u8]) -> bool
    ensures { result ≡ owns guid.now modem (keyed name.now vendor.now) }
{
    is_modems(guid, name, vendor) == modem
}
