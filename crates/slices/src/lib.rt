// Byte slices: compared, cut, tested.
#![tactic(auto)]

ghost use Rattle.std.specs.Prelude.{◌≡◌, ◌==◌, true, false, ◌&&◌, ◌+◌, ◌*◌, ◌-◌, ◌%◌, ◌<◌, ◌≤◌, ◌^◌, length, drop, get_or};
ghost use Rattle.std.specs.List.{list_all};
ghost use Rattle.model.specs.Lists.{same, part, all_ff, u32_at};
ghost use Rattle.model.specs.Name.{zero_ended, well_named};
ghost use Rattle.slices.specs.Agree.{Agree, u64_at, four_at};
ghost use Rattle.slices.specs.Characters.{NonZero};

// The bytes of the longest well-formed name: 63 characters and a zero character.
pub const LONGEST_NAME: usize = 128;

// Four bytes as a number, where they are all there.
pub fn word(s: &[u8], i: usize) -> u64
    requires { i + 4 ≤ length s.now }
    ensures { (result ≡ u32_at s.now i) × (result < 2 ^ 32) }
{
    u64::from(s[i])
        + 256 * u64::from(s[i + 1])
        + 65536 * (u64::from(s[i + 2]) + 256 * u64::from(s[i + 2 + 1]))
}

// Four bytes as a number; 0 where they are not all there.
#[tactic(auto, unfolding(crate::specs::Agree::four_at))]
pub fn four(s: &[u8], i: usize) -> u64
    ensures { result ≡ four_at s.now i }
{
    if s.len() < 4 || s.len() - 4 < i {
        return 0;
    }
    word(s, i)
}

// Eight bytes as a number, where they are all there.
pub fn standing_eight(s: &[u8], i: usize) -> u64
    requires { i + 8 ≤ length s.now }
    ensures { result ≡ u64_at s.now i }
{
    word(s, i) + 4294967296 * word(s, i + 4)
}

// Whether two slices hold the same bytes: eight at a time, from their ends on, since in most stores names that differ do so late.
pub fn equal(a: &[u8], b: &[u8]) -> bool
    ensures { result ≡ same a.now b.now }
{
    if a.len() != b.len() {
        return false;
    }
    let mut i = a.len();
    while 8 <= i {
        i -= 8;
        if standing_eight(a, i) != standing_eight(b, i) {
            return false;
        }
    }
    for k in 0..i {
        if a[k] != b[k] {
            return false;
        }
    }
    true
}

// Whether every byte is FF, one by one: for what is left over by the quarters.
fn is_blank_rest(s: &[u8]) -> bool
    ensures { result ≡ list_all (λ b. 0xFF == b) s.now }
{
    s.iter().all(|&b| b == 0xFF)
}

// Whether every byte of four slices of one length is FF. No early exit: a blank slice is read whole anyway, and without one the compiler takes many bytes of each
// at a time.
fn are_blank(a: &[u8], b: &[u8], c: &[u8], d: &[u8]) -> bool
    requires { (length b.now ≡ length a.now) × (length c.now ≡ length a.now) × (length d.now ≡ length a.now) }
    ensures { result ≡ (all_ff a.now && (all_ff b.now && (all_ff c.now && all_ff d.now))) }
{
    let mut both: u8 = 0xFF;
    for i in 0..a.len() {
        both = both & a[i] & b[i] & c[i] & d[i];
    }
    both == 0xFF
}

// Whether every byte is FF: four quarters at once, then the rest of at most three bytes.
pub fn is_blank(s: &[u8]) -> bool
    ensures { result ≡ all_ff s.now }
{
    let q = s.len() / 4;
    are_blank(
        cut(s, 0, q),
        cut(s, q, q),
        cut(s, 2 * q, q),
        cut(s, 3 * q, q),
    ) && is_blank_rest(from(s, 4 * q))
}

// The bytes from start on, at most len of them.
pub fn cut(s: &[u8], start: usize, len: usize) -> &[u8]
    ensures { result.now ≡ part start len s.now }
{
    let rest = from(s, start);
    &rest[..len.min(rest.len())]
}

// The bytes from start on; past the end, none.
pub fn from(s: &[u8], start: usize) -> &[u8]
    ensures { result.now ≡ drop start s.now }
{
    &s[start.min(s.len())..]
}

// A character as a number.
fn character(s: &[u8], i: usize) -> u64
    requires { i + 2 ≤ length s.now }
    ensures { (result ≡ get_or s.now i 0 + 256 * get_or s.now (i + 1) 0) × (result < 65536) }
{
    u64::from(s[i]) + 256 * u64::from(s[i + 1])
}

// Whether none of the four characters from an offset on is zero. Joined by `&`, which asks all four, the tests become one of the whole window.
fn four_nonzero(name: &[u8], i: usize) -> bool
    requires { (i + 8 ≤ length name.now) × (i % 2 ≡ 0) }
    ensures { result ≡ true → NonZero name.now i (i + 8) }
{
    (character(name, i) != 0)
        & (character(name, i + 2) != 0)
        & (character(name, i + 4) != 0)
        & (character(name, i + 6) != 0)
}

// The same of two windows of four, which may overlap.
fn eight_nonzero(name: &[u8], i: usize, j: usize) -> bool
    requires { (i + 8 ≤ length name.now) × (i % 2 ≡ 0) × (j + 8 ≤ length name.now) × (j % 2 ≡ 0) }
    ensures { result ≡ true → NonZero name.now i (i + 8) × NonZero name.now j (j + 8) }
{
    four_nonzero(name, i) & four_nonzero(name, j)
}

// Whether no character but the last is zero, one by one.
fn front_nonzero(name: &[u8]) -> bool
    requires { length name.now % 2 ≡ 0 }
    ensures yes { result ≡ true → NonZero name.now 0 (length name.now - 2) }
    ensures no { result ≡ false → zero_ended name.now ≡ false }
{
    let mut i = 0;
    while i + 2 < name.len() {
        if character(name, i) == 0 {
            return false;
        }
        i += 2;
    }
    true
}

// Whether no character is zero between the first four and the last five.
fn inner_nonzero(name: &[u8]) -> bool
    requires { 18 < length name.now }
    ensures { result ≡ true → NonZero name.now 8 (length name.now - 10) }
{
    let n = name.len();
    let mut i: usize = 8;
    while i + 10 < n {
        if !four_nonzero(name, i) {
            return false;
        }
        i += 8;
    }
    true
}

// Whether a name of a right length is well formed, four characters at a time. Only the yes is proved: where it says no, `is_named` decides.
pub fn is_zero_ended(name: &[u8]) -> bool
    requires { (4 ≤ length name.now) × (length name.now ≤ 128) × (length name.now % 2 ≡ 0) }
    ensures { result ≡ true → well_named name.now ≡ true }
{
    let n = name.len();
    if character(name, n - 2) != 0 {
        return false;
    }
    if n < 10 {
        return front_nonzero(name);
    }
    eight_nonzero(name, 0, n - 10) && (n <= 18 || inner_nonzero(name))
}

// Whether a name is well formed: 1 to 63 characters of UTF-16 and a zero character, with no zero character before.
pub fn is_named(name: &[u8]) -> bool
    ensures { result ≡ well_named name.now }
{
    let n = name.len();
    if n < 4 || LONGEST_NAME < n || n % 2 != 0 {
        return false;
    }
    front_nonzero(name) && character(name, n - 2) == 0
}
