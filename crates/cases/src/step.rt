// A step of a script, read from its bytes in the form that play tells. Numbers are little-endian; what is past the end counts as zeros or empty.
ghost use Rattle.std.specs.Prelude.{◌≡◌, ◌-◌, ◌<◌, ◌≤◌, length};

use decision::Asking;
use model::Tenant;

// The sizes that a many-get hands on: one more than it may ask for.
pub(crate) const SIZES: usize = 65;

// The name of a get, a next-name or a lock.
#[derive(Clone, Copy)]
pub(crate) struct Named<'a> {
    pub vendor: [u8; 16],
    pub name: &'a [u8],
}

// The names of a many-get: how many, their sizes, and their places.
#[derive(Clone, Copy)]
pub(crate) struct Names<'a> {
    pub number: usize,
    pub sizes: [u32; SIZES],
    pub places: &'a [u8],
}

// Bytes that are shown: from where on, and how many.
#[derive(Clone, Copy)]
pub(crate) struct Shown {
    pub at: u32,
    pub size: u16,
}

// What a step asks for.
#[derive(Clone, Copy)]
pub(crate) enum Step<'a> {
    Format(u8),
    StartUp {
        custom: u32,
        reserve: u32,
        records: u32,
    },
    Set {
        asking: Asking,
        named: Named<'a>,
        bytes: &'a [u8],
    },
    Profile(&'a [u8]),
    Mode(u32),
    Present,
    Get {
        room: u16,
        named: Named<'a>,
    },
    NextName {
        room: u16,
        named: Named<'a>,
    },
    GetMany {
        room: u16,
        names: Names<'a>,
    },
    Lock(Named<'a>),
    Phase(u32),
    Poke {
        at: u32,
        bytes: &'a [u8],
    },
    Show(Shown),
    Varlist,
    Move {
        form: u8,
        size: u32,
    },
    ShowTarget(Shown),
    TakeTarget,
    Dead {
        count: u32,
        dead: [u32; 16],
    },
    Page(u32),
    Rule {
        rules: u32,
        place: u8,
        rule: &'a [u8],
    },
    Side(u32),
    Tenants {
        share: u32,
        modem: Tenant,
    },
    Unknown,
}

// The first bytes, so many of them, and those behind them.
pub(crate) fn bytes(s: &[u8], size: usize) -> (&[u8], &[u8])
    ensures front { length result.0.now ≤ size }
    ensures back { length result.1.now ≡ length s.now - size }
{
    s.split_at(size.min(s.len()))
}

// A field of so many bytes.
fn field<const N: usize>(s: &[u8]) -> ([u8; N], &[u8])
    ensures { length result.1.now ≡ length s.now - N }
{
    let (given, rest) = bytes(s, N);
    let mut field = [0; N];
    field[..given.len()].copy_from_slice(given);
    (field, rest)
}

fn byte(s: &[u8]) -> (u8, &[u8])
    ensures { length result.1.now ≡ length s.now - 1 }
{
    let (n, rest) = field(s);
    let [n]: [u8; 1] = n;
    (n, rest)
}

// A number of two bytes.
fn short(s: &[u8]) -> (u16, &[u8])
    ensures { length result.1.now ≤ length s.now }
{
    let (n, rest) = field(s);
    (u16::from_le_bytes(n), rest)
}

// A number of four bytes.
fn long(s: &[u8]) -> (u32, &[u8])
    ensures { length result.1.now ≤ length s.now }
{
    let (n, rest) = field(s);
    (u32::from_le_bytes(n), rest)
}

// So many numbers of four bytes.
fn longs<const N: usize>(s: &[u8]) -> ([u32; N], &[u8])
    ensures { length result.1.now ≤ length s.now }
{
    let mut list = [0; N];
    let mut left = s;
    for n in list.iter_mut() {
        let (next, rest) = long(left);
        *n = next;
        left = rest;
    }
    (list, left)
}

// A GUID, the size of a name, and the name.
fn read_named(s: &[u8]) -> (Named<'_>, &[u8])
    ensures { length result.1.now ≤ length s.now }
{
    let (vendor, s) = field(s);
    let (size, s) = short(s);
    let (name, s) = bytes(s, usize::from(size));
    (Named { vendor, name }, s)
}

fn start_up(s: &[u8]) -> (Step<'_>, &[u8])
    ensures { length result.1.now ≤ length s.now }
{
    let (custom, s) = byte(s);
    let (reserve, s) = long(s);
    let (records, s) = long(s);
    let custom = u32::from(custom);
    (
        Step::StartUp {
            custom,
            reserve,
            records,
        },
        s,
    )
}

fn set(s: &[u8]) -> (Step<'_>, &[u8])
    ensures { length result.1.now ≤ length s.now }
{
    let (attributes, s) = long(s);
    let (presence, s) = byte(s);
    let (verdict, s) = byte(s);
    let (vendor, s) = field(s);
    let (size, s) = short(s);
    let (length, s) = long(s);
    let (name, s) = bytes(s, usize::from(size));
    let (bytes, s) = bytes(s, length as usize);
    let asking = Asking {
        attributes,
        presence: u32::from(presence),
        verdict: u32::from(verdict),
    };
    let named = Named { vendor, name };
    (
        Step::Set {
            asking,
            named,
            bytes,
        },
        s,
    )
}

fn get_many(s: &[u8]) -> (Step<'_>, &[u8])
    ensures { length result.1.now ≤ length s.now }
{
    let (room, s) = short(s);
    let (number, s) = byte(s);
    let (size, s) = short(s);
    let number = usize::from(number);
    let (sizes, s) = bytes(s, 4 * number);
    let (places, s) = bytes(s, usize::from(size));
    let (sizes, _) = longs(sizes);
    let names = Names {
        number,
        sizes,
        places,
    };
    (Step::GetMany { room, names }, s)
}

fn poke(s: &[u8]) -> (Step<'_>, &[u8])
    ensures { length result.1.now ≤ length s.now }
{
    let (at, s) = long(s);
    let (size, s) = short(s);
    let (bytes, s) = bytes(s, usize::from(size));
    (Step::Poke { at, bytes }, s)
}

fn read_shown(s: &[u8]) -> (Shown, &[u8])
    ensures { length result.1.now ≤ length s.now }
{
    let (at, s) = long(s);
    let (size, s) = short(s);
    (Shown { at, size }, s)
}

fn rule(s: &[u8]) -> (Step<'_>, &[u8])
    ensures { length result.1.now ≤ length s.now }
{
    let (rules, s) = long(s);
    let (place, s) = byte(s);
    let (rule, s) = bytes(s, crate::rules::RULE);
    (Step::Rule { rules, place, rule }, s)
}

fn tenants(s: &[u8]) -> (Step<'_>, &[u8])
    ensures { length result.1.now ≤ length s.now }
{
    let (share, s) = long(s);
    let (others, s) = long(s);
    let (reserve, s) = long(s);
    let (vendor, s) = field(s);
    let modem = Tenant {
        share: others,
        reserve,
        vendor,
    };
    (Step::Tenants { share, modem }, s)
}

// What comes after a step's kind and its limit.
fn of_kind(kind: u8, s: &[u8]) -> (Step<'_>, &[u8])
    ensures { length result.1.now ≤ length s.now }
{
    match kind {
        b'F' => {
            let (blocks, s) = byte(s);
            (Step::Format(blocks), s)
        }
        b'U' => start_up(s),
        b'S' => set(s),
        b'O' => {
            let (size, s) = long(s);
            let (file, s) = bytes(s, size as usize);
            (Step::Profile(file), s)
        }
        b'A' => {
            let (to, s) = long(s);
            (Step::Mode(to), s)
        }
        b'C' => (Step::Present, s),
        b'G' => {
            let (room, s) = short(s);
            let (named, s) = read_named(s);
            (Step::Get { room, named }, s)
        }
        b'N' => {
            let (room, s) = short(s);
            let (named, s) = read_named(s);
            (Step::NextName { room, named }, s)
        }
        b'Q' => get_many(s),
        b'L' => {
            let (named, s) = read_named(s);
            (Step::Lock(named), s)
        }
        b'P' => {
            let (to, s) = byte(s);
            let to = u32::from(to);
            (Step::Phase(to), s)
        }
        b'B' => poke(s),
        b'D' => {
            let (shown, s) = read_shown(s);
            (Step::Show(shown), s)
        }
        b'V' => (Step::Varlist, s),
        b'M' => {
            let (form, s) = byte(s);
            let (size, s) = long(s);
            (Step::Move { form, size }, s)
        }
        b'E' => {
            let (shown, s) = read_shown(s);
            (Step::ShowTarget(shown), s)
        }
        b'T' => (Step::TakeTarget, s),
        b'W' => {
            let (count, s) = byte(s);
            let (dead, s) = longs(s);
            let count = u32::from(count);
            (Step::Dead { count, dead }, s)
        }
        b'I' => {
            let (width, s) = long(s);
            (Step::Page(width), s)
        }
        b'R' => rule(s),
        b'K' => {
            let (side, s) = long(s);
            (Step::Side(side), s)
        }
        b'X' => tenants(s),
        _ => (Step::Unknown, s),
    }
}

// The first step of a script: its limit, what it asks for, and what is left of the script behind it.
pub(crate) fn read(s: &[u8]) -> (u64, Step<'_>, &[u8])
    requires { 0 < length s.now }
    ensures { length result.2.now < length s.now }
{
    let (kind, s) = byte(s);
    let (n, s) = long(s);
    let (step, s) = of_kind(kind, s);
    let limit = if n == u32::MAX {
        u64::MAX
    } else {
        u64::from(n)
    };
    (limit, step, s)
}
