// The records of the work block.
#![tactic(auto)]

ghost use Rattle.std.specs.Prelude.{◌≡◌, ◌≤◌, ◌<◌, length};
ghost use Rattle.model.specs.Lists.{among};
ghost use Rattle.model.specs.Work.{record_states};
ghost use Rattle.records.specs.Look.{look_at_def, idle_at, ends_at};
ghost use Rattle.records.specs.Passed.{unread, onward, through};

// How many records a work block has: its first bytes.
pub const RECORDS: usize = 64;

// What a look at a work block tells: whether it is well formed, how many records are used, and the last used one (FF where none is).
#[derive(Clone, Copy)]
pub struct Look {
    pub formed: bool,
    pub used: usize,
    pub last: u8,
}

// "FF unused, FE begun, FC spare complete, F8 destination complete".
fn is_state(r: u8) -> bool
    ensures { result ≡ among record_states r }
{
    matches!(r, 0xFF | 0xFE | 0xFC | 0xF8)
}

// The look after one more record, with i before it: "no used record after an unused one" holds where all i are used.
#[tactic(auto, unfolding(crate::specs::Passed::onward))]
fn after_record(l: Look, i: usize, r: u8) -> Look
    requires { (l.used ≤ i) × (i < 0xFFFFFFFFFFFFFFFF) }
    ensures { result ≡ onward l i r }
{
    if r == 0xFF {
        return l;
    }
    Look {
        formed: l.formed & (l.used == i) & (l.last != 0xFC) & is_state(r),
        used: l.used + 1,
        last: r,
    }
}

// All records are passed, also of a block that is not well formed: used and last are told of it too.
fn look_through(records: &[u8]) -> Look
    ensures { result ≡ through unread 0 records.now }
{
    let mut l = Look {
        formed: true,
        used: 0,
        last: 0xFF,
    };
    for (i, &r) in records.iter().enumerate() {
        l = after_record(l, i, r);
    }
    l
}

// How many records are used before the first that is not. What is proved is that they are no more than all.
fn used_first(records: &[u8]) -> usize
    ensures { result ≤ length records.now }
{
    records
        .iter()
        .position(|&r| r == 0xFF)
        .unwrap_or(records.len())
}

// A look at a block of any length. Where all is FF behind the first used records, these tell everything.
pub fn look_at(w: &[u8]) -> Look
    ensures { result ≡ look_at_def w.now }
{
    if w.len() <= RECORDS {
        return look_through(w);
    }
    let k = used_first(&w[..RECORDS]);
    if slices::is_blank(&w[k..]) {
        return look_through(&w[..k]);
    }
    let l = look_through(&w[..RECORDS]);
    Look {
        formed: l.formed && slices::is_blank(&w[RECORDS..]),
        ..l
    }
}

// Well formed and not ending in FC: a call may find the block so.
pub fn is_idle(l: Look) -> bool
    ensures { result ≡ idle_at l }
{
    l.formed & (l.last != 0xFC)
}

// Well formed and ending in FC: the spare is complete.
pub fn ends_in_fc(l: Look) -> bool
    ensures { result ≡ ends_at l }
{
    l.formed & (l.last == 0xFC)
}
