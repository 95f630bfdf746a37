// A whole image: its length, and whether a call or a start-up may begin on it.
#![tactic(auto)]

ghost use Rattle.std.specs.Prelude.{◌≡◌, ◌≤◌, IfSome};
ghost use Rattle.model.specs.Image.{work};
ghost use Rattle.model.specs.Work.{pending};
ghost use Rattle.records.specs.Look.{look_at_def};
ghost use Rattle.image.specs.Check.{blocks_of, call_in, checked_in, start_up_of};

use model::{Layout, Rule};
use records::Look;
use region::judge::{judge, judge_for};
use region::{Met, Sound};

// The bytes of a block of the region and of its block of the spare.
const PAIR: usize = 8192;

// What rules 1 and 2 leave to a call: the number of blocks, the offset of the tail and the number of used records.
#[derive(Clone, Copy)]
pub struct Ready {
    pub blocks: usize,
    pub tail: usize,
    pub used: usize,
}

// What they leave to a start-up: the number of blocks of a pending compaction or of a sound region, with the look at the work block, and of the region whether it is
// clean.
#[derive(Clone, Copy)]
pub enum Start {
    Pending(usize, Look),
    Sound(usize, Look, bool),
}

// b, where the length is 4,096 × (2b + 1) with b from 1 to 7.
pub fn blocks(image: &[u8]) -> Option<usize>
    ensures { (result ≡ blocks_of image.now) × IfSome result (λ b. b ≤ 7) }
{
    let n = image.len();
    let b = n / PAIR;
    if 1 <= b && b <= 7 && n == PAIR * b + layout::BLOCK {
        Some(b)
    } else {
        None
    }
}

// What rules 1 and 2 leave to a call, and where a ready image has a sought name.
#[derive(Clone, Copy)]
pub struct Checked {
    pub ready: Ready,
    pub met: Met,
}

// Rules 1 and 2 as a call meets them, in a stored form, and where the region has a name: the name behind its GUID. What is cheap to look at comes first: the
// work block, the spare, then the entries.
pub fn check_for(y: Layout, image: &[u8], key: &[u8]) -> Result<Checked, Rule>
    ensures { result ≡ checked_in y image.now key.now }
{
    let b = blocks(image).ok_or(Rule::Length)?;
    let size = layout::BLOCK * b;
    let work = records::look_at(slices::cut(image, size, layout::BLOCK));
    if !records::is_idle(work)
        || !slices::is_blank(slices::cut(image, size + layout::BLOCK, size))
    {
        return Err(Rule::Unready);
    }
    let found = judge_for(y, slices::cut(image, 0, size), key).ok_or(Rule::Unready)?;
    let Sound { tail, clean } = found.sound;
    if !clean {
        return Err(Rule::Unready);
    }
    Ok(Checked {
        ready: Ready {
            blocks: b,
            tail,
            used: work.used,
        },
        met: found.met,
    })
}

// The same with no name sought.
pub fn check_call(y: Layout, image: &[u8]) -> Result<Ready, Rule>
    ensures { result ≡ call_in y image.now }
{
    Ok(check_for(y, image, b"")?.ready)
}

// Whether a compaction of b blocks is pending, by a look at the work block.
fn is_pending(image: &[u8], b: usize, looked: Look) -> bool
    requires { (blocks_of image.now ≡ Some b) × (b ≤ 7) × (looked ≡ look_at_def (work image.now)) }
    ensures { result ≡ pending image.now }
{
    if !records::ends_in_fc(looked) {
        return false;
    }
    let size = layout::BLOCK * b;
    let spare = slices::cut(image, size + layout::BLOCK, size);
    judge(Layout::AUTHENTICATED, spare).is_some_and(|s| s.clean)
}

// Rules 1 and 2 as a start-up meets them.
pub fn check_start(image: &[u8]) -> Result<Start, Rule>
    ensures { result ≡ start_up_of image.now }
{
    let b = blocks(image).ok_or(Rule::Length)?;
    let size = layout::BLOCK * b;
    let looked = records::look_at(slices::cut(image, size, layout::BLOCK));
    if is_pending(image, b, looked) {
        return Ok(Start::Pending(b, looked));
    }
    let region = slices::cut(image, 0, size);
    let sound = judge(Layout::AUTHENTICATED, region).ok_or(Rule::Unready)?;
    Ok(Start::Sound(b, looked, sound.clean))
}
