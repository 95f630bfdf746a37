// A season tried on the desk: the steps of a script played through the engine on an empty image, and a line of text for each.
#![tactic(auto)]

ghost use Rattle.std.specs.Prelude.{◌≡◌, ◌+◌, ◌*◌, ◌^◌, ◌≤◌, ◌<◌, length};
ghost use Rattle.model.specs.Image.{block};
ghost use Rattle.model.specs.Region.{tail_at};
ghost use Rattle.output.specs.Text.{Wrote};
ghost use Rattle.profile.specs.Reader.{Within};
ghost use Rattle.desk.specs.Script.{script_of};
ghost use Rattle.desk.specs.Season.{season_text};
ghost use Rattle.desk.specs.Reader.{step_in, form_of, Holds};
ghost use Rattle.desk.specs.Playing.{Steps};

use model::{Answer, Layout, Rule};
use profile::Setting;
use region::walk;

mod erases;
mod play;
mod script;
mod text;

// What a step of a script asks: after how many stores it is cut, if it is, and its item.
#[derive(Clone, Copy)]
pub struct Asked {
    pub limit: Option<usize>,
    pub item: Setting,
}

// Of a script that is right: b, the number of its steps, and the place of the first one.
#[derive(Clone, Copy)]
pub struct Form {
    pub blocks: usize,
    pub count: usize,
    pub from: usize,
}

// What was played: the answer, the stores, and the blocks that these erased.
#[derive(Clone, Copy)]
pub struct Played {
    pub answer: Answer,
    pub stores: u64,
    pub erases: u64,
}

// A line that was written: the place after it, and the erases so far.
#[derive(Clone, Copy)]
pub struct Lined {
    pub next: usize,
    pub erases: u64,
}

// The bytes of an image of seven blocks.
pub const LARGEST_IMAGE: usize = 61440;

// Where the tail of a region begins, sound or not.
fn tail(region: &[u8]) -> usize
    ensures { result ≡ tail_at region.now }
{
    let mut at = layout::REGION_HEADER;
    while let Some((_, next)) = walk::turn(Layout::AUTHENTICATED, region, at) {
        at = next;
    }
    at
}

// A step after so many erases: played, and its line written.
fn step(
    b: usize,
    script: &[u8],
    asked: Asked,
    before: u64,
    image: &mut [u8],
    content: &mut [u8; layout::CONTENT],
    out: &mut [u8],
    at: usize,
) -> Lined
    requires { (1 ≤ b) × (b ≤ 7) × (length image.old ≡ block * (2 * b + 1)) × Within (length script.now) asked.item × (before < 2 ^ 62) × (at < 2 ^ 58) }
    ensures { Steps b (step_in script.now asked) before image.old image.new at out.old out.new result }
{
    let p = play::step(b, script, asked, image, content);
    let erases = before + p.erases;
    let tail = tail(slices::cut(image, 0, layout::BLOCK * b));
    let next = text::put_line(out, at, p, tail, erases);
    Lined { next, erases }
}

// The steps of a script that is right, from an empty image on.
fn play_all(
    script: &[u8],
    form: Form,
    image: &mut [u8],
    content: &mut [u8; layout::CONTENT],
    out: &mut [u8],
) -> usize
    requires { (form_of script.now (Some form) ≡ script_of script.now)
        × Holds script.now (Some form)
        × (length image.old ≡ block * (2 * form.blocks + 1)) }
    ensures { Wrote (season_text script.now) 0 out.old out.new result × (result ≤ 46000) }
{
    let Form {
        blocks,
        count,
        from,
    } = form;
    play::empty(blocks, image, content);
    let mut at = from;
    let mut next = 0;
    let mut erases = 0;
    for _ in 0..count {
        let Some((asked, after)) = script::step(script, at) else {
            return next;
        };
        let line = step(blocks, script, asked, erases, image, content, out, next);
        next = line.next;
        erases = line.erases;
        at = after;
    }
    next
}

// The same, in the front of a larger image: as many bytes as an image of b blocks has.
fn play_in(
    script: &[u8],
    form: Form,
    image: &mut [u8],
    content: &mut [u8; layout::CONTENT],
    out: &mut [u8],
) -> usize
    requires { (form_of script.now (Some form) ≡ script_of script.now)
        × Holds script.now (Some form)
        × (length image.old ≡ 61440) }
    ensures { Wrote (season_text script.now) 0 out.old out.new result × (result ≤ 46000) }
{
    let size = layout::BLOCK * (2 * form.blocks + 1);
    play_all(script, form, &mut image[..size], content, out)
}

// What is printed of a script, whole. It is played in the image and the content: what these hold before does not matter, and what they hold after is left open. 46,000 bytes
// of `out` are enough; of a shorter one the front is written, and the number is the whole text's.
pub fn season(
    script: &[u8],
    image: &mut [u8; LARGEST_IMAGE],
    content: &mut [u8; layout::CONTENT],
    out: &mut [u8],
) -> usize
    ensures { Wrote (season_text script.now) 0 out.old out.new result × (result ≤ 46000) }
{
    match script::judge(script) {
        Some(form) => play_in(script, form, image, content, out),
        None => text::put_refused(out, Rule::Script),
    }
}
