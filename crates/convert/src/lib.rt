// A move: the values of a lent image put into another lent image, in another stored form. It writes its target as a buffer and makes no stores.
#![tactic(auto)]

ghost use Rattle.std.specs.Prelude.{◌≡◌};
ghost use Rattle.recovery.specs.Interface.{MoveReturned};
ghost use Rattle.convert.specs.Bare.{checked_of};

use model::{Answer, Layout, Rule};

mod put;
mod room;

// Rules 1 on both, 19, 20 and 13, in this order: the blocks of source and target, or the rule broken.
fn check(from: Layout, to: Layout, image: &[u8], target: &[u8]) -> Result<(usize, usize), Rule>
    ensures { result ≡ checked_of from to image.now target.now }
{
    let b = image::blocks(image).ok_or(Rule::Length)?;
    let t = image::blocks(target).ok_or(Rule::Length)?;
    if image::check_call(from, image).is_err() {
        return Err(Rule::Source);
    }
    let region = slices::cut(image, 0, layout::BLOCK * b);
    if room::is_unstampable(from, to, region) {
        return Err(Rule::TimeBased);
    }
    if layout::BLOCK * t < room::needed(from, to, region, layout::BLOCK * t) {
        return Err(Rule::Room);
    }
    Ok((b, t))
}

// The values of an image in one form, moved into another image in another form. Refused, the target keeps every byte; done, it holds the region's header, the
// values as 3F entries in flash order, their stamps zero, and FF up to its end. It counts 0 stores.
pub fn move_values(from: Layout, to: Layout, image: &[u8], target: &mut [u8]) -> Answer
    ensures { MoveReturned from to image.now target.old target.new result }
{
    match check(from, to, image, target) {
        Ok((b, t)) => {
            put::put_image(
                from,
                to,
                target,
                layout::BLOCK * t,
                slices::cut(image, 0, layout::BLOCK * b),
            );
            Answer::Done(0)
        }
        Err(rule) => Answer::Refused(rule),
    }
}
