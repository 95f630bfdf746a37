// A script read at its places: numbers and items as in profiles.
ghost use Rattle.std.specs.Prelude.{◌≡◌, length, drop};
ghost use Rattle.model.specs.Lists.{is_some};
ghost use Rattle.desk.specs.Script.{item_step, delete_step, cut_step, kind_step, step_at, steps_at, script_of};
ghost use Rattle.desk.specs.Reader.{cut_at, step_of, Stops, form_of, Holds};

use crate::{Asked, Form};
use profile::Numeral;

// The most bytes that a script may have.
const LONGEST: usize = 65536;

// The most blocks of a region.
const MOST_BLOCKS: usize = 7;

// The most steps.
const MOST_STEPS: usize = 500;

// A step by its item, cut after so many stores or not.
fn with_item(s: &[u8], at: usize, limit: Option<usize>) -> Option<(Asked, usize)>
    ensures { (step_of s.now result ≡ item_step (cut_at limit) (drop at s.now)) × Stops (length s.now) result }
{
    let (item, next) = profile::item(s, at)?;
    Some((Asked { limit, item }, next))
}

// Kind 1, a delete: "its data empty".
fn delete(s: &[u8], at: usize) -> Option<(Asked, usize)>
    ensures { (step_of s.now result ≡ delete_step (drop at s.now)) × Stops (length s.now) result }
{
    let (item, next) = profile::item(s, at)?;
    if item.size != 0 {
        return None;
    }
    Some((Asked { limit: None, item }, next))
}

// Kind 2, a set that is cut: the n, then the item.
fn cut_after(s: &[u8], at: usize) -> Option<(Asked, usize)>
    ensures { (step_of s.now result ≡ cut_step (drop at s.now)) × Stops (length s.now) result }
{
    let Numeral { value, next } = profile::number(s, at)?;
    with_item(s, next, Some(value))
}

// What comes after a step's kind.
fn of_kind(s: &[u8], kind: usize, at: usize) -> Option<(Asked, usize)>
    ensures { (step_of s.now result ≡ kind_step kind (drop at s.now)) × Stops (length s.now) result }
{
    match kind {
        0 => with_item(s, at, None),
        1 => delete(s, at),
        2 => cut_after(s, at),
        _ => None,
    }
}

// A step that is read, and the place after it: "its kind .., for kind 2 the n, and the fields of one profile item".
pub fn step(s: &[u8], at: usize) -> Option<(Asked, usize)>
    ensures { (step_of s.now result ≡ step_at (drop at s.now)) × Stops (length s.now) result }
{
    let Numeral { value, next } = profile::number(s, at)?;
    of_kind(s, value, next)
}

// Whether so many steps are there, and nothing after them.
fn are_steps(s: &[u8], count: usize, from: usize) -> bool
    ensures { result ≡ is_some (steps_at count (drop from s.now)) }
{
    let mut at = from;
    for _ in 0..count {
        let Some((_, next)) = step(s, at) else {
            return false;
        };
        at = next;
    }
    s.len() <= at
}

// A whole script, before its first step is played: "27 when the script is not of this form, passes a limit or leaves bytes over".
pub fn judge(s: &[u8]) -> Option<Form>
    ensures { (form_of s.now result ≡ script_of s.now) × Holds s.now result }
{
    if LONGEST < s.len() {
        return None;
    }
    let first = profile::number(s, 0)?;
    let blocks = first.value;
    if blocks < 1 || MOST_BLOCKS < blocks {
        return None;
    }
    let second = profile::number(s, first.next)?;
    let count = second.value;
    let from = second.next;
    if MOST_STEPS < count || !are_steps(s, count, from) {
        return None;
    }
    Some(Form {
        blocks,
        count,
        from,
    })
}
