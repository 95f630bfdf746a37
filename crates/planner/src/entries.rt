// The plans of a delete and of a tail write, from what was found of the name.
ghost use Rattle.std.specs.Prelude.{◌≡◌, ◌+◌, ◌^◌, ◌<◌};
ghost use Rattle.planner.specs.Entries.{Below, mark_found_def, leftover_step, remove_step, retire_step, delete_plan, tail_plan};

use model::Layout;
use plan::{Plan, Step};
use region::Placed;
use values::{Places, lookup};

// The state of an entry becomes v, where one was found.
fn mark_found(found: Option<Placed>, v: u8) -> Step
    requires { Below (2 ^ 62) found }
    ensures { result ≡ mark_found_def found v }
{
    match found {
        Some(placed) => Step::Mark(placed.at + Layout::STATE, v),
        None => Step::Nothing,
    }
}

// "a leftover 3E beside a 3F becomes 3C"
fn leftover(places: Places) -> Step
    requires { Below (2 ^ 62) places.replacing }
    ensures { result ≡ leftover_step places }
{
    match places.added {
        Some(_) => mark_found(places.replacing, 0x3C),
        None => Step::Nothing,
    }
}

// "bit 0x02 of the state cleared": 3F becomes 3D, 3E alone becomes 3C.
fn remove(places: Places) -> Step
    requires { Below (2 ^ 62) places.added × Below (2 ^ 62) places.replacing }
    ensures { result ≡ remove_step places }
{
    match places.added {
        Some(_) => mark_found(places.added, 0x3D),
        None => mark_found(places.replacing, 0x3C),
    }
}

// "the old entry 3C"
fn retire(places: Places) -> Step
    requires { Below (2 ^ 62) places.added × Below (2 ^ 62) places.replacing }
    ensures { result ≡ retire_step places }
{
    mark_found(lookup::standing(places), 0x3C)
}

// "Delete: leftover first, then bit 0x02 of the state cleared".
pub fn delete(places: Places) -> Plan
    requires { Below (2 ^ 62) places.added × Below (2 ^ 62) places.replacing }
    ensures { result ≡ delete_plan places }
{
    crate::begun(leftover(places), remove(places))
}

// "In the tail ..: a leftover 3E beside a 3F becomes 3C; the 3F becomes 3E; header bytes in rising order without state; state 7F; name; data; state 3F; the old
// entry 3C." The content holds the entry from its front on, with FF in the place of its state.
pub fn tail_write(places: Places, at: usize, name: usize, size: usize) -> Plan
    requires { Below (2 ^ 62) places.added × Below (2 ^ 62) places.replacing × (at + name + size < 2 ^ 62) }
    ensures { result ≡ tail_plan places at name size }
{
    let mut plan = crate::begun(leftover(places), mark_found(places.added, 0x3E));
    plan[2] = Step::Header(at, 0);
    plan[3] = Step::Mark(at + Layout::STATE, 0x7F);
    plan[4] = Step::Program(at + Layout::HEADER, Layout::HEADER, name);
    plan[5] = Step::Program(at + Layout::HEADER + name, Layout::HEADER + name, size);
    plan[6] = Step::Mark(at + Layout::STATE, 0x3F);
    plan[7] = retire(places);
    plan
}
