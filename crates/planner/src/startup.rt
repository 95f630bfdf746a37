// The plan of a start-up: "if pending, resume at the erase of the region. Then erase the spare's blocks if it is not all FF, the work block if it is not well
// formed or ends in FC, and compact with no change if the tail is not all FF." The erases leave alone what is looked at later, so all of it is planned from
// the image found.
ghost use Rattle.std.specs.Prelude.{◌≡◌, Ok, cond, [], ◌+◌, ◌*◌, ◌≤◌, length};
ghost use Rattle.model.specs.Lists.{all_ff};
ghost use Rattle.model.specs.Image.{block, spare};
ghost use Rattle.model.specs.Set.{make};
ghost use Rattle.model.specs.StartUp.{start_up_stores};
ghost use Rattle.records.specs.Look.{idle_at};
ghost use Rattle.image.specs.Check.{start_up_of};
ghost use Rattle.image.specs.declared.Start.TheVariants.{Pending, Sound};
ghost use Rattle.plan.specs.Planned.{Plans};
ghost use Rattle.planner.specs.Compactions.{spare_step_def, work_step_def};

use crate::compaction;
use plan::{Planned, Step};
use records::Look;

// "if pending, resume at the erase of the region": the record is the last used one. What the spare holds is copied to the content, and stored from there.
pub fn resume(image: &[u8], b: usize, looked: Look, content: &mut [u8]) -> Planned
    requires { (start_up_of image.now ≡ Ok (Pending b looked)) × (length content.old ≡ 28672) }
    ensures { Plans (make [] (start_up_stores image.now)) image.now content.old content.new (Ok result) }
{
    output::put_bytes(
        content,
        0,
        slices::cut(image, layout::BLOCK * b + layout::BLOCK, layout::BLOCK * b),
    );
    let plan = compaction::resume(b, looked.used - 1);
    Planned {
        plan,
        deciding: None,
    }
}

// "erase the spare's blocks if it is not all FF": all of them, in rising order.
fn spare_step(image: &[u8], b: usize) -> Step
    requires { (1 ≤ b) × (b ≤ 7) × (length image.now ≡ block * (2 * b + 1)) }
    ensures { result ≡ spare_step_def b (all_ff (spare image.now)) }
{
    let size = layout::BLOCK * b;
    if slices::is_blank(slices::cut(image, size + layout::BLOCK, size)) {
        Step::Nothing
    } else {
        Step::Erase(b + 1, b)
    }
}

// "the work block if it is not well formed or ends in FC", and how many records are used then.
#[derive(Clone, Copy)]
struct WorkLeft {
    step: Step,
    used: usize,
}

fn work_left(b: usize, looked: Look) -> WorkLeft
    ensures { (result.step ≡ work_step_def b (idle_at looked)) × (result.used ≡ cond (idle_at looked) looked.used 0) }
{
    if records::is_idle(looked) {
        WorkLeft {
            step: Step::Nothing,
            used: looked.used,
        }
    } else {
        WorkLeft {
            step: Step::Erase(b, 1),
            used: 0,
        }
    }
}

// "Then erase the spare's blocks .., the work block .., and compact with no change if the tail is not all FF": if the sound
// region is not clean. All values are carried over.
pub fn tidy(image: &[u8], b: usize, looked: Look, clean: bool, content: &mut [u8]) -> Planned
    requires { (start_up_of image.now ≡ Ok (Sound b looked clean)) × (length content.old ≡ 28672) }
    ensures { Plans (make [] (start_up_stores image.now)) image.now content.old content.new (Ok result) }
{
    let spare = spare_step(image, b);
    let WorkLeft { step: work, used } = work_left(b, looked);
    if clean {
        let plan = crate::begun(spare, work);
        return Planned {
            plan,
            deciding: None,
        };
    }
    let n = compose::put_values(content, slices::cut(image, 0, layout::BLOCK * b), &[]);
    let plan = compaction::compact_front(content, n, spare, work, b, used);
    Planned {
        plan,
        deciding: None,
    }
}
