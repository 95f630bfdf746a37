// The plans of a compaction and of its second half. What the spare is to hold, or holds, stands at the front of the content.
ghost use Rattle.std.specs.Prelude.{◌≡◌, cond, ◌*◌, ◌-◌, ◌≤◌, ◌<◌, leb, length, replicate};
ghost use Rattle.output.specs.Text.{Wrote};
ghost use Rattle.planner.specs.Compactions.{clear_step, compact_plan, resume_plan};

use plan::{Plan, Step};

// The number of the next record: the first, where all 64 are used and the work block is erased.
fn next_record(used: usize) -> usize
    ensures { (result ≡ cond (leb 64 used) 0 used) × (result < 64) }
{
    if records::RECORDS <= used { 0 } else { used }
}

// "erase the work block if 64 records are used".
fn clear_full(b: usize, used: usize) -> Step
    ensures { result ≡ clear_step b used }
{
    if used < records::RECORDS {
        Step::Nothing
    } else {
        Step::Erase(b, 1)
    }
}

// A compaction, after what a start-up erases first: ".. next record FE; header and values .. stored into the spare; record FC (deciding); erase the region's
// blocks; copy the spare; record F8; erase the spare's blocks".
fn compact(spare: Step, work: Step, b: usize, used: usize) -> Plan
    requires { b ≤ 7 }
    ensures { result ≡ compact_plan spare work b used }
{
    let size = layout::BLOCK * b;
    let at = size + next_record(used);
    let mut plan = crate::begun(spare, work);
    plan[2] = clear_full(b, used);
    plan[3] = Step::Mark(at, 0xFE);
    plan[4] = Step::Program(size + layout::BLOCK, 0, size);
    plan[5] = Step::Mark(at, 0xFC);
    plan[6] = Step::Erase(0, b);
    plan[7] = Step::Program(0, 0, size);
    plan[8] = Step::Mark(at, 0xF8);
    plan[9] = Step::Erase(b + 1, b);
    plan
}

// The same of a region whose front, n bytes, is composed in the content: "rest FF".
pub(crate) fn compact_front(
    content: &mut [u8],
    n: usize,
    spare: Step,
    work: Step,
    b: usize,
    used: usize,
) -> Plan
    requires { (n ≤ 4096 * b) × (b ≤ 7) × (length content.old ≡ 28672) }
    ensures { (result ≡ compact_plan spare work b used)
        × Wrote (replicate (4096 * b - n) 0xFF) n content.old content.new (4096 * b) }
{
    compose::put_blank(content, n, layout::BLOCK * b - n);
    compact(spare, work, b, used)
}

// "if pending, resume at the erase of the region": the record is the last used one.
pub fn resume(b: usize, place: usize) -> Plan
    requires { (b ≤ 7) × (place < 64) }
    ensures { result ≡ resume_plan b place }
{
    let size = layout::BLOCK * b;
    let mut plan = crate::begun(Step::Erase(0, b), Step::Program(0, 0, size));
    plan[2] = Step::Mark(size + place, 0xF8);
    plan[3] = Step::Erase(b + 1, b);
    plan
}
