// The blocks that a plan erases, counted from its operations.
ghost use Rattle.std.specs.Prelude.{◌≡◌, ◌≤◌};
ghost use Rattle.plan.specs.Plan.{size_of};
ghost use Rattle.desk.specs.Erasing.{erased_of_def, erased_in};

use plan::{Plan, Step};

// The stores of an operation, of one byte or block each.
fn stores_of(step: Step) -> u64
    ensures { result ≡ size_of 1 step }
{
    match step {
        Step::Nothing => 0,
        Step::Mark(_, _) => 1,
        Step::Erase(_, count) => count as u64,
        Step::Program(_, _, len) => len as u64,
        Step::Header(_, _) => 59,
    }
}

// The blocks that an operation erases by its first n stores.
fn erased_of(step: Step, n: u64) -> u64
    ensures { result ≡ erased_of_def n step }
{
    match step {
        Step::Erase(_, count) => n.min(count as u64),
        Step::Nothing | Step::Mark(_, _) | Step::Program(_, _, _) | Step::Header(_, _) => 0,
    }
}

// The blocks that a plan erases by its first n stores.
pub fn erased(plan: Plan, n: u64) -> u64
    ensures { (result ≡ erased_in n plan) × (result ≤ n) }
{
    let mut total = 0;
    let mut left = n;
    for step in plan {
        total += erased_of(step, left);
        left = left.saturating_sub(stores_of(step));
    }
    total
}
