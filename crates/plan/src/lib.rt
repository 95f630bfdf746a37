// The operations of a call on the image, as data: a planner makes them from the image lent shared, the executor of `flash` carries them out.
#![tactic(auto)]

ghost use Rattle.std.specs.Prelude.{◌≡◌, Ok};
ghost use Rattle.plan.specs.Planned.{accepted, nothings};
ghost use Rattle.plan.specs.Numbers.{operation_of, operations_of, in_numbers_def};

use model::{Layout, Rule};

// The bytes of an entry's header, its state among them.
const HEADER: u64 = Layout::HEADER as u64;

// One operation: none; a byte marked (offset, new value); blocks erased (the first, how many); bytes of the content stored (offset in the image, offset in
// the content, how many); an entry's header stored around its state (offset in the image, offset in the content), so that a part programmed in pages can take
// it as one piece.
#[derive(Clone, Copy)]
pub enum Step {
    Nothing,
    Mark(usize, u8),
    Erase(usize, usize),
    Program(usize, usize, usize),
    Header(usize, usize),
}

// The places of a plan: a start-up that compacts has the most operations, ten.
pub const OPERATIONS: usize = 12;

// The deciding operation's number where none decides, as a host is told it: that of no place.
pub const NONE_DECIDES: usize = OPERATIONS;

// The operations of a call, in their order.
pub type Plan = [Step; OPERATIONS];

// What was planned for an accepted call. Its deciding store is operation number `deciding`, always a mark; or none decides.
#[derive(Clone, Copy)]
pub struct Planned {
    pub plan: Plan,
    pub deciding: Option<usize>,
}

// No operation at all.
pub fn nothing() -> Plan
    ensures { result ≡ nothings }
{
    [Step::Nothing; OPERATIONS]
}

// A call that is to carry out a plan.
pub fn accept(plan: Plan, deciding: Option<usize>) -> Result<Planned, Rule>
    ensures { result ≡ Ok (accepted plan deciding) }
{
    Ok(Planned { plan, deciding })
}

// One operation in numbers, as a host reads it: kind 0 none; 1 a mark: the byte at `at` becomes `from` (len 1); 2 an erase: `len` blocks from block `at` on;
// 3 a program: `len` bytes of the content from `from` on, stored from `at` on; 4 a header: 60 bytes (len 60) of the content from `from` on, stored from `at`
// on: byte by byte all but the third, which is the state; in pages all of them, the third being FF.
#[repr(C)]
#[derive(Clone, Copy)]
pub struct HostOp {
    pub kind: u64,
    pub at: u64,
    pub from: u64,
    pub len: u64,
}

// What a planning call tells a host: the rule that the call breaks, or 0; the number of the operation that decides, or `NONE_DECIDES`; the operations.
#[repr(C)]
#[derive(Clone, Copy)]
pub struct HostPlan {
    pub rule: u32,
    pub deciding: u64,
    pub ops: [HostOp; OPERATIONS],
}

// An operation in numbers.
impl From<Step> for HostOp {
    ghost from_gives = { λ step told. told ≡ operation_of step };

    fn from(step: Step) -> HostOp {
        match step {
            Step::Nothing => HostOp {
                kind: 0,
                at: 0,
                from: 0,
                len: 0,
            },
            Step::Mark(at, v) => HostOp {
                kind: 1,
                at: at as u64,
                from: u64::from(v),
                len: 1,
            },
            Step::Erase(first, count) => HostOp {
                kind: 2,
                at: first as u64,
                from: 0,
                len: count as u64,
            },
            Step::Program(at, from, len) => HostOp {
                kind: 3,
                at: at as u64,
                from: from as u64,
                len: len as u64,
            },
            Step::Header(at, from) => HostOp {
                kind: 4,
                at: at as u64,
                from: from as u64,
                len: HEADER,
            },
        }
    }
}

// All operations of a plan.
fn operations(plan: Plan) -> [HostOp; OPERATIONS]
    ensures { result ≡ operations_of plan }
{
    let mut ops = [HostOp::from(Step::Nothing); OPERATIONS];
    for i in 0..OPERATIONS {
        ops[i] = HostOp::from(plan[i]);
    }
    ops
}

// What was planned for a call, in numbers.
pub fn in_numbers(planned: Result<Planned, Rule>) -> HostPlan
    ensures { result ≡ in_numbers_def planned }
{
    match planned {
        Ok(planned) => {
            let Planned { plan, deciding } = planned;
            let ops = operations(plan);
            HostPlan {
                rule: 0,
                deciding: deciding.unwrap_or(NONE_DECIDES) as u64,
                ops,
            }
        }
        Err(rule) => {
            let ops = operations(nothing());
            HostPlan {
                rule: u32::from(rule),
                deciding: NONE_DECIDES as u64,
                ops,
            }
        }
    }
}
