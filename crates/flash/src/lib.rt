// The executor: the only functions that write an image. It carries out the operations of a plan store by store, cut into pages of w bytes, and ends where n stores
// are made or one fails.
#![tactic(auto)]

ghost use Rattle.std.specs.Prelude.{◌≡◌, IfOk, true, not, cond, ◌&&◌, ◌+◌, ◌*◌, ◌-◌, ◌%◌, ◌≤◌, ◌<◌, min, ◌≢◌, length, get_or, eqb, leb, ltb};
ghost use Rattle.model.specs.Lists.{among, part};
ghost use Rattle.model.specs.Image.{block};
ghost use Rattle.model.specs.Entry.{header_size_def};
ghost use Rattle.model.specs.Stores.{byte, page, erase, apply, apply_all, after, falls, fails, reach, stores, width_of};
ghost use Rattle.model.specs.Answers.{answer_of, outcome, image_after, ended};
ghost use Rattle.plan.specs.Plan.{expand, size_of, run_of, count_of, Programmed, Turned, Fits, OneBit, Ready};
ghost use Rattle.plan.specs.Planned.{planned_as};
ghost use Rattle.plan.specs.declared.Step.TheVariants.{Mark, Header};

use model::{Answer, Context, Layout, Rule};
use plan::{Plan, Planned, Step};

// The stores of an entry's header: all its bytes but the state.
const HEADER_STORES: usize = Layout::HEADER - 1;

// The most dead addresses that count.
const MOST_DEAD: u32 = 16;

// Whether an address is one of the dead ones.
fn is_dead(dead: &[u32], at: usize) -> bool
    ensures { result ≡ among dead.now at }
{
    dead.iter().any(|&a| at == a as usize)
}

// Whether a byte store fails: at a dead address where a bit would have to fall.
fn is_worn(image: &[u8], at: usize, v: u8, dead: &[u32]) -> bool
    requires { at < length image.now }
    ensures { result ≡ fails dead.now (byte at v) image.now }
{
    let old = image[at];
    old & v != old && is_dead(dead, at)
}

// One byte store: whether every wanted bit was cleared. Where it fails it changes nothing.
fn put(image: &mut [u8], at: usize, v: u8, dead: &[u32]) -> bool
    requires { at < length image.old }
    ensures { (result ≡ not (fails dead.now (byte at v) image.old))
        × (image.new ≡ cond (fails dead.now (byte at v) image.old) image.old (apply (byte at v) image.old)) }
{
    if is_worn(image, at, v, dead) {
        return false;
    }
    image[at] = v;
    true
}

// One block erase: every byte becomes FF.
fn clear(image: &mut [u8], b: usize)
    requires { block * b + block ≤ length image.old }
    ensures { image.new ≡ apply (erase b) image.old }
{
    let at = layout::BLOCK * b;
    image[at..at + layout::BLOCK].fill(0xFF);
}

// A mark: "Every change of state clears exactly one bit", so the ones in the difference of old and new are counted. One store, or none where it fails.
fn mark(image: &mut [u8], at: usize, new: u8, dead: &[u32]) -> usize
    requires { (at < length image.old) × OneBit (Mark at new) image.old }
    ensures { (result ≡ cond (fails dead.now (byte at new) image.old) 0 1)
        × (image.new ≡ cond (fails dead.now (byte at new) image.old) image.old (apply (byte at new) image.old)) }
{
    let old = image[at];
    usize::from((old ^ new).count_ones() == 1 && put(image, at, new, dead))
}

// The places of a header.
fn header_size(w: usize) -> usize
    ensures { result ≡ cond (eqb w 1) (header_size_def - 1) header_size_def }
{
    if w == 1 {
        HEADER_STORES
    } else {
        Layout::HEADER
    }
}

// How many places an operation has: stores of a byte or a block; with longer pages the bytes of a header, its state among them.
fn size(step: Step, w: usize) -> usize
    ensures { result ≡ size_of w step }
{
    match step {
        Step::Nothing => 0,
        Step::Mark(_, _) => 1,
        Step::Erase(_, count) => count,
        Step::Program(_, _, len) => len,
        Step::Header(_, _) => header_size(w),
    }
}

// Bytes of the content stored from an offset on, in rising order.
fn put_run(image: &mut [u8], at: usize, from: usize, r: usize, content: &[u8])
    requires { (from + r ≤ length content.now) × (at + r ≤ length image.old) }
    ensures { image.new ≡ apply_all (run_of 1 content.now at from r) image.old }
{
    for j in 0..r {
        image[at + j] = content[from + j];
    }
}

// Whether one of n bytes that are to be stored is at a dead address, and a bit would have to fall there.
fn touches(image: &[u8], at: usize, from: usize, n: usize, content: &[u8], a: usize) -> bool
    requires { (from + n ≤ length content.now) × (at + n ≤ length image.now) }
    ensures { result ≡ (leb at a && ltb a (at + n) && falls (get_or image.now a 0) (get_or content.now (from + (a - at)) 0)) }
{
    if a < at || at + n <= a {
        return false;
    }
    let old = image[a];
    let new = content[from + (a - at)];
    old & new != old
}

// Of k bytes that are to be stored one by one, those before a dead address where a bit would have to fall.
fn before_dead(image: &[u8], at: usize, from: usize, k: usize, content: &[u8], a: usize) -> usize
    requires { (from + k ≤ length content.now) × (at + k ≤ length image.now) }
    ensures { result ≡ cond (leb at a && ltb a (at + k) && falls (get_or image.now a 0) (get_or content.now (from + (a - at)) 0)) (a - at) k }
{
    if touches(image, at, from, k, content, a) {
        a - at
    } else {
        k
    }
}

// How many of r bytes can be stored before one fails: the least over the dead addresses.
fn spared(image: &[u8], at: usize, from: usize, r: usize, content: &[u8], dead: &[u32]) -> usize
    requires { (from + r ≤ length content.now) × (at + r ≤ length image.now) }
    ensures { result ≡ reach dead.now (run_of 1 content.now at from r) image.now }
{
    let mut k = r;
    for &a in dead {
        k = before_dead(image, at, from, k, content, a as usize);
    }
    k
}

// Bytes of the content, each a store, no more than are left, up to the first that fails.
fn bytes(
    image: &mut [u8],
    at: usize,
    from: usize,
    len: usize,
    content: &[u8],
    left: u64,
    dead: &[u32],
) -> usize
    requires { (1 ≤ len) × (1 ≤ left) × (from + len ≤ length content.now) × (at + len ≤ length image.old) }
    ensures { Programmed dead.now 1 content.now at from len left image.old image.new result }
{
    let n = left.min(len as u64) as usize;
    let k = spared(image, at, from, n, content, dead);
    put_run(image, at, from, k, content);
    k
}

// The bytes up to the end of a page, or of what is to be stored.
fn to_page_end(w: usize, at: usize, len: usize) -> usize
    requires { (1 ≤ w) × (1 ≤ len) }
    ensures { (1 ≤ result) × (result ≤ len) × (at % w + result ≤ w) × (result ≢ len → at % w + result ≡ w) }
{
    len.min(w - at % w)
}

// Whether a store of n bytes fails: "A dead byte with a bit to fall fails its whole store".
fn is_page_worn(
    image: &[u8],
    at: usize,
    from: usize,
    n: usize,
    content: &[u8],
    dead: &[u32],
) -> bool
    requires { (from + n ≤ length content.now) × (at + n ≤ length image.now) }
    ensures { result ≡ fails dead.now (page at (part from n content.now)) image.now }
{
    dead.iter()
        .any(|&a| touches(image, at, from, n, content, a as usize))
}

// One page of bytes of the content, a store; none where it fails.
fn one_page(
    image: &mut [u8],
    at: usize,
    from: usize,
    len: usize,
    content: &[u8],
    left: u64,
    dead: &[u32],
    w: usize,
) -> usize
    requires { (1 ≤ len) × (1 ≤ left) × (from + len ≤ length content.now) × (at + len ≤ length image.old) × (1 ≤ w) }
    ensures { Programmed dead.now w content.now at from len left image.old image.new result }
{
    let n = to_page_end(w, at, len);
    if is_page_worn(image, at, from, n, content, dead) {
        return 0;
    }
    put_run(image, at, from, n, content);
    n
}

// Bytes of the content in pages: all of them, from the beginning of a page on, where no address is dead and n does not end them; else one page.
fn pages(
    image: &mut [u8],
    at: usize,
    from: usize,
    len: usize,
    content: &[u8],
    left: u64,
    dead: &[u32],
    w: usize,
) -> usize
    requires { (1 ≤ len) × (1 ≤ left) × (from + len ≤ length content.now) × (at + len ≤ length image.old) × (1 ≤ w) }
    ensures { Programmed dead.now w content.now at from len left image.old image.new result }
{
    if dead.is_empty() && at % w == 0 && len as u64 <= left {
        put_run(image, at, from, len, content);
        return len;
    }
    one_page(image, at, from, len, content, left, dead, w)
}

// Bytes of the content: byte by byte, or in pages.
fn program(
    image: &mut [u8],
    at: usize,
    from: usize,
    len: usize,
    content: &[u8],
    left: u64,
    dead: &[u32],
    w: usize,
) -> usize
    requires { (1 ≤ len) × (1 ≤ left) × (from + len ≤ length content.now) × (at + len ≤ length image.old) × (1 ≤ w) }
    ensures { Programmed dead.now w content.now at from len left image.old image.new result }
{
    if w == 1 {
        return bytes(image, at, from, len, content, left, dead);
    }
    pages(image, at, from, len, content, left, dead, w)
}

// A header byte by byte: those before the state, or those behind it.
fn header_bytes(
    image: &mut [u8],
    at: usize,
    from: usize,
    i: usize,
    content: &[u8],
    left: u64,
    dead: &[u32],
) -> usize
    requires { (i < header_size_def - 1) × (1 ≤ left) × (from + header_size_def ≤ length content.now) × (at + header_size_def ≤ length image.old) }
    ensures { Turned dead.now 1 content.now (Header at from) i left image.old image.new result }
{
    if i < Layout::STATE {
        return bytes(
            image,
            at + i,
            from + i,
            Layout::STATE - i,
            content,
            left,
            dead,
        );
    }
    bytes(
        image,
        at + i + 1,
        from + i + 1,
        HEADER_STORES - i,
        content,
        left,
        dead,
    )
}

// A header: without its state byte by byte, or pages of it, with FF in the place of its state.
fn header(
    image: &mut [u8],
    at: usize,
    from: usize,
    i: usize,
    content: &[u8],
    left: u64,
    dead: &[u32],
    w: usize,
) -> usize
    requires { (i < size_of w (Header at from)) × (1 ≤ left) × (from + header_size_def ≤ length content.now) × (at + header_size_def ≤ length image.old) × (1 ≤ w) }
    ensures { Turned dead.now w content.now (Header at from) i left image.old image.new result }
{
    if w == 1 {
        return header_bytes(image, at, from, i, content, left, dead);
    }
    pages(
        image,
        at + i,
        from + i,
        Layout::HEADER - i,
        content,
        left,
        dead,
        w,
    )
}

// Stores of an operation from a place of it on, no more than are left: a mark, an erase, bytes one after another, or pages. None where the next one fails.
fn turn(
    image: &mut [u8],
    step: Step,
    i: usize,
    content: &[u8],
    left: u64,
    dead: &[u32],
    w: usize,
) -> usize
    requires { (i < size_of w step) × (1 ≤ left) × Fits (length content.now) (length image.old) step × (i ≡ 0 → OneBit step image.old) × (1 ≤ w) }
    ensures { Turned dead.now w content.now step i left image.old image.new result }
{
    match step {
        Step::Nothing => 0,
        Step::Mark(at, v) => mark(image, at, v, dead),
        Step::Erase(first, _) => {
            clear(image, first + i);
            1
        }
        Step::Program(at, from, len) => program(
            image,
            at + i,
            from + i,
            len - i,
            content,
            left,
            dead,
            w,
        ),
        Step::Header(at, from) => header(image, at, from, i, content, left, dead, w),
    }
}

// The stores of r places that were gone over in one turn: one for each page of w, the last one begun.
fn counted(w: usize, r: usize) -> u64
    requires { 1 ≤ w }
    ensures { result ≡ count_of w r }
{
    r.div_ceil(w) as u64
}

// The stores of a plan in their order, ended where n of them are made, or where one fails.
fn make_stores(
    image: &mut [u8],
    plan: Plan,
    content: &[u8],
    n: u64,
    dead: &[u32],
    w: usize,
) -> Answer
    requires { Ready content.now plan image.old × (1 ≤ w) }
    ensures { (answer_of result
        ≡ ended n (reach dead.now (stores w (expand content.now plan)) image.old) (length (stores w (expand content.now plan))))
        × (image.new
        ≡ after (min n (reach dead.now (stores w (expand content.now plan)) image.old))
        (stores w (expand content.now plan)) image.old) }
{
    let mut made: u64 = 0;
    for &step in &plan {
        let mut i = 0;
        while i < size(step, w) {
            if made == n {
                return Answer::Stopped;
            }
            let r = turn(image, step, i, content, n - made, dead, w);
            if r == 0 {
                return Answer::Refused(Rule::Worn);
            }
            made += counted(w, r);
            i += r;
        }
    }
    Answer::Done(made)
}

// How many bytes the part stores at a time: 1, 2, 4, 8 or 16; any other number counts as 1.
fn width(w: u32) -> usize
    ensures { (result ≡ width_of w) × (1 ≤ result) }
{
    match w {
        2 | 4 | 8 | 16 => w as usize,
        _ => 1,
    }
}

// A call carried out as it was planned: "The answer is done with its number of stores, stopped, or refused holding its rule."
pub fn carry_out(
    image: &mut [u8],
    planned: Result<Planned, Rule>,
    content: &[u8],
    context: Context,
) -> Answer
    requires { IfOk planned (λ p. Ready content.now p.plan image.old) }
    ensures { (answer_of result ≡ outcome context (planned_as content.now planned) image.old)
        × (image.new ≡ image_after context (planned_as content.now planned) image.old) }
{
    match planned {
        Ok(planned) => {
            let plan = planned.plan;
            let dead = context.dead;
            let count = MOST_DEAD.min(context.count) as usize;
            let w = width(context.width);
            make_stores(image, plan, content, context.limit, &dead[..count], w)
        }
        Err(rule) => Answer::Refused(rule),
    }
}
