// A script of calls played through the engine, with a line for each step. This is a test program: its functions are proved safe and ending, and
// promise no more than their callers need; what they print is compared with lines worked out by hand. What standard output does not take is lost.
//
// A script is binary: steps one behind another. A step is its kind (an ASCII letter), limit u32 (n; 0xFFFFFFFF never stops), then by kind
//   F  format      b u8: the image becomes the first 4,096 * (2b + 1) bytes of the buffer, as they stand, and is formatted
//   U  start-up    custom u8, reserve u32, records u32
//   S  set         attributes u32, presence u8, verdict u8, vendor 16, name size u16, data size u32, name, data
//   O  profile     size u32, the file
//   A  mode        the mode requested, u32
//   C  the present mode
//   G  get         buffer size u16, vendor 16, name size u16, name
//   N  next-name   the same
//   Q  many-get    buffer size u16, number of names u8 (up to 65), size of all places u16, the size of each name with its GUID u32, the places (144 bytes for each
//                  name, GUID first)
//   L  lock        vendor 16, name size u16, name
//   P  phase       u8
//   B  bytes poked into the image, as nobody but a test does: offset u32, size u16, bytes
//   D  bytes of the image shown: offset u32, size u16
//   V  varlist's text
//   M  move        form u8 (1 into the new form, 0 into the plain one), size u32: the target becomes the first so many bytes of a buffer of its own, as they
//                  stand, and the image is moved into it
//   E  bytes of the target shown: offset u32, size u16
//   T  the target taken as the image: its length, and its bytes
//   W  dead bytes  count u8, sixteen addresses u32: given with every call from there on, as none are before
//   I  page        the bytes of a page, u32: given with every call from there on, as 0 (which counts as 1) is before
//   R  rule        rules u32, place u8, the rule, 216 bytes as the C interface lays it out: it stands in that place of the table (there are 32, and any other place
//                  is none), and the table is given with every start-up from there on, with that number of rules, as one of zeros and 0 are before
//   K  side        u32: given with every call from there on, locks too, as 0 is before
//   X  tenants     our share u32, the modem's share u32, its reserve u32, its GUID 16: given with every start-up from there on. Before the first our share is the
//                  region but for its header, by the image's length at each step, in the session too, and the rest is 0
// Numbers are little-endian; a field past the script's end counts as zeros or empty. Before the first format the image has no bytes, and before the first move
// the target has none.
ghost use Rattle.std.specs.Prelude.{◌≡◌};
ghost use Rattle.model.specs.Name.{keyed};
ghost use Rattle.model.specs.Rules.{terms_for_def, terms_of};

use crate::print::{Held, Needed, Told, hex};
use crate::step::{Named, Shown, Step};
use crate::{many, rules, step, tenants};
use decision::Asking;
use model::{Answer, Context, Got, Layout, PlatMode, Session, Setup, Terms, View};
use session::Locks;

// What is carried from a step to the next: the session, the last step's context for its dead bytes, its page and its side, what start-ups are given for its rules and
// tenants, and whether a step has given tenants.
#[derive(Clone, Copy)]
struct Carried {
    session: Session,
    context: Context,
    setup: Setup,
    shared: bool,
}

// What a call takes beside its own arguments: the step's limit, and dead bytes, page and side as given before, where the step gives no others.
fn context(limit: u64, step: Step<'_>, before: Context) -> Context {
    let context = Context { limit, ..before };
    match step {
        Step::Dead { count, dead } => Context {
            count,
            dead,
            ..context
        },
        Step::Page(width) => Context { width, ..context },
        Step::Side(side) => Context { side, ..context },
        _ => context,
    }
}

// An answer alone on its line.
fn print_answer(rt: &impl Print, call: &str, answer: Answer) {
    let _ = println!(rt; "{call} {}", Told(answer));
}

// Room for what a call composes.
fn content() -> [u8; layout::CONTENT] {
    [0; layout::CONTENT]
}

fn format(rt: &impl Print, c: Context, image: &mut [u8]) {
    let mut content = content();
    print_answer(rt, "format", engine::write::format(c, image, &mut content));
}

fn start_up(rt: &impl Print, c: Context, setup: Setup, image: &mut [u8]) -> Session {
    let tenant = setup.modem;
    let mut content = content();
    print_answer(
        rt,
        "start-up",
        engine::start::start_up(c, setup.share, setup.records, tenant, image, &mut content),
    );
    Session::fresh(setup)
}

// What a session says to a side's call that names no name.
fn said(s: Session, modem: bool) -> Terms
    ensures { terms_for_def modem s ≡ result }
{
    let tenant = s.setup.modem;
    session::terms_for(
        modem,
        s.phase,
        s.setup.custom,
        s.setup.reserve,
        s.setup.records,
        s.setup.share,
        tenant,
        s.setup.rules,
    )
}

// And to a set of a name.
fn terms(s: Session, modem: bool, name: &[u8], vendor: &[u8; 16]) -> Terms
    ensures { terms_of modem s (keyed name.now vendor.now) ≡ result }
{
    let said = said(s, modem);
    let sizes = s.sizes;
    let barred = session::is_barred(s.phase, s.count, sizes, &s.locks, name, vendor);
    session::terms(said, barred, name, vendor)
}

fn set(
    rt: &impl Print,
    c: Context,
    asking: Asking,
    named: Named<'_>,
    bytes: &[u8],
    image: &mut [u8],
    s: Session,
) {
    let Named { vendor, name } = named;
    let terms = terms(s, session::is_modem(c.side), name, &vendor);
    let mut content = content();
    let answer = engine::write::set(
        c,
        terms,
        &s.setup.limits,
        image,
        name,
        &vendor,
        asking,
        bytes,
        &mut content,
    );
    print_answer(rt, "set", answer);
}

fn profile(rt: &impl Print, c: Context, file: &[u8], image: &mut [u8], s: Session) {
    let said = said(s, session::is_modem(c.side));
    let sizes = s.sizes;
    let held = Locks {
        phase: s.phase,
        used: s.count,
        sizes,
    };
    let mut content = content();
    let answer = engine::items::profile(
        c,
        said,
        held,
        &s.locks,
        &s.setup.limits,
        image,
        file,
        &mut content,
    );
    print_answer(rt, "profile", answer);
}

fn mode(rt: &impl Print, c: Context, to: u32, image: &mut [u8], s: Session) {
    let said = said(s, session::is_modem(c.side));
    let sizes = s.sizes;
    let held = Locks {
        phase: s.phase,
        used: s.count,
        sizes,
    };
    let mut content = content();
    let answer = engine::modes::mode(c, said, held, &s.locks, image, to, &mut content);
    print_answer(rt, "mode", answer);
}

// A mode as it crosses to C.
fn number_of(mode: PlatMode) -> u32 {
    match mode {
        PlatMode::Setup => 0,
        PlatMode::User => 1,
        PlatMode::Audit => 2,
        PlatMode::Deployed => 3,
    }
}

// The present mode, or the rule that the image breaks.
fn present(rt: &impl Print, image: &[u8]) {
    let _ = match engine::modes::present(image) {
        Ok(mode) => println!(rt; "present done 0 mode {}", number_of(mode)),
        Err(rule) => println!(rt; "present {}", Told(Answer::Refused(rule))),
    };
}

// A get's answer; of a done one size, attributes and data too.
fn print_got(rt: &impl Print, got: Got, buffer: &[u8]) {
    let Got {
        answer,
        size,
        attributes,
        needed,
    } = got;
    let told = Told(answer);
    let needed = Needed(needed);
    let _ = match answer {
        Answer::Done(_) => {
            let _ = print!(rt;
                "get {told} size {size} attributes {:02X} data ",
                attributes % 256
            );
            hex(rt, slices::cut(buffer, 0, size as usize));
            println!(rt; "{needed}")
        }
        _ => println!(rt; "get {told}{needed}"),
    };
}

// What a session says to a side's get or next-name.
fn view(c: Context, s: Session) -> View {
    let vendor = s.setup.modem.vendor;
    session::view(session::is_modem(c.side), s.phase, vendor)
}

fn get(rt: &impl Print, c: Context, view: View, room: u16, named: Named<'_>, image: &[u8]) {
    let Named { vendor, name } = named;
    let mut space = [0; 65536];
    let buffer = &mut space[..usize::from(room)];
    let got = engine::read::get(c, view, image, name, &vendor, buffer);
    print_got(rt, got, &space);
}

// A next-name's answer; of a done one size and bytes too.
fn next_name(rt: &impl Print, c: Context, view: View, room: u16, named: Named<'_>, image: &[u8]) {
    let Named { vendor, name } = named;
    let mut space = [0; 65536];
    let buffer = &mut space[..usize::from(room)];
    let next = engine::read::next_name(c, view, image, name, &vendor, buffer);
    let told = Told(next.answer);
    let size = next.size;
    let needed = Needed(next.needed);
    let _ = match next.answer {
        Answer::Done(_) => {
            let _ = print!(rt; "next-name {told} size {size} bytes ");
            hex(rt, slices::cut(&space, 0, size as usize));
            println!(rt; "{needed}")
        }
        _ => println!(rt; "next-name {told}{needed}"),
    };
}

fn lock(rt: &impl Print, c: Context, named: Named<'_>, s: Session) -> Session {
    let Named { vendor, name } = named;
    let listed = session::lock(s, session::is_modem(c.side), name, &vendor);
    let after = listed.session;
    let _ = println!(rt; "lock {} {}", Told(listed.answer), Held(&after));
    after
}

fn phase(rt: &impl Print, to: u32, s: Session) -> Session {
    let after = s.moved_to(to);
    let _ = println!(rt; "moved {}", Held(&after));
    after
}

fn poke(rt: &impl Print, at: u32, bytes: &[u8], image: &mut [u8]) {
    output::put_bytes(image, at as usize, bytes);
    let _ = print!(rt; "bytes at {at} are ");
    hex(rt, bytes);
    let _ = println!(rt);
}

fn show(rt: &impl Print, shown: Shown, image: &[u8]) {
    let Shown { at, size } = shown;
    let part = slices::cut(image, at as usize, usize::from(size));
    let _ = print!(rt; "at {at} ");
    hex(rt, part);
    let _ = println!(rt);
}

pub(crate) fn varlist(rt: &impl Print, image: &[u8]) {
    let mut out = [0; 65536];
    let n = report::report(Layout::AUTHENTICATED, image, &mut out);
    let _ = rt.write_all(slices::cut(&out, 0, n));
}

fn move_image(rt: &impl Print, form: u8, image: &[u8], target: &mut [u8]) {
    let (from, to) = match form {
        1 => (Layout::plain(), Layout::authenticated()),
        _ => (Layout::authenticated(), Layout::plain()),
    };
    print_answer(rt, "move", convert::move_values(from, to, image, target));
}

fn take_target(rt: &impl Print, image: &mut [u8], target: &[u8]) {
    output::put_bytes(image, 0, target);
    let _ = println!(rt; "target taken");
}

// A step that leaves the session as it is. What it gives to later ones is printed as it is given, also above what it counts as.
fn call(
    rt: &impl Print,
    c: Context,
    step: Step<'_>,
    image: &mut [u8],
    target: &mut [u8],
    s: Session,
) {
    match step {
        Step::Format(_) => format(rt, c, image),
        Step::Set {
            asking,
            named,
            bytes,
        } => set(rt, c, asking, named, bytes, image, s),
        Step::Profile(file) => profile(rt, c, file, image, s),
        Step::Mode(to) => mode(rt, c, to, image, s),
        Step::Present => present(rt, image),
        Step::Get { room, named } => get(rt, c, view(c, s), room, named, image),
        Step::NextName { room, named } => next_name(rt, c, view(c, s), room, named, image),
        Step::GetMany { room, names } => many::get_many(rt, c, view(c, s), room, names, image),
        Step::Poke { at, bytes } => poke(rt, at, bytes, image),
        Step::Show(shown) => show(rt, shown, image),
        Step::Varlist => varlist(rt, image),
        Step::Move { form, .. } => move_image(rt, form, image, target),
        Step::ShowTarget(shown) => show(rt, shown, target),
        Step::TakeTarget => take_target(rt, image, target),
        _ => tell(rt, step),
    }
}

// What a step gives to later ones, as it is given: also where it counts as less.
fn tell(rt: &impl Print, step: Step<'_>) {
    let _ = match step {
        Step::Dead { count, .. } => println!(rt; "dead {count}"),
        Step::Page(width) => println!(rt; "page {width}"),
        Step::Rule { rules, .. } => println!(rt; "rules {rules}"),
        Step::Side(side) => println!(rt; "side {side}"),
        Step::Tenants { share, modem } => println!(rt; "shares {share} {}", modem.share),
        _ => println!(rt; "no such step"),
    };
}

// A step played; the session after it.
fn play_step(
    rt: &impl Print,
    c: Context,
    step: Step<'_>,
    image: &mut [u8],
    target: &mut [u8],
    s: Session,
    given: Setup,
) -> Session {
    match step {
        Step::StartUp {
            custom,
            reserve,
            records,
        } => {
            let setup = Setup {
                custom,
                reserve,
                records,
                ..given
            };
            start_up(rt, c, setup, image)
        }
        Step::Lock(named) => lock(rt, c, named, s),
        Step::Phase(to) => phase(rt, to, s),
        _ => {
            call(rt, c, step, image, target, s);
            s
        }
    }
}

fn carry(
    rt: &impl Print,
    limit: u64,
    step: Step<'_>,
    image: &mut [u8],
    target: &mut [u8],
    before: Carried,
) -> Carried {
    let context = context(limit, step, before.context);
    let shared = tenants::shared(step, before.shared);
    let ruled = rules::given(step, before.setup);
    let setup = tenants::given(step, shared, image, ruled);
    let held = tenants::held(shared, image, before.session);
    let session = play_step(rt, context, step, image, target, held, setup);
    Carried {
        session,
        context,
        setup,
        shared,
    }
}

// The target's length at a step: a move names another one.
fn target_size(step: Step<'_>, before: usize) -> usize {
    match step {
        Step::Move { size, .. } => size as usize,
        _ => before,
    }
}

// The image's length at a step: a format names another one, and the target brings its own.
fn image_size(step: Step<'_>, before: usize, target: usize) -> usize {
    match step {
        Step::Format(blocks) => layout::BLOCK * (2 * usize::from(blocks) + 1),
        Step::TakeTarget => target,
        _ => before,
    }
}

// Before the first step: a fresh session, no dead bytes, stores of bytes, calls of ours, no rules and no tenants.
fn nothing() -> Carried {
    let setup = rules::none();
    let session = Session::fresh(setup);
    let context = Context {
        limit: 0,
        count: 0,
        dead: [0; 16],
        width: 0,
        side: 0,
    };
    Carried {
        session,
        context,
        setup,
        shared: false,
    }
}

// The steps of a script, over a buffer for the image and one for the target of moves.
fn play_steps(rt: &impl Print, script: &[u8], buffer: &mut [u8], other: &mut [u8]) {
    let mut carried = nothing();
    let mut size = 0;
    let mut room = 0;
    let mut left = script;
    while !left.is_empty() {
        let (limit, step, rest) = step::read(left);
        room = target_size(step, room).min(other.len());
        size = image_size(step, size, room).min(buffer.len());
        carried = carry(
            rt,
            limit,
            step,
            &mut buffer[..size],
            &mut other[..room],
            carried,
        );
        left = rest;
    }
}

pub(crate) fn play(rt: &impl Print, script: &[u8]) {
    let mut buffer = [0; 65536];
    let mut other = [0; 65536];
    play_steps(rt, script, &mut buffer, &mut other);
}
