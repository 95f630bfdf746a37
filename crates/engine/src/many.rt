// The call that gets many values at once. It checks the image once, finds all names in one walk, and then answers one get after another.
ghost use Rattle.std.specs.Prelude.{◌≡◌, Bool, true, ◌+◌, ◌*◌, ◌%◌, ◌≤◌, ◌<◌, length};
ghost use Rattle.std.proofs.lemmas.List.Edits.{sets};
ghost use Rattle.model.specs.Lists.{part};
ghost use Rattle.model.specs.Name.{well_named};
ghost use Rattle.model.specs.Region.{entries, values};
ghost use Rattle.model.specs.declared.Session.{Session};
ghost use Rattle.model.specs.Rules.{view_of};
ghost use Rattle.model.specs.Answers.{answer_of, gets_reply};
ghost use Rattle.model.specs.Book as book;
ghost use Rattle.recovery.specs.Interface.{Returned};
ghost use Rattle.region.specs.Met.{key_from, met_of};
ghost use Rattle.query.specs.Many.{AllMet};
ghost use Rattle.engine.specs.Read.{Answered};
ghost use Rattle.model.specs.Beside.{asked, rule_told_def, Handed};
ghost use Rattle.engine.specs.Many.{got_numbers, one_broken, one_reply, each_of, AnsweredMany};

use crate::read;
use model::{Answer, Context, Got, Layout, Rule, View};
use query::many::{self, Offsets};
use region::Met;

// How many names one call may have.
const MOST: usize = 64;

// The GUID at the front of a key.
fn guid_of(key: &[u8]) -> [u8; 16]
    requires { 16 ≤ length key.now }
    ensures { result ≡ part 0 16 key.now }
{
    let mut guid = [0; 16];
    guid.copy_from_slice(slices::cut(key, 0, 16));
    guid
}

// Whether a well-formed name may have so many bytes.
fn is_sized(n: usize) -> bool
    ensures { result ≡ true → (4 ≤ n) × (n ≤ 128) × (n % 2 ≡ 0) }
{
    4 <= n && n <= slices::LONGEST_NAME && n % 2 == 0
}

// Whether a name is well formed: four characters at a time where its size allows it, as most are.
fn is_named(name: &[u8]) -> bool
    ensures { result ≡ well_named name.now }
{
    (is_sized(name.len()) && slices::is_zero_ended(name)) || slices::is_named(name)
}

// What a get of one name answers, after rules 1 and 2: rules 3, 22, 11 and 14.
fn get_one(region: &[u8], view: View, key: &[u8], met: Met, buffer: &mut [u8]) -> Got
    requires { (length region.now ≤ 28672) × (met ≡ met_of (key_from key.now) (entries region.now)) }
    ensures { Answered
        (one_broken view (values (entries region.now)) (key_from key.now) buffer.old)
        (one_reply view (values (entries region.now)) (key_from key.now) buffer.old)
        result buffer.new }
{
    let name = slices::from(key, 16);
    if !is_named(name) {
        return read::refused(Rule::Name, 0);
    }
    let vendor = guid_of(key);
    if read::is_foreign(view, name, &vendor) {
        return read::refused(Rule::Side, 0);
    }
    read::get_from(region, view.runtime, name, &vendor, met, buffer)
}

// The rule of an answer, 0 if it is done.
fn rule_told(a: Answer) -> u32
    ensures { result ≡ rule_told_def (answer_of a) }
{
    match a {
        Answer::Done(_) => 0,
        Answer::Stopped => 0,
        Answer::Refused(rule) => u32::from(rule),
    }
}

// What a get gave, in four numbers of its own.
fn tell(g: Got, k: usize, told: &mut [u32])
    requires { (k < 64) × (4 * k + 4 ≤ length told.old) }
    ensures { told.new ≡ sets told.old (4 * k) (got_numbers g) }
{
    let at = 4 * k;
    told[at] = rule_told(g.answer);
    told[at + 1] = g.size;
    told[at + 2] = g.attributes;
    told[at + 3] = g.needed;
}

// One get after another, each with what those before it left of the buffer.
fn get_each(
    region: &[u8],
    view: View,
    keys: &[u8],
    sizes: &[u32],
    found: &[Offsets],
    told: &mut [u32],
    buffer: &mut [u8],
)
    requires { (length region.now ≤ 28672) × (length sizes.now ≤ 64) × (length found.now ≡ 64)
        × (length told.old ≡ 256) × AllMet keys.now sizes.now region.now found.now }
    ensures { Handed (each_of view (values (entries region.now)) (asked keys.now sizes.now) buffer.old)
        told.old told.new buffer.new }
{
    let mut used: usize = 0;
    for (k, &size) in sizes.iter().enumerate() {
        let g = get_one(
            region,
            view,
            many::asked(keys, k, size),
            Met::from(found[k]),
            &mut buffer[used..],
        );
        used += g.size as usize;
        tell(g, k, told);
    }
}

// A many-get from a region, after rules 1 and 2: rule 3 for more than 64 names, else each name's own rules.
fn get_all(
    region: &[u8],
    view: View,
    keys: &[u8],
    sizes: &[u32],
    told: &mut [u32; 256],
    buffer: &mut [u8],
) -> Answer
    requires { length region.now ≤ 28672 }
    ensures { AnsweredMany view (values (entries region.now)) (asked keys.now sizes.now) buffer.old told.old
        result told.new buffer.new }
{
    if MOST < sizes.len() {
        return Answer::Refused(Rule::Name);
    }
    let mut found = many::none_met();
    many::find(region, keys, sizes, &mut found);
    get_each(region, view, keys, sizes, &found, told, buffer);
    Answer::Done(0)
}

// A many-get: the data of the values of up to 64 names, one after another, and of each name what a get answers. Rules 1, 2 and 3.
pub fn get_many(
    c: Context,
    view: View,
    image: &[u8],
    keys: &[u8],
    sizes: &[u32],
    told: &mut [u32; 256],
    buffer: &mut [u8],
) -> Answer
    ensures { (m : Bool) (s : Session) → view_of m s ≡ view
        → Returned
        (book.several m s (asked keys.now sizes.now) buffer.old)
        c image.now image.now result
        × Handed
        (gets_reply m s (asked keys.now sizes.now) buffer.old image.now)
        told.old told.new buffer.new }
{
    match image::check_call(Layout::AUTHENTICATED, image) {
        Ok(ready) => get_all(
            slices::cut(image, 0, layout::BLOCK * ready.blocks),
            view,
            keys,
            sizes,
            told,
            buffer,
        ),
        Err(rule) => Answer::Refused(rule),
    }
}
