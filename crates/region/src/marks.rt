// Marks, by which a name that came before is found without a look at every entry before it. A mark is a place, which is a number below a prime, and a
// sign, both made from words of GUID and name. Equal names with equal GUIDs have equal marks, so a name whose mark is not noted is a new one.
ghost use Rattle.std.specs.Prelude.{◌≡◌, ◌<◌, ◌≤◌, length};
ghost use Rattle.region.specs.Marks.{no_marks_def, plus, outer_words_def, middle_words_def, inner_words_def, weighed, key_mark, mark_in, is_noted_def, note};

use crate::{Mark, judge};
use layout::Entry;
use model::Layout;

// How many places names have: a prime, so that a character tells wherever it stands in its word. The compiler divides by this one without a correction.
const PLACES: u64 = 1279;

// A sign is a number from 128 to 255.
const SIGNS: u64 = 128;

// What is noted at a place where names of several signs have been met: no sign.
const SEVERAL: u8 = 1;

// A table in which no mark is noted: 0 at every place.
#[tactic(auto, unfolding(crate::specs::Marks::no_marks_def))]
pub fn no_marks() -> [u8; 1280]
    ensures { result ≡ no_marks_def }
{
    [0; 1280]
}

// Words of a longer name between its first and the last three. They begin seven bytes apart, so that every character is in one of them, and one that is in two counts
// differently in each.
fn middle_words(key: &[u8]) -> u64
    requires { 45 ≤ length key.now }
    ensures { result ≡ middle_words_def key.now }
{
    let mut sum: u64 = 0;
    for i in 0..(key.len() - 38) / 7 {
        sum = sum.wrapping_add(slices::standing_eight(key, 22 + 7 * i));
    }
    sum
}

// The words of the GUID and the last of the name.
#[tactic(auto, unfolding(crate::specs::Marks::outer_words_def, crate::specs::Marks::plus))]
fn outer_words(key: &[u8]) -> u64
    requires { 16 ≤ length key.now }
    ensures { result ≡ outer_words_def key.now }
{
    slices::standing_eight(key, 0)
        .wrapping_add(slices::standing_eight(key, 8))
        .wrapping_add(slices::standing_eight(key, key.len() - 8))
}

// The first word of the name, and two before its last. These begin seven bytes apart, too.
#[tactic(auto, unfolding(crate::specs::Marks::inner_words_def, crate::specs::Marks::plus))]
fn inner_words(key: &[u8]) -> u64
    requires { 24 ≤ length key.now }
    ensures { result ≡ inner_words_def key.now }
{
    let n = key.len();
    let late = slices::standing_eight(key, n - 22);
    let later = slices::standing_eight(key, n - 15);
    slices::standing_eight(key, 16).wrapping_add(late.wrapping_add(later))
}

// The number that the mark of a key is made from: the words that it is long enough for.
#[tactic(auto, unfolding(crate::specs::Marks::weighed, crate::specs::Marks::plus))]
fn weighed(key: &[u8]) -> u64
    ensures { result ≡ weighed key.now }
{
    let n = key.len();
    if n < 16 {
        return 0;
    }
    let outer = outer_words(key);
    if n < 24 {
        return outer;
    }
    let most = outer.wrapping_add(inner_words(key));
    if n < 45 {
        return most;
    }
    most.wrapping_add(middle_words(key))
}

// The mark of a GUID with the name after it.
#[tactic(auto, unfolding(crate::specs::Marks::key_mark))]
pub fn mark_of_key(key: &[u8]) -> Mark
    ensures { (result ≡ key_mark key.now) × (result.place < 1280) }
{
    let w = weighed(key);
    Mark {
        place: (w % PLACES) as usize,
        sign: (w / PLACES % SIGNS + SIGNS) as u8,
    }
}

// The mark of the entry at the front of `s`: that of its GUID and name if it is live, else one at a place that no name has.
#[tactic(auto, unfolding(crate::specs::Marks::mark_in, crate::specs::Marks::mark_of, crate::specs::Marks::dead_mark))]
pub fn mark_of(y: Layout, s: &[u8], e: Entry) -> Mark
    ensures { (result ≡ mark_in y s.now e) × (result.place < 1280) }
{
    if judge::is_live(e.state) {
        return mark_of_key(layout::key_of(y, s, e));
    }
    Mark {
        place: 1279,
        sign: 128,
    }
}

// Whether, by what is noted at its place, a name of this sign may have been met.
#[tactic(auto, unfolding(crate::specs::Marks::is_noted_def))]
pub(crate) fn is_noted(noted: u8, sign: u8) -> bool
    ensures { result ≡ is_noted_def noted sign }
{
    noted != 0 && (noted == sign || noted == SEVERAL)
}

// What is noted once a name of this sign is met.
#[tactic(auto, unfolding(crate::specs::Marks::note))]
pub(crate) fn note(noted: u8, sign: u8) -> u8
    ensures { result ≡ note noted sign }
{
    if noted == 0 || noted == sign {
        sign
    } else {
        SEVERAL
    }
}
