// What UEFI's QueryVariableInfo asks: the room for values of a class, the error records or a side's others, as rules 13 and 18 have it. No stores are made.
ghost use Rattle.std.specs.Prelude.{◌≡◌, cond, ◌||◌, ◌+◌, ◌*◌, ◌-◌, ◌/◌, ◌≤◌, ◌<◌, ◌^◌, min, length, eqb};
ghost use Rattle.model.specs.Rules.{rule4};
ghost use Rattle.model.specs.Image.{region_header_size, region_size};
ghost use Rattle.model.specs.Region.{record_bit, entries, values, values_of};
ghost use Rattle.model.specs.Answers.{answer_of};
ghost use Rattle.model.specs.Query.{record_share_def, storage_for, remaining_for, largest_for, query_outcome, query_gives};

use model::{Answer, Layout, Queried, Rule, Terms};
use values::list;

// The room for values of a class, in numbers.
#[derive(Clone, Copy)]
struct Room {
    storage: usize,
    remaining: usize,
    largest: usize,
}

// The bytes for error records, which are always ours.
fn record_share(t: Terms) -> usize
    ensures { result ≡ record_share_def t }
{
    if t.modem {
        return 0;
    }
    t.records as usize
}

// The bytes that all values of a class may take.
fn storage(t: Terms, error: bool, size: usize) -> usize
    ensures { (result ≡ storage_for t error size) × (result ≤ size) }
{
    let all = size.saturating_sub(layout::REGION_HEADER);
    if error {
        return all.min(record_share(t));
    }
    all.min(t.share.saturating_sub(t.reserve) as usize)
}

// The bytes that a new value may take, by the sums of those that are there.
fn remaining(t: Terms, error: bool, size: usize, records: usize, own: usize, others: usize) -> usize
    requires { records + own + others < 2 ^ 32 }
    ensures { (result ≡ min (size - (region_header_size + records + own + others))
        (cond error (record_share_def t - records) (t.share - (own + t.reserve))) / 4 * 4)
        × (result ≤ size) }
{
    let all = size.saturating_sub(layout::REGION_HEADER + records + own + others);
    if error {
        return all.min(record_share(t).saturating_sub(records)) / 4 * 4;
    }
    all.min((t.share as usize).saturating_sub(own + t.reserve as usize)) / 4 * 4
}

// The bytes that its name and data may have.
fn largest(remaining: usize) -> usize
    ensures { (result ≡ largest_for remaining) × (result ≤ remaining) }
{
    let most = slices::LONGEST_NAME + layout::LARGEST_DATA as usize;
    most.min(remaining.saturating_sub(Layout::HEADER))
}

// The room in a region.
fn room_in(t: Terms, region: &[u8], error: bool) -> Room
    requires { length region.now ≤ 28672 }
    ensures { (result.storage ≡ storage_for t error (length region.now))
        × (result.remaining ≡ remaining_for t error (length region.now) (values (entries region.now)))
        × (result.largest ≡ largest_for (remaining_for t error (length region.now) (values (entries region.now))))
        × (result.storage ≤ 28672) × (result.remaining ≤ 28672) × (result.largest ≤ 28672) }
{
    let guid = t.vendor;
    let sums = list::tally(Layout::AUTHENTICATED, region, &guid, t.modem);
    let size = region.len();
    let remaining = remaining(t, error, size, sums.records, sums.own, sums.others);
    Room {
        storage: storage(t, error, size),
        remaining,
        largest: largest(remaining),
    }
}

// Refused: no room is told.
fn refused(rule: Rule) -> Queried
    ensures { result ≡ record { answer = Answer.Refused rule; storage = 0; remaining = 0; largest = 0 } }
{
    Queried {
        answer: Answer::Refused(rule),
        storage: 0,
        remaining: 0,
        largest: 0,
    }
}

// Whether attributes are none that a value of a call could have.
fn is_unknown(runtime: bool, attributes: u32) -> bool
    ensures { result ≡ (rule4 runtime attributes || eqb attributes 0) }
{
    attributes == 0 || policy::attributes_broken(runtime, attributes)
}

// A query: rules 1, 2 and 4, then the room for a side's values with these attributes, as its session's terms have it.
pub fn query(t: Terms, image: &[u8], attributes: u32) -> Queried
    ensures { (answer_of result.answer ≡ query_outcome t.runtime attributes image.now)
        × (result.storage ≡ query_gives t.runtime attributes image.now (storage_for t (record_bit attributes) (region_size image.now)))
        × (result.remaining ≡ query_gives t.runtime attributes image.now
        (remaining_for t (record_bit attributes) (region_size image.now) (values_of image.now)))
        × (result.largest ≡ query_gives t.runtime attributes image.now
        (largest_for (remaining_for t (record_bit attributes) (region_size image.now) (values_of image.now)))) }
{
    match image::check_call(Layout::AUTHENTICATED, image) {
        Ok(ready) => {
            if is_unknown(t.runtime, attributes) {
                return refused(Rule::Attributes);
            }
            let region = slices::cut(image, 0, layout::BLOCK * ready.blocks);
            let room = room_in(t, region, layout::is_error_record(attributes));
            Queried {
                answer: Answer::Done(0),
                storage: room.storage as u32,
                remaining: room.remaining as u32,
                largest: room.largest as u32,
            }
        }
        Err(rule) => refused(rule),
    }
}
