// The window of a member: its 8 places for the numbers above the last taken, its 5 places of messages that wait, and the tests and
// choices on plain numbers and on one place that its calls are made of.
#![tactic(auto)]

ghost use Rattle.std.specs.Prelude.{◌≡◌, ◌+◌, ◌-◌, ◌*◌, ◌≤◌, ◌<◌, length, take, set};
ghost use Rattle.group.specs.Choice.{◌and◌, ◌<?◌, ◌≤?◌, ◌=?◌};
ghost use Rattle.group.specs.Fold.{all_above};
ghost use Rattle.group.specs.Lent.{Laid};
ghost use Rattle.group.specs.Limits.{held_most, payload_most, waiting_most, longest_packet, largest_number};
ghost use Rattle.message.specs.Message.{message_of, empty_message};
ghost use Rattle.store.specs.Places.{part_of, Lies, mask_of, message_in, messages_in};
ghost use Rattle.window.specs.Places.{place_of, queue_place, smaller_of, larger_of};
ghost use Rattle.window.specs.Sound.{place_sound, queue_sound, waiting_sound, frame_sound};
ghost use Rattle.window.specs.Steps.{message_sound, queued_sound, first_uncounted, row_counted};

use group::{Group, MemberNumber, SequenceNumber};

// Number s lies in place s modulo 8: the place of the number that lies `ahead` above a number, which may pass the largest.
pub fn place(number: SequenceNumber, ahead: usize) -> usize
    requires { ahead ≤ held_most }
    ensures { result ≡ place_of (number.0 + ahead) }
{
    (number.0 as usize + ahead) % Group::HELD
}

// The lowest number above the last taken, up to `last`, that is missing by the counts of the places.
#[tactic(auto, using(crate::proofs::Scan::missing_on, crate::proofs::Scan::missing_found, crate::proofs::Scan::missing_none))]
pub fn lowest_missing(
    counts: &[u32],
    taken: SequenceNumber,
    last: SequenceNumber,
) -> Option<SequenceNumber>
    requires { length counts.now ≡ held_most }
    ensures { result ≡ first_uncounted counts.now taken.0 (last.0 - taken.0) }
{
    for number in taken.0..last.0 {
        if counts[place(SequenceNumber(number), 1)] == 0 {
            return Some(SequenceNumber(number + 1));
        }
    }
    None
}

// The group's description is sound, the member is a survivor, and what it took is accepted.
#[tactic(auto, using(group::proofs::Choice::choices), unfolding(crate::specs::Sound::frame_sound))]
pub fn frame_sound(
    group: Group,
    number: MemberNumber,
    taken: SequenceNumber,
    accepted: SequenceNumber,
) -> bool
    ensures { result ≡ frame_sound group number taken.0 accepted.0 }
{
    group.sound() && group::is_in(group.survivors, number) && taken <= accepted
}

// The message with a count lies in place count modulo 5, of those that wait.
pub fn queue_place(count: usize) -> usize
    ensures { result ≡ queue_place count }
{
    count % Group::WAITING
}

// A message waits as the member's own with its place's count; a place of a count that was not submitted is all zero.
#[tactic(auto, using(group::proofs::Choice::choices), unfolding(crate::specs::Steps::queued_sound, message::specs::Message::zero_behind))]
fn queued_sound(
    number: MemberNumber,
    submitted: u32,
    place: usize,
    count: u32,
    originator: u8,
    length: u8,
    payloads: &[u8],
    mask: &[u8],
    at: usize,
) -> bool
    requires { Lies at payloads.now × (mask.now ≡ mask_of) }
    ensures { result ≡ queued_sound number submitted (message_in count originator length (part_of payloads.now at)) place }
{
    if place <= (submitted as usize) {
        originator == number.0
            && (count as usize) == place
            && (length as usize) <= Group::PAYLOAD
            && store::zero_from(payloads, mask, at, length)
    } else {
        store::is_empty(count, originator, length, payloads, mask, at)
    }
}

// At most five messages wait, no more than were submitted, and each of the five places is sound.
#[tactic(auto, using(group::proofs::Choice::choices), unfolding(crate::specs::Sound::waiting_sound))]
pub fn waiting_sound(
    number: MemberNumber,
    submitted: u32,
    waiting: u32,
    counts: &[u32],
    originators: &[u8],
    lengths: &[u8],
    payloads: &[u8],
    mask: &[u8],
) -> bool
    requires { (length counts.now ≡ waiting_most) × (length originators.now ≡ waiting_most) × (length lengths.now ≡ waiting_most) × (length payloads.now ≡ waiting_most * payload_most) × (mask.now ≡ mask_of) }
    ensures { result ≡ waiting_sound number submitted waiting (messages_in counts.now originators.now lengths.now payloads.now) }
{
    (waiting as usize) <= Group::WAITING
        && waiting <= submitted
        && queue_sound(
            number,
            submitted,
            submitted - waiting,
            counts,
            originators,
            lengths,
            payloads,
            mask,
        )
}

// The places of the five counts above those that were taken are sound.
#[tactic(auto, using(group::proofs::Fold::above_on, group::proofs::Fold::above_off, group::proofs::Fold::above_done, crate::proofs::Places::queue_in))]
fn queue_sound(
    number: MemberNumber,
    submitted: u32,
    taken: u32,
    counts: &[u32],
    originators: &[u8],
    lengths: &[u8],
    payloads: &[u8],
    mask: &[u8],
) -> bool
    requires { (taken ≤ submitted) × (length counts.now ≡ waiting_most) × (length originators.now ≡ waiting_most) × (length lengths.now ≡ waiting_most) × (length payloads.now ≡ waiting_most * payload_most) × (mask.now ≡ mask_of) }
    ensures { result ≡ all_above (queue_sound number (messages_in counts.now originators.now lengths.now payloads.now) submitted) taken waiting_most }
{
    for i in 0..Group::WAITING {
        let count = (taken as usize) + i + 1;
        let at = queue_place(count);
        if !queued_sound(
            number,
            submitted,
            count,
            counts[at],
            originators[at],
            lengths[at],
            payloads,
            mask,
            at,
        ) {
            return false;
        }
    }
    true
}

// A held message has a member of the group as its originator, a length in the limit and a number in the limit; else its
// place is all zero.
#[tactic(auto, using(group::proofs::Choice::choices), unfolding(crate::specs::Steps::message_sound, message::specs::Message::zero_behind))]
fn message_sound(
    n: u8,
    number: usize,
    count: u32,
    originator: u8,
    length: u8,
    payloads: &[u8],
    mask: &[u8],
    at: usize,
) -> bool
    requires { Lies at payloads.now × (mask.now ≡ mask_of) }
    ensures { result ≡ message_sound n (message_in count originator length (part_of payloads.now at)) number }
{
    if count == 0 {
        return store::is_empty(count, originator, length, payloads, mask, at);
    }
    originator < n
        && (length as usize) <= Group::PAYLOAD
        && store::zero_from(payloads, mask, at, length)
        && number <= (Group::LARGEST as usize)
}

// The places of the eight numbers above the last taken are sound.
#[tactic(auto, using(group::proofs::Fold::above_on, group::proofs::Fold::above_off, group::proofs::Fold::above_done, crate::proofs::Places::place_in))]
pub fn held_sound(
    n: u8,
    taken: SequenceNumber,
    counts: &[u32],
    originators: &[u8],
    lengths: &[u8],
    payloads: &[u8],
    mask: &[u8],
) -> bool
    requires { (length counts.now ≡ held_most) × (length originators.now ≡ held_most) × (length lengths.now ≡ held_most) × (length payloads.now ≡ held_most * payload_most) × (mask.now ≡ mask_of) }
    ensures { result ≡ all_above (place_sound n (messages_in counts.now originators.now lengths.now payloads.now)) taken.0 held_most }
{
    for i in 0..Group::HELD {
        let at = place(taken, i + 1);
        let number = (taken.0 as usize) + i + 1;
        if !message_sound(
            n,
            number,
            counts[at],
            originators[at],
            lengths[at],
            payloads,
            mask,
            at,
        ) {
            return false;
        }
    }
    true
}

// A message goes to a place: the keeping step.
#[tactic(auto, using(store::proofs::Places::messages_laid, crate::proofs::Places::padded_length), unfolding(message::specs::Message::message_of))]
pub fn keep(
    counts: &mut [u32],
    originators: &mut [u8],
    lengths: &mut [u8],
    payloads: &mut [u8],
    at: usize,
    originator: MemberNumber,
    count: u32,
    payload: &[u8],
)
    requires { (at < length counts.old) × (at < length originators.old) × (at < length lengths.old) × Lies at payloads.old × (length payload.now ≤ payload_most) }
    ensures { messages_in counts.new originators.new lengths.new payloads.new ≡ set (messages_in counts.old originators.old lengths.old payloads.old) at (message_of originator count payload.now) }
{
    counts[at] = count;
    originators[at] = originator.0;
    lengths[at] = payload.len() as u8;
    store::keep(payloads, at, payload);
}

// A place is made empty.
#[tactic(auto, using(store::proofs::Places::messages_laid), unfolding(message::specs::Message::empty_message))]
pub fn clear(
    counts: &mut [u32],
    originators: &mut [u8],
    lengths: &mut [u8],
    payloads: &mut [u8],
    at: usize,
)
    requires { (at < length counts.old) × (at < length originators.old) × (at < length lengths.old) × Lies at payloads.old }
    ensures { messages_in counts.new originators.new lengths.new payloads.new ≡ set (messages_in counts.old originators.old lengths.old payloads.old) at empty_message }
{
    counts[at] = 0;
    originators[at] = 0;
    lengths[at] = 0;
    store::clear(payloads, at);
}

// Lays the payload of a place at the front of the output, and gives its length.
#[tactic(auto, using(crate::proofs::Places::front_part))]
pub fn put_payload(payloads: &[u8], at: usize, size: u8, out: &mut [u8]) -> usize
    requires { Lies at payloads.now × (size ≤ payload_most) × (longest_packet ≤ length out.old) }
    ensures { Laid (take size (part_of payloads.now at)) result out.old out.new }
{
    let base = at * Group::PAYLOAD;
    message::copy(&payloads[base..base + (size as usize)], out);
    size as usize
}

// The smaller of a poll's top and the last number that a place is for.
#[tactic(auto, using(group::proofs::Choice::choices), unfolding(crate::specs::Places::smaller_of))]
pub fn reach(top: SequenceNumber, taken: SequenceNumber) -> SequenceNumber
    ensures { result.0 ≡ smaller_of top.0 (taken.0 + held_most) }
{
    top.min(SequenceNumber(taken.0.saturating_add(Group::HELD as u32)))
}

// The last number through which nothing above the last taken is missing, by the counts of the places.
#[tactic(auto, using(group::proofs::Choice::choices), unfolding(crate::specs::Steps::row_counted, crate::specs::Steps::first_uncounted))]
pub fn row_end(counts: &[u32], taken: SequenceNumber) -> SequenceNumber
    requires { length counts.now ≡ held_most }
    ensures { result.0 ≡ row_counted counts.now taken.0 (smaller_of largest_number (taken.0 + held_most)) }
{
    let last = reach(SequenceNumber(Group::LARGEST), taken);
    match lowest_missing(counts, taken, last) {
        Some(first) => SequenceNumber(first.0 - 1),
        None => last,
    }
}

// The larger of two numbers.
#[tactic(auto, using(group::proofs::Choice::choices), unfolding(crate::specs::Places::larger_of))]
pub fn later(a: SequenceNumber, b: SequenceNumber) -> SequenceNumber
    ensures { result.0 ≡ larger_of a.0 b.0 }
{
    a.max(b)
}

// The smaller of two numbers.
#[tactic(auto, using(group::proofs::Choice::choices), unfolding(crate::specs::Places::smaller_of))]
pub fn earlier(a: SequenceNumber, b: SequenceNumber) -> SequenceNumber
    ensures { result.0 ≡ smaller_of a.0 b.0 }
{
    a.min(b)
}

// Whether the number behind `previous` may be taken: its place has a count, and it is accepted.
#[tactic(auto, using(group::proofs::Choice::choices))]
pub fn ready(count: u32, previous: SequenceNumber, accepted: SequenceNumber) -> bool
    ensures { result ≡ (0 <? count and previous.0 + 1 ≤? accepted.0) }
{
    count != 0 && previous < accepted
}

// Whether that count of that originator is the first that waits, of the member of that number after so many submissions.
#[tactic(auto, using(group::proofs::Choice::choices))]
pub fn own(
    number: MemberNumber,
    submitted: u32,
    waiting: u32,
    originator: MemberNumber,
    count: u32,
) -> bool
    requires { waiting ≤ submitted }
    ensures { result ≡ (1 ≤? waiting and originator.0 =? number.0 and count =? submitted - waiting + 1) }
{
    1 <= waiting && originator == number && count == submitted - waiting + 1
}
