// The table of acknowledgements and the places of the history: when they are sound, what noting does to them, and what is asked of them.
#![tactic(auto)]

ghost use Rattle.std.specs.Prelude.{true, [], ◌≡◌, ◌-◌, ◌<◌, ◌≤◌, length, get_or, set};
ghost use Rattle.std.specs.Int.Count.{ones};
ghost use Rattle.group.specs.Choice.{when◌then◌else◌, ◌and◌, ◌<?◌, ◌≤?◌, ◌=?◌};
ghost use Rattle.group.specs.Fold.{all, all_above};
ghost use Rattle.group.specs.Limits.{members_most, places_most, payload_most, largest_number};
ghost use Rattle.group.specs.Members.{is_in, is_within, expected_of};
ghost use Rattle.message.specs.Message.{message_of, is_empty};
ghost use Rattle.store.specs.Places.{message_in, messages_in, part_of, mask_of, Lies};
ghost use Rattle.history.specs.State.{place_of, message_at, floor_of};
ghost use Rattle.history.specs.Sound.{entry_sound, kept_sound, place_sound, frame_sound};
ghost use Rattle.history.specs.Marks.{marked_of, enough_of, unmarked_of, mark_sound};
ghost use Rattle.history.specs.Note.{larger_of, cleared_of};
ghost use Rattle.history.specs.State.{numbered};
ghost use Rattle.history.specs.Repeat.{one_more, repeats_of, is_of, find_of};
ghost use Rattle.history.specs.Ask.{sender_verdict, count_verdict, wanted_verdict, expected_verdict, request_verdict, gap_verdict, confirm_verdict, content_verdict, packet_verdict, sender_of};
ghost use Rattle.history.specs.View.{Entries, Places, entry_in, table_in, taken_only, counts_only, repeats_only, listed};

use group::{Group, MemberNumber, Refusal, SequenceNumber};
use packet::Packet;

// Who sent a packet, and the number that it acknowledges.
#[derive(Clone, Copy, Debug, PartialEq, Eq)]
pub struct Sender {
    pub member: MemberNumber,
    pub taken: SequenceNumber,
}

// The message numbered s lies in place s modulo 32.
pub fn place(number: u64) -> usize
    ensures { result ≡ place_of number }
{
    (number as usize) % Group::PLACES
}

// Floor is the smallest of the survivors' acknowledgements.
pub fn smallest(survivors: u16, taken: [u32; Group::MEMBERS]) -> SequenceNumber
    ensures { result.0 ≡ floor_of survivors (taken_only taken) }
{
    let mut low = Group::LARGEST;
    for i in 0..Group::MEMBERS {
        low = smaller(survivors, i, taken[i], low);
    }
    SequenceNumber(low)
}

// The smaller of a survivor's number and the smallest so far; another's counts for nothing.
#[tactic(auto, using(group::proofs::Choice::choices))]
fn smaller(survivors: u16, i: usize, a: u32, b: u32) -> u32
    requires { i < members_most }
    ensures { result ≡ (when is_in survivors i and a <? b then a else b) }
{
    if survives(survivors, i) && a < b {
        a
    } else {
        b
    }
}

// Whether the member of an entry is a survivor.
fn survives(survivors: u16, i: usize) -> bool
    requires { i < members_most }
    ensures { result ≡ is_in survivors i }
{
    group::is_in(survivors, MemberNumber(i as u8))
}

// Whether a survivor's entry is at most top, and another's zero but for a lost member's last count.
#[tactic(auto, using(group::proofs::Choice::choices), unfolding(crate::specs::Sound::entry_sound))]
fn entry_sound(
    group: Group,
    top: SequenceNumber,
    i: usize,
    taken: u32,
    count: u32,
    repeats: u32,
) -> bool
    requires { i < members_most }
    ensures { result ≡ entry_sound group top.0 i (entry_in taken count repeats) }
{
    if survives(group.survivors, i) {
        taken <= top.0
    } else {
        taken == 0 && repeats == 0 && (i < (group.n as usize) || count == 0)
    }
}

pub fn entries_sound(
    group: Group,
    top: SequenceNumber,
    taken: &[u32],
    counts: &[u32],
    repeats: &[u32],
) -> bool
    requires { Entries taken.now counts.now repeats.now }
    ensures { result ≡ all (entry_sound group top.0) 0 (table_in taken.now counts.now repeats.now) }
{
    for i in 0..Group::MEMBERS {
        if !entry_sound(group, top, i, taken[i], counts[i], repeats[i]) {
            return false;
        }
    }
    true
}

// Whether a place holds a message: its numbers are those of one, and every byte behind its payload is zero.
fn kept_sound(
    n: u8,
    counts: &[u32],
    count: u32,
    originator: u8,
    size: u8,
    payloads: &[u8],
    mask: &[u8],
    at: usize,
) -> bool
    requires { (n ≤ members_most) × Lies at payloads.now × (mask.now ≡ mask_of) × (length counts.now ≡ members_most) }
    ensures { result ≡ kept_sound n (counts_only counts.now) (message_in count originator size (part_of payloads.now at)) }
{
    originator < n
        && 1 <= count
        && count <= counts[originator as usize]
        && (size as usize) <= Group::PAYLOAD
        && store::zero_from(payloads, mask, at, size)
}

// Whether what lies in a number's place is a message where the number is at most top, and else is empty.
#[tactic(auto, using(group::proofs::Choice::choices))]
fn place_sound(
    n: u8,
    counts: &[u32],
    top: SequenceNumber,
    number: u64,
    count: u32,
    originator: u8,
    size: u8,
    payloads: &[u8],
    mask: &[u8],
    at: usize,
) -> bool
    requires { (n ≤ members_most) × Lies at payloads.now × (mask.now ≡ mask_of) × (length counts.now ≡ members_most) }
    ensures { result ≡ (when number ≤? top.0 then kept_sound n (counts_only counts.now) (message_in count originator size (part_of payloads.now at)) else is_empty (message_in count originator size (part_of payloads.now at))) }
{
    if number <= (top.0 as u64) {
        kept_sound(n, counts, count, originator, size, payloads, mask, at)
    } else {
        store::is_empty(count, originator, size, payloads, mask, at)
    }
}

// Whether the history is exactly floor + 1 to top.
pub fn history_sound(
    n: u8,
    floor: SequenceNumber,
    top: SequenceNumber,
    counts: &[u32],
    kept: &[u32],
    originators: &[u8],
    lengths: &[u8],
    payloads: &[u8],
) -> bool
    requires { (n ≤ members_most) × (length counts.now ≡ members_most) × Places kept.now originators.now lengths.now payloads.now }
    ensures { result ≡ all_above (place_sound n (counts_only counts.now) (messages_in kept.now originators.now lengths.now payloads.now) top.0) floor.0 places_most }
{
    let mask = store::mask();
    for i in 0..Group::PLACES {
        let number = (floor.0 as u64) + (i as u64) + 1;
        let at = place(number);
        if !place_sound(
            n,
            counts,
            top,
            number,
            kept[at],
            originators[at],
            lengths[at],
            payloads,
            &mask,
            at,
        ) {
            return false;
        }
    }
    true
}

// Is the group sound, is floor the smallest of the survivors' acknowledgements, and does the last accepted number lie from floor to top, which
// have at most the history's places between them?
#[tactic(auto, using(group::proofs::Choice::choices), unfolding(crate::specs::Sound::frame_sound))]
pub fn frame_sound(
    group: Group,
    floor: SequenceNumber,
    accepted: SequenceNumber,
    top: SequenceNumber,
    taken: &[u32; Group::MEMBERS],
) -> bool
    ensures { result ≡ frame_sound group (taken_only taken.now) floor.0 accepted.0 top.0 }
{
    group.sound()
        && smallest(group.survivors, *taken) == floor
        && floor <= accepted
        && accepted <= top
        && kept(floor, top) <= Group::PLACES
}

// Whether the mark of a number has expected members' bits only, where the number is above the last accepted, up to top, and else is zero.
#[tactic(auto, using(group::proofs::Choice::choices))]
fn mark_sound(
    expected: u16,
    accepted: SequenceNumber,
    top: SequenceNumber,
    number: u64,
    mark: u16,
) -> bool
    ensures { result ≡ (when accepted.0 <? number and number ≤? top.0 then is_within mark expected else mark =? 0) }
{
    if (accepted.0 as u64) < number && number <= (top.0 as u64) {
        group::is_within(mark, expected)
    } else {
        mark == 0
    }
}

// Whether the marks of the 32 numbers above floor are sound.
pub fn marks_sound(
    expected: u16,
    floor: SequenceNumber,
    accepted: SequenceNumber,
    top: SequenceNumber,
    marks: &[u16],
) -> bool
    requires { length marks.now ≡ places_most }
    ensures { result ≡ all_above (mark_sound expected marks.now accepted.0 top.0) floor.0 places_most }
{
    for i in 0..Group::PLACES {
        let number = (floor.0 as u64) + (i as u64) + 1;
        if !mark_sound(expected, accepted, top, number, marks[place(number)]) {
            return false;
        }
    }
    true
}

// Marks that a member confirmed the numbers above one, up to another.
pub fn mark(marks: &mut [u16], member: MemberNumber, from: SequenceNumber, to: SequenceNumber)
    requires { (length marks.old ≡ places_most) × (member.0 < members_most) }
    ensures { marks.new ≡ marked_of marks.old member from.0 (to.0 - from.0) }
{
    let bit = group::only(member);
    for number in from.0..to.0 {
        marks[place((number as u64) + 1)] |= bit;
    }
}

// The highest number above one, up to another, with at least so many marks, if there is one.
pub fn enough(
    marks: &[u16],
    needed: u32,
    from: SequenceNumber,
    to: SequenceNumber,
) -> Option<SequenceNumber>
    requires { length marks.now ≡ places_most }
    ensures { result ≡ numbered (enough_of marks.now needed from.0 (to.0 - from.0)) }
{
    for below in (from.0..to.0).rev() {
        let number = below + 1;
        if needed <= marks[place(number as u64)].count_ones() {
            return Some(SequenceNumber(number));
        }
    }
    None
}

// Clears the marks of the numbers above one, up to another.
pub fn unmark(marks: &mut [u16], from: SequenceNumber, to: SequenceNumber)
    requires { length marks.old ≡ places_most }
    ensures { marks.new ≡ unmarked_of marks.old from.0 (to.0 - from.0) }
{
    for number in from.0..to.0 {
        marks[place((number as u64) + 1)] = 0;
    }
}

// Notes an acknowledgement: the sender's number becomes the larger of old and new. The result is the new floor.
#[tactic(auto, using(crate::proofs::Noting::larger_max))]
pub fn note(
    survivors: u16,
    taken: &mut [u32; Group::MEMBERS],
    sender: MemberNumber,
    number: SequenceNumber,
) -> SequenceNumber
    requires { sender.0 < members_most }
    ensures noted { taken.new ≡ set taken.old sender.0 (larger_of (get_or taken.old sender.0 0) number.0) }
    ensures floor { result.0 ≡ floor_of survivors (taken_only taken.new) }
{
    let at = sender.0 as usize;
    taken[at] = taken[at].max(number.0);
    smallest(survivors, *taken)
}

// Clears the places of the numbers that the floor passes.
pub fn clear(
    was: SequenceNumber,
    floor: SequenceNumber,
    kept: &mut [u32],
    originators: &mut [u8],
    lengths: &mut [u8],
    payloads: &mut [u8],
)
    requires { Places kept.old originators.old lengths.old payloads.old }
    ensures { messages_in kept.new originators.new lengths.new payloads.new ≡ cleared_of (messages_in kept.old originators.old lengths.old payloads.old) was.0 (floor.0 - was.0) }
{
    for number in was.0..floor.0 {
        let at = place((number as u64) + 1);
        kept[at] = 0;
        originators[at] = 0;
        lengths[at] = 0;
        store::clear(payloads, at);
    }
}

// Lays the message that gets a number above top into its place; a number up to top has its own there.
pub fn lay(
    number: SequenceNumber,
    top: SequenceNumber,
    kept: &mut [u32],
    originators: &mut [u8],
    lengths: &mut [u8],
    payloads: &mut [u8],
    sender: MemberNumber,
    count: u32,
    payload: &[u8],
)
    requires { (length payload.now ≤ payload_most) × Places kept.old originators.old lengths.old payloads.old }
    ensures { messages_in kept.new originators.new lengths.new payloads.new ≡ set (messages_in kept.old originators.old lengths.old payloads.old) (place_of number.0) (when number.0 ≤? top.0 then message_at (messages_in kept.old originators.old lengths.old payloads.old) number.0 else message_of sender count payload.now) }
{
    if number <= top {
        return;
    }
    let at = place(number.0 as u64);
    kept[at] = count;
    originators[at] = sender.0;
    lengths[at] = payload.len() as u8;
    store::keep(payloads, at, payload);
}

// The highest number above floor whose message has that originator and count, if there is one.
pub fn find(
    kept: &[u32],
    originators: &[u8],
    sender: MemberNumber,
    count: u32,
    floor: SequenceNumber,
    top: SequenceNumber,
) -> Option<SequenceNumber>
    requires { (length kept.now ≡ places_most) × (length originators.now ≡ places_most) }
    ensures { result ≡ numbered (find_of (listed kept.now originators.now) sender count floor.0 (top.0 - floor.0)) }
{
    for below in (floor.0..top.0).rev() {
        let number = below + 1;
        let at = place(number as u64);
        if is_of(sender, count, kept[at], originators[at]) {
            return Some(SequenceNumber(number));
        }
    }
    None
}

// Is the message of a place that of an originator and a count?
#[tactic(auto, using(group::proofs::Choice::choices), unfolding(crate::specs::Repeat::is_of))]
fn is_of(sender: MemberNumber, count: u32, kept: u32, originator: u8) -> bool
    ensures { result ≡ is_of sender count (message_in kept originator 0 []) }
{
    originator == sender.0 && kept == count
}

// How many numbers the history holds.
pub fn kept(floor: SequenceNumber, top: SequenceNumber) -> usize
    ensures { result ≡ top.0 - floor.0 }
{
    top.0.saturating_sub(floor.0) as usize
}

#[tactic(auto, using(group::proofs::Choice::choices), unfolding(crate::specs::Repeat::one_more))]
pub fn one_more(repeats: u32) -> u32
    ensures { result ≡ one_more repeats }
{
    repeats.saturating_add(1)
}

// The repeats of all members, held at the largest number.
pub fn repeats(repeats: &[u32]) -> u32
    requires { length repeats.now ≡ members_most }
    ensures { result ≡ repeats_of (repeats_only repeats.now) }
{
    let mut sum: u64 = 0;
    for count in repeats {
        sum += *count as u64;
    }
    sum.min(Group::LARGEST as u64) as u32
}

// Questions 9 and 10 of a sender, which is a survivor, and its number A, which is at most `most`.
#[tactic(auto, using(group::proofs::Choice::choices), unfolding(crate::specs::Ask::sender_verdict))]
fn ask_sender(
    survivors: u16,
    most: SequenceNumber,
    sender: MemberNumber,
    a: SequenceNumber,
) -> Result<(), Refusal>
    ensures { result ≡ sender_verdict survivors most.0 sender a }
{
    if !group::is_in(survivors, sender) {
        return Err(Refusal::UnknownMember);
    }
    if most < a {
        return Err(Refusal::AcknowledgedAhead);
    }
    Ok(())
}

// Questions 11 and 16 of a request's count.
#[tactic(auto, using(group::proofs::Choice::choices), unfolding(crate::specs::Ask::count_verdict))]
fn ask_count(last: u32, top: SequenceNumber, count: u32) -> Result<(), Refusal>
    ensures { result ≡ count_verdict last top.0 count }
{
    if (last as u64) + 1 < (count as u64) {
        return Err(Refusal::CountAhead);
    }
    if last < count && Group::LARGEST <= top.0 {
        return Err(Refusal::NumbersUsedUp);
    }
    Ok(())
}

// Question 12 of a gap.
#[tactic(auto, using(group::proofs::Choice::choices), unfolding(crate::specs::Ask::wanted_verdict))]
fn ask_wanted(top: SequenceNumber, last: SequenceNumber) -> Result<(), Refusal>
    ensures { result ≡ wanted_verdict top.0 last }
{
    if top < last {
        return Err(Refusal::WantedAhead);
    }
    Ok(())
}

// Questions 9 to 11, and 16, of a request.
#[tactic(auto, using(group::proofs::Choice::choices), unfolding(crate::specs::Ask::request_verdict, group::specs::Question::judged))]
fn ask_request(
    survivors: u16,
    counts: &[u32],
    accepted: SequenceNumber,
    top: SequenceNumber,
    sender: MemberNumber,
    taken: SequenceNumber,
    count: u32,
) -> Result<(), Refusal>
    requires { length counts.now ≡ members_most }
    ensures { result ≡ request_verdict survivors (counts_only counts.now) accepted.0 top.0 sender taken count }
{
    ask_sender(survivors, accepted, sender, taken)?;
    ask_count(counts[sender.0 as usize], top, count)
}

// Questions 9, 10 and 12 of a gap.
#[tactic(auto, using(group::proofs::Choice::choices), unfolding(crate::specs::Ask::gap_verdict, group::specs::Question::judged))]
fn ask_gap(
    survivors: u16,
    accepted: SequenceNumber,
    top: SequenceNumber,
    sender: MemberNumber,
    taken: SequenceNumber,
    last: SequenceNumber,
) -> Result<(), Refusal>
    ensures { result ≡ gap_verdict survivors accepted.0 top.0 sender taken last }
{
    ask_sender(survivors, accepted, sender, taken)?;
    ask_wanted(top, last)
}

// Question 25 of a confirmation: its number is accepted, or its sender is expected.
#[tactic(auto, using(group::proofs::Choice::choices), unfolding(crate::specs::Ask::expected_verdict))]
fn ask_expected(
    group: Group,
    accepted: SequenceNumber,
    sender: MemberNumber,
    number: SequenceNumber,
) -> Result<(), Refusal>
    ensures { result ≡ expected_verdict group accepted.0 sender number }
{
    if number <= accepted || group.expects(sender) {
        Ok(())
    } else {
        Err(Refusal::NotExpected)
    }
}

// Questions 9, 10 and 25 of a confirmation.
#[tactic(auto, using(group::proofs::Choice::choices), unfolding(crate::specs::Ask::confirm_verdict, group::specs::Question::judged))]
fn ask_confirm(
    group: Group,
    accepted: SequenceNumber,
    top: SequenceNumber,
    sender: MemberNumber,
    number: SequenceNumber,
) -> Result<(), Refusal>
    ensures { result ≡ confirm_verdict group accepted.0 top.0 sender number }
{
    ask_sender(group.survivors, top, sender, number)?;
    ask_expected(group, accepted, sender, number)
}

// Questions 8 to 12, 25, and 16, of what a packet says: kinds 1, 3, 4 and 7 are for this end.
#[tactic(auto, unfolding(crate::specs::Ask::content_verdict))]
fn ask_content(
    group: Group,
    counts: &[u32],
    accepted: SequenceNumber,
    top: SequenceNumber,
    packet: Packet,
) -> Result<(), Refusal>
    requires { length counts.now ≡ members_most }
    ensures { result ≡ content_verdict group (counts_only counts.now) accepted.0 top.0 packet }
{
    let survivors = group.survivors;
    match packet {
        Packet::Request {
            sender,
            taken,
            count,
        } => ask_request(survivors, counts, accepted, top, sender, taken, count),
        Packet::Gap {
            sender,
            taken,
            last,
            ..
        } => ask_gap(survivors, accepted, top, sender, taken, last),
        Packet::Status { sender, taken } => ask_sender(survivors, accepted, sender, taken),
        Packet::Confirm { sender, number } => ask_confirm(group, accepted, top, sender, number),
        _ => Err(Refusal::OtherEnd),
    }
}

// Question 6 at this end, that the elected member sent what only that one may; then 7 to 12, 25, and 16, of a packet from the group of a
// number.
#[tactic(auto, using(group::proofs::Choice::choices), unfolding(crate::specs::Ask::packet_verdict))]
pub fn ask_packet(
    group: Group,
    counts: &[u32],
    accepted: SequenceNumber,
    top: SequenceNumber,
    number: u32,
    packet: Packet,
) -> Result<(), Refusal>
    requires { length counts.now ≡ members_most }
    ensures { result ≡ packet_verdict group (counts_only counts.now) accepted.0 top.0 number packet }
{
    if !packet.from_elected(group) {
        return Err(Refusal::ForbiddenFields);
    }
    if number != group.number {
        return Err(Refusal::OtherGroup);
    }
    ask_content(group, counts, accepted, top, packet)
}

// The sender of a packet for the sequencer, and the number that it acknowledges; a confirmation acknowledges nothing.
// kept: of a packet for another end it gives member 0, by `sender_of` of specs/, which says so of each kind.
#[tactic(auto, unfolding(crate::specs::Ask::sender_of))]
pub fn sender_of(packet: Packet) -> Sender
    ensures { result ≡ sender_of packet }
{
    match packet {
        Packet::Request { sender, taken, .. }
        | Packet::Gap { sender, taken, .. }
        | Packet::Status { sender, taken } => Sender {
            member: sender,
            taken,
        },
        Packet::Confirm { sender, .. } => Sender {
            member: sender,
            taken: SequenceNumber(0),
        },
        _ => Sender {
            member: MemberNumber(0),
            taken: SequenceNumber(0),
        },
    }
}
