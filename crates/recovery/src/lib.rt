// A terminal: a member, what it keeps to begin a group with, its part in a reset, and maybe a sequencer.
// The work of each call is lent its state in parts: the numbers of its head by value, and all arrays.
#![tactic(auto)]

ghost use Rattle.std.specs.Prelude.{◌≡◌, true, ◌+◌, ◌-◌, ◌*◌, ◌^◌, ◌≤◌, ◌<◌, length, get_or, set, replicate};
ghost use Rattle.group.specs.Choice.{when◌then◌else◌, ◌and◌, ◌<?◌, ◌≤?◌, ◌=?◌};
ghost use Rattle.group.specs.Limits.{members_most, places_most, held_most, payload_most};
ghost use Rattle.group.specs.Members.{is_in, is_within, all_of, lowest};
ghost use Rattle.message.specs.Message.{empty_message};
ghost use Rattle.store.specs.Places.{messages_in, message_in, part_of, Lies};
ghost use Rattle.history.specs.State.{place_of};
ghost use Rattle.history.specs.View.{Places, listed};
ghost use Rattle.window.specs.Places.{larger_of};
ghost use Rattle.member.specs.Steps.{empty_handed};
ghost use Rattle.sequencer.specs.View as sequencer;
ghost use Rattle.recovery.specs.Begin.{highest_of, holders_of, dropped_of};
ghost use Rattle.recovery.specs.Sound.{kept_sound, reset_sound, zero_sequencer};
ghost use Rattle.recovery.specs.State.{counted_row};
ghost use Rattle.recovery.specs.Steps.{highest_sound, replies_sound, idle_sound, invitation_sound, group_zero, beside_sound, reach_in, serves_in, reply_in, kept_floor_in, reply_sound_in, starts_of, message_from, filled_of, Held};
ghost use Rattle.recovery.specs.View.{kept_in, reset_in, flags_sound};

use group::{Group, MemberNumber, SequenceNumber};

// The numbers of a terminal, its member's and its sequencer's among them: the highest floor that its member read; whether a reply is open
// (1: yes, 0: no), to which attempt, with which number; whether its own invitation is open, with which number, and whose replies came, one
// bit a member; whether it has a sequencer, and whether that is frozen.
#[repr(C)]
#[derive(Clone, Copy)]
pub struct Head {
    pub member: member::Head,
    pub sequencer: sequencer::Head,
    pub read: SequenceNumber,
    pub attempt: u32,
    pub number: SequenceNumber,
    pub invited: u32,
    pub repliers: u16,
    // kept: the C interface shows the four flags as bytes, 0 or 1.
    pub replied: u8,
    pub inviting: u8,
    pub sequencing: u8,
    pub frozen: u8,
}

// Whether each flag is 0 or 1.
#[tactic(auto, using(group::proofs::Choice::choices), unfolding(crate::specs::View::flags_sound))]
pub fn flags_sound(head: Head) -> bool
    ensures { result ≡ flags_sound head }
{
    head.replied <= 1 && head.inviting <= 1 && head.sequencing <= 1 && head.frozen <= 1
}

// Whether a count is zero where the group has no such member.
#[tactic(auto, using(group::proofs::Choice::choices))]
fn count_sound(n: u8, i: usize, count: u32) -> bool
    ensures { result ≡ (when i <? n then true else count =? 0) }
{
    i < (n as usize) || count == 0
}

// Whether the counts of those who are no members are zero.
// kept: `replies_sound` differs in its test; one form of both would take it as a closure, in more lines.
#[tactic(auto, using(group::proofs::Fold::all_on, group::proofs::Fold::all_off, group::proofs::Fold::all_done))]
fn highest_sound(n: u8, highest: &[u32]) -> bool
    requires { length highest.now ≡ members_most }
    ensures { result ≡ highest_sound n highest.now }
{
    for i in 0..Group::MEMBERS {
        if !count_sound(n, i, highest[i]) {
            return false;
        }
    }
    true
}

// The number 32 below one; 0 where there is none.
fn behind(number: SequenceNumber) -> SequenceNumber
    ensures { result.0 ≡ number.0 - places_most }
{
    SequenceNumber(number.0.saturating_sub(Group::PLACES as u32))
}

// Whether the last messages taken lie in their places, each with a count of at most its originator's highest, and nothing else is there.
#[tactic(auto, using(group::proofs::Choice::choices), unfolding(crate::specs::Sound::kept_sound))]
fn kept_sound(
    head: Head,
    past: &[u32],
    past_originators: &[u8],
    past_lengths: &[u8],
    past_payloads: &[u8],
    highest: &[u32],
) -> bool
    requires { (head.member.group.n ≤ members_most) × Places past.now past_originators.now past_lengths.now past_payloads.now × (length highest.now ≡ members_most) }
    ensures { result ≡ kept_sound head.member.group.n head.member.taken.0 (kept_in head past.now past_originators.now past_lengths.now past_payloads.now highest.now) }
{
    let n = head.member.group.n;
    let taken = head.member.taken;
    highest_sound(n, highest)
        && history::history_sound(
            n,
            behind(taken),
            taken,
            highest,
            past,
            past_originators,
            past_lengths,
            past_payloads,
        )
}

// Whether the number of who did not reply is zero.
#[tactic(auto, using(group::proofs::Choice::choices))]
fn reply_silent(repliers: u16, i: usize, number: u32) -> bool
    requires { i < members_most }
    ensures { result ≡ (when is_in repliers i then true else number =? 0) }
{
    group::is_in(repliers, MemberNumber(i as u8)) || number == 0
}

#[tactic(auto, using(group::proofs::Fold::all_on, group::proofs::Fold::all_off, group::proofs::Fold::all_done))]
fn replies_sound(repliers: u16, replies: &[u32]) -> bool
    requires { length replies.now ≡ members_most }
    ensures { result ≡ replies_sound repliers replies.now }
{
    for i in 0..Group::MEMBERS {
        if !reply_silent(repliers, i, replies[i]) {
            return false;
        }
    }
    true
}

// The number that a member replied with; 0 of who is none.
fn reply_of(replies: &[u32], member: MemberNumber) -> u32
    requires { length replies.now ≡ members_most }
    ensures { result ≡ get_or replies.now member.0 0 }
{
    let at = member.0 as usize;
    if at < Group::MEMBERS { replies[at] } else { 0 }
}

// Whether nothing is left of a reply that is not open.
#[tactic(auto, using(group::proofs::Choice::choices), unfolding(crate::specs::Steps::idle_sound))]
fn idle_sound(head: Head) -> bool
    ensures { result ≡ idle_sound head }
{
    head.replied == 1 || (head.attempt == 0 && head.number.0 == 0)
}

// All of n members.
fn members(n: u8) -> u16
    requires { n ≤ members_most }
    ensures { result ≡ all_of n }
{
    let all = (1u32 << (n as u32)) - 1;
    all as u16
}

// Whether all of a mask are members of a group of n.
pub fn are_members(mask: u16, n: u8) -> bool
    requires { n ≤ members_most }
    ensures { result ≡ is_within mask (all_of n) }
{
    group::is_within(mask, members(n))
}

// Whether an open invitation has its own reply among those of members; and nothing is left of one that is not open.
#[tactic(auto, using(group::proofs::Choice::choices), unfolding(crate::specs::Steps::invitation_sound))]
fn invitation_sound(head: Head, replies: &[u32]) -> bool
    requires { (head.member.group.n ≤ members_most) × (length replies.now ≡ members_most) }
    ensures { result ≡ invitation_sound head replies.now }
{
    if head.inviting == 1 {
        let own = head.member.number;
        head.replied == 1
            && group::is_in(head.repliers, own)
            && reply_of(replies, own) == head.number.0
            && are_members(head.repliers, head.member.group.n)
    } else {
        head.invited == 0 && head.repliers == 0
    }
}

// Whether the terminal's part in a reset is sound.
#[tactic(auto, using(group::proofs::Choice::choices), unfolding(crate::specs::Sound::reset_sound, crate::specs::Steps::idle_sound, crate::specs::Steps::invitation_sound))]
fn reset_sound(head: Head, replies: &[u32]) -> bool
    requires { (head.member.group.n ≤ members_most) × (length replies.now ≡ members_most) }
    ensures { result ≡ reset_sound (empty_handed head.member) (reset_in head replies.now) }
{
    idle_sound(head) && invitation_sound(head, replies) && replies_sound(head.repliers, replies)
}

// Question 1 of the member's end beside the member: flags, what it keeps, and its part in a reset.
#[tactic(auto, using(group::proofs::Choice::choices), unfolding(crate::specs::Steps::beside_sound))]
pub fn beside_sound(
    head: Head,
    past: &[u32],
    past_originators: &[u8],
    past_lengths: &[u8],
    past_payloads: &[u8],
    highest: &[u32],
    replies: &[u32],
) -> bool
    requires { Places past.now past_originators.now past_lengths.now past_payloads.now × (length highest.now ≡ members_most) × (length replies.now ≡ members_most) }
    ensures { result ≡ beside_sound head (kept_in head past.now past_originators.now past_lengths.now past_payloads.now highest.now) replies.now }
{
    flags_sound(head)
        && (head.member.group.n as usize) <= Group::MEMBERS
        && kept_sound(
            head,
            past,
            past_originators,
            past_lengths,
            past_payloads,
            highest,
        )
        && reset_sound(head, replies)
}

// Whether all numbers of a group's description are zero.
#[tactic(auto, using(group::proofs::Choice::choices), unfolding(crate::specs::Steps::group_zero))]
fn group_zero(group: Group) -> bool
    ensures { result ≡ group_zero group }
{
    group.n == 0
        && group.resilience == 0
        && group.survivors == 0
        && group.elected.0 == 0
        && group.number == 0
}

// Whether a sequencer that is not there is all zero.
pub fn no_sequencer(
    head: sequencer::Head,
    taken: &[u32; Group::MEMBERS],
    counts: &[u32],
    repeats: &[u32],
    kept: &[u32],
    marks: &[u16],
    originators: &[u8],
    lengths: &[u8],
    payloads: &[u8],
) -> bool
    requires { sequencer.Placed (sequencer.whole head taken.now counts.now repeats.now kept.now marks.now originators.now lengths.now payloads.now) }
    ensures { result ≡ zero_sequencer (sequencer.view_of (sequencer.whole head taken.now counts.now repeats.now kept.now marks.now originators.now lengths.now payloads.now)) }
{
    let zero = SequenceNumber(0);
    let none = Group {
        n: 0,
        resilience: 0,
        survivors: 0,
        elected: MemberNumber(0),
        number: 0,
    };
    group_zero(head.group)
        && head.top == zero
        && head.accepted == zero
        && head.floor == zero
        && history::entries_sound(none, zero, taken, counts, repeats)
        && history::history_sound(0, zero, zero, counts, kept, originators, lengths, payloads)
        && history::marks_sound(0, zero, zero, zero, marks)
}

// Whether its sequencer is its member's group's.
#[tactic(auto, using(group::proofs::Choice::choices))]
pub fn serves(head: Head) -> bool
    ensures { result ≡ serves_in head }
{
    head.sequencing == 1 && head.sequencer.group.number == head.member.group.number
}

// What it replies to an invitation with: its group's sequencer with top, else its member with its reach.
#[tactic(auto, using(group::proofs::Choice::choices), unfolding(crate::specs::Steps::reply_in))]
pub fn reply_number(head: Head, held: &[u32]) -> SequenceNumber
    requires { length held.now ≡ held_most }
    ensures { result.0 ≡ reply_in head held.now }
{
    if serves(head) {
        head.sequencer.top
    } else {
        window::row_end(held, head.member.taken)
    }
}

// The member's floor: the highest it read, but at least its reach less 32, and at most its reach.
#[tactic(auto, using(crate::proofs::Turning::floor_is), unfolding(crate::specs::Steps::kept_floor_in))]
pub fn kept_floor(head: Head, held: &[u32]) -> SequenceNumber
    requires { length held.now ≡ held_most }
    ensures { result.0 ≡ kept_floor_in head held.now }
{
    let reach = window::row_end(held, head.member.taken);
    let floor = window::later(head.read, behind(reach));
    window::earlier(floor, reach)
}

// Whether with a reply open its number is what it would reply now, and its group's sequencer is frozen.
#[tactic(auto, using(group::proofs::Choice::choices), unfolding(crate::specs::Steps::reply_sound_in))]
pub fn reply_sound(head: Head, held: &[u32]) -> bool
    requires { length held.now ≡ held_most }
    ensures { result ≡ reply_sound_in head held.now }
{
    head.replied != 1
        || (head.number == reply_number(head, held) && (!serves(head) || head.frozen == 1))
}

// A replier's number; of another, 0.
#[tactic(auto, using(group::proofs::Choice::choices))]
fn reply_counted(repliers: u16, i: usize, number: u32) -> u32
    requires { i < members_most }
    ensures { result ≡ (when is_in repliers i then number else 0) }
{
    if group::is_in(repliers, MemberNumber(i as u8)) {
        number
    } else {
        0
    }
}

// The highest number of those that replied.
#[tactic(auto, using(crate::proofs::Turning::highest_turn, crate::proofs::Turning::highest_end, crate::proofs::Turning::larger_max))]
pub fn highest_reply(repliers: u16, replies: &[u32]) -> SequenceNumber
    requires { length replies.now ≡ members_most }
    ensures { result.0 ≡ highest_of repliers 0 replies.now }
{
    let mut most: u32 = 0;
    for i in (0..Group::MEMBERS).rev() {
        most = reply_counted(repliers, i, replies[i]).max(most);
    }
    SequenceNumber(most)
}

// The mask of member i, if it replied with that number; else none.
#[tactic(auto, using(group::proofs::Choice::choices, group::proofs::Choice::tests))]
fn holder(repliers: u16, highest: SequenceNumber, i: usize, number: u32) -> u16
    requires { i < members_most }
    ensures { result ≡ (when is_in repliers i and number =? highest.0 then 2 ^ i else 0) }
{
    if group::is_in(repliers, MemberNumber(i as u8)) && number == highest.0 {
        1u16 << (i as u32)
    } else {
        0
    }
}

// Those that replied with a number.
#[tactic(auto, using(crate::proofs::Turning::holders_turn, crate::proofs::Turning::holders_end))]
fn holders(repliers: u16, highest: SequenceNumber, replies: &[u32]) -> u16
    requires { length replies.now ≡ members_most }
    ensures { result ≡ holders_of repliers highest.0 0 replies.now }
{
    let mut found: u16 = 0;
    for i in (0..Group::MEMBERS).rev() {
        found |= holder(repliers, highest, i, replies[i]);
    }
    found
}

// The lowest member number among those that replied with a number.
pub fn lowest_holder(repliers: u16, highest: SequenceNumber, replies: &[u32]) -> MemberNumber
    requires { length replies.now ≡ members_most }
    ensures { result.0 ≡ lowest (holders_of repliers highest.0 0 replies.now) }
{
    let found = holders(repliers, highest, replies);
    MemberNumber(found.trailing_zeros() as u8)
}

// A message's count counts for its originator, if it is higher than what counts already.
#[tactic(auto, using(crate::proofs::Turning::larger_max))]
pub fn count_one(counts: &mut [u32], originator: u8, count: u32)
    requires { length counts.old ≡ members_most }
    ensures { counts.new ≡ set counts.old originator (larger_of (get_or counts.old originator 0) count) }
{
    let at = originator as usize;
    if at < Group::MEMBERS {
        counts[at] = counts[at].max(count);
    }
}

// The counts with those of the held numbers above one, up to another.
pub fn count_row(
    counts: &mut [u32],
    held: &[u32],
    held_originators: &[u8],
    taken: SequenceNumber,
    last: SequenceNumber,
)
    requires { (length counts.old ≡ members_most) × (length held.now ≡ held_most) × (length held_originators.now ≡ held_most) }
    ensures { counts.new ≡ counted_row counts.old (listed held.now held_originators.now) taken.0 (last.0 - taken.0) }
{
    for number in taken.0..last.0 {
        let at = window::place(SequenceNumber(number), 1);
        count_one(counts, held_originators[at], held[at]);
    }
}

// The acknowledgements that a group begins with: a survivor's at floor, that of one who is lost at 0.
pub fn begin_taken(survivors: u16, floor: SequenceNumber, taken: &mut [u32])
    requires { length taken.old ≡ members_most }
    ensures { taken.new ≡ starts_of taken.old survivors floor.0 members_most }
{
    for i in 0..Group::MEMBERS {
        taken[i] = reply_counted(survivors, i, floor.0);
    }
}

// A message goes to a place as it lies in another, with all bytes of its payload.
fn copy_place(
    kept: &mut [u32],
    originators: &mut [u8],
    lengths: &mut [u8],
    payloads: &mut [u8],
    at: usize,
    count: u32,
    originator: u8,
    size: u8,
    source: &[u8],
    from: usize,
)
    requires { (at < places_most) × Places kept.old originators.old lengths.old payloads.old × Lies from source.now }
    ensures { messages_in kept.new originators.new lengths.new payloads.new ≡ set (messages_in kept.old originators.old lengths.old payloads.old) at (message_in count originator size (part_of source.now from)) }
{
    kept[at] = count;
    originators[at] = originator;
    lengths[at] = size;
    let base = from * Group::PAYLOAD;
    let end = base + Group::PAYLOAD;
    store::keep(payloads, at, &source[base..end]);
}

// The message of a number goes to its place in the history: from among the last taken, if it was taken, else from the held ones.
fn fill_one(
    kept: &mut [u32],
    originators: &mut [u8],
    lengths: &mut [u8],
    payloads: &mut [u8],
    past: &[u32],
    past_originators: &[u8],
    past_lengths: &[u8],
    past_payloads: &[u8],
    held: &[u32],
    held_originators: &[u8],
    held_lengths: &[u8],
    held_payloads: &[u8],
    taken: SequenceNumber,
    number: SequenceNumber,
)
    requires { Places kept.old originators.old lengths.old payloads.old × Places past.now past_originators.now past_lengths.now past_payloads.now × Held held.now held_originators.now held_lengths.now held_payloads.now }
    ensures { messages_in kept.new originators.new lengths.new payloads.new ≡ set (messages_in kept.old originators.old lengths.old payloads.old) (place_of number.0) (message_from (messages_in past.now past_originators.now past_lengths.now past_payloads.now) (messages_in held.now held_originators.now held_lengths.now held_payloads.now) taken.0 number.0) }
{
    let at = history::place(number.0 as u64);
    if number <= taken {
        copy_place(
            kept,
            originators,
            lengths,
            payloads,
            at,
            past[at],
            past_originators[at],
            past_lengths[at],
            past_payloads,
            at,
        );
        return;
    }
    let from = window::place(number, 0);
    copy_place(
        kept,
        originators,
        lengths,
        payloads,
        at,
        held[from],
        held_originators[from],
        held_lengths[from],
        held_payloads,
        from,
    );
}

// The messages of the numbers above floor, up to another, go to their places in the history.
pub fn fill(
    kept: &mut [u32],
    originators: &mut [u8],
    lengths: &mut [u8],
    payloads: &mut [u8],
    past: &[u32],
    past_originators: &[u8],
    past_lengths: &[u8],
    past_payloads: &[u8],
    held: &[u32],
    held_originators: &[u8],
    held_lengths: &[u8],
    held_payloads: &[u8],
    taken: SequenceNumber,
    floor: SequenceNumber,
    last: SequenceNumber,
)
    requires { Places kept.old originators.old lengths.old payloads.old × Places past.now past_originators.now past_lengths.now past_payloads.now × Held held.now held_originators.now held_lengths.now held_payloads.now }
    ensures { messages_in kept.new originators.new lengths.new payloads.new ≡ filled_of (messages_in kept.old originators.old lengths.old payloads.old) (messages_in past.now past_originators.now past_lengths.now past_payloads.now) (messages_in held.now held_originators.now held_lengths.now held_payloads.now) taken.0 floor.0 (last.0 - floor.0) }
{
    for number in floor.0..last.0 {
        fill_one(
            kept,
            originators,
            lengths,
            payloads,
            past,
            past_originators,
            past_lengths,
            past_payloads,
            held,
            held_originators,
            held_lengths,
            held_payloads,
            taken,
            SequenceNumber(number + 1),
        );
    }
}

// The history that a member begins a group with: what it has above its floor.
pub fn begin_history(
    kept: &mut [u32; Group::PLACES],
    originators: &mut [u8; Group::PLACES],
    lengths: &mut [u8; Group::PLACES],
    payloads: &mut [u8; Group::HISTORY_BYTES],
    past: &[u32],
    past_originators: &[u8],
    past_lengths: &[u8],
    past_payloads: &[u8],
    held: &[u32],
    held_originators: &[u8],
    held_lengths: &[u8],
    held_payloads: &[u8],
    taken: SequenceNumber,
    floor: SequenceNumber,
    last: SequenceNumber,
)
    requires { Places past.now past_originators.now past_lengths.now past_payloads.now × Held held.now held_originators.now held_lengths.now held_payloads.now }
    ensures { messages_in kept.new originators.new lengths.new payloads.new ≡ filled_of (replicate places_most empty_message) (messages_in past.now past_originators.now past_lengths.now past_payloads.now) (messages_in held.now held_originators.now held_lengths.now held_payloads.now) taken.0 floor.0 (last.0 - floor.0) }
{
    *kept = [0; Group::PLACES];
    *originators = [0; Group::PLACES];
    *lengths = [0; Group::PLACES];
    *payloads = [0; Group::HISTORY_BYTES];
    fill(
        kept,
        originators,
        lengths,
        payloads,
        past,
        past_originators,
        past_lengths,
        past_payloads,
        held,
        held_originators,
        held_lengths,
        held_payloads,
        taken,
        floor,
        last,
    );
}

// Of the eight numbers above the last taken those above a number are dropped.
pub fn drop_above(
    held: &mut [u32],
    held_originators: &mut [u8],
    held_lengths: &mut [u8],
    held_payloads: &mut [u8],
    number: SequenceNumber,
    taken: SequenceNumber,
)
    requires { Held held.old held_originators.old held_lengths.old held_payloads.old }
    ensures { messages_in held.new held_originators.new held_lengths.new held_payloads.new ≡ dropped_of (messages_in held.old held_originators.old held_lengths.old held_payloads.old) number.0 taken.0 held_most }
{
    for k in 0..Group::HELD {
        if (taken.0 as usize) + k < (number.0 as usize) {
            continue;
        }
        let at = window::place(taken, k + 1);
        window::clear(held, held_originators, held_lengths, held_payloads, at);
    }
}
