// What a result leaves at a survivor, in place: its member is the made group's, its part in the reset ends, and the elected terminal's
// sequencer begins.
#![tactic(auto)]

ghost use Rattle.std.specs.Prelude.{◌≡◌, length};
ghost use Rattle.group.specs.Limits.{members_most};
ghost use Rattle.history.specs.View.{Places};
ghost use Rattle.recovery.specs.Begin.{made_group};
ghost use Rattle.recovery.specs.Steps.{Held};
ghost use Rattle.election.specs.Promise.{Enters};
ghost use Rattle.election.specs.Steps.{FromMember, FromTerminal, SequencerBegun, seated_head, Seated, entered_head, MemberEntered};

use group::{Group, MemberNumber, SequenceNumber};
use recovery::Head;

// What an elected terminal begins with whose member's group has another's sequencer: last counts and history from its member. It gives back
// the member's floor.
fn begin_from_member(
    head: Head,
    held: &[u32],
    held_originators: &[u8],
    held_lengths: &[u8],
    held_payloads: &[u8],
    past: &[u32],
    past_originators: &[u8],
    past_lengths: &[u8],
    past_payloads: &[u8],
    highest: &[u32; Group::MEMBERS],
    counts: &mut [u32; Group::MEMBERS],
    kept: &mut [u32; Group::PLACES],
    originators: &mut [u8; Group::PLACES],
    lengths: &mut [u8; Group::PLACES],
    payloads: &mut [u8; Group::HISTORY_BYTES],
) -> SequenceNumber
    requires { Held held.now held_originators.now held_lengths.now held_payloads.now × Places past.now past_originators.now past_lengths.now past_payloads.now }
    ensures { FromMember head held.now held_originators.now held_lengths.now held_payloads.now past.now past_originators.now past_lengths.now past_payloads.now highest.now result counts.new kept.new originators.new lengths.new payloads.new }
{
    let taken = head.member.taken;
    let floor = recovery::kept_floor(head, held);
    let reach = window::row_end(held, taken);
    *counts = *highest;
    recovery::count_row(counts, held, held_originators, taken, reach);
    recovery::begin_history(
        kept,
        originators,
        lengths,
        payloads,
        past,
        past_originators,
        past_lengths,
        past_payloads,
        held,
        held_originators,
        held_lengths,
        held_payloads,
        taken,
        floor,
        reach,
    );
    floor
}

// What an elected terminal begins with: its group's sequencer's floor, last counts and history as they are, or else its member's.
fn begin_from(
    head: Head,
    held: &[u32],
    held_originators: &[u8],
    held_lengths: &[u8],
    held_payloads: &[u8],
    past: &[u32],
    past_originators: &[u8],
    past_lengths: &[u8],
    past_payloads: &[u8],
    highest: &[u32; Group::MEMBERS],
    counts: &mut [u32; Group::MEMBERS],
    kept: &mut [u32; Group::PLACES],
    originators: &mut [u8; Group::PLACES],
    lengths: &mut [u8; Group::PLACES],
    payloads: &mut [u8; Group::HISTORY_BYTES],
) -> SequenceNumber
    requires { Held held.now held_originators.now held_lengths.now held_payloads.now × Places past.now past_originators.now past_lengths.now past_payloads.now }
    ensures { FromTerminal head held.now held_originators.now held_lengths.now held_payloads.now past.now past_originators.now past_lengths.now past_payloads.now highest.now counts.old kept.old originators.old lengths.old payloads.old result counts.new kept.new originators.new lengths.new payloads.new }
{
    if recovery::serves(head) {
        return head.sequencer.floor;
    }
    begin_from_member(
        head,
        held,
        held_originators,
        held_lengths,
        held_payloads,
        past,
        past_originators,
        past_lengths,
        past_payloads,
        highest,
        counts,
        kept,
        originators,
        lengths,
        payloads,
    )
}

// The elected terminal's sequencer begins: all up to a number and none above are accepted, acknowledgements start, and nothing is repeated
// or marked.
fn begin(
    head: Head,
    held: &[u32],
    held_originators: &[u8],
    held_lengths: &[u8],
    held_payloads: &[u8],
    past: &[u32],
    past_originators: &[u8],
    past_lengths: &[u8],
    past_payloads: &[u8],
    highest: &[u32; Group::MEMBERS],
    taken: &mut [u32],
    counts: &mut [u32; Group::MEMBERS],
    repeats: &mut [u32; Group::MEMBERS],
    kept: &mut [u32; Group::PLACES],
    marks: &mut [u16; Group::PLACES],
    originators: &mut [u8; Group::PLACES],
    lengths: &mut [u8; Group::PLACES],
    payloads: &mut [u8; Group::HISTORY_BYTES],
    group: Group,
    number: SequenceNumber,
) -> sequencer::Head
    requires { Held held.now held_originators.now held_lengths.now held_payloads.now × Places past.now past_originators.now past_lengths.now past_payloads.now × (length taken.old ≡ members_most) }
    ensures { SequencerBegun head held.now held_originators.now held_lengths.now held_payloads.now past.now past_originators.now past_lengths.now past_payloads.now highest.now taken.old counts.old repeats.old kept.old marks.old originators.old lengths.old payloads.old group number result taken.new counts.new repeats.new kept.new marks.new originators.new lengths.new payloads.new }
{
    let floor = begin_from(
        head,
        held,
        held_originators,
        held_lengths,
        held_payloads,
        past,
        past_originators,
        past_lengths,
        past_payloads,
        highest,
        counts,
        kept,
        originators,
        lengths,
        payloads,
    );
    recovery::begin_taken(group.survivors, floor, taken);
    *repeats = [0; Group::MEMBERS];
    *marks = [0; Group::PLACES];
    sequencer::Head {
        group,
        top: number,
        accepted: number,
        floor,
    }
}

// The head with a sequencer that begins: it is there, and not frozen.
fn seat_head(head: Head, begun: sequencer::Head) -> Head
    ensures { result ≡ seated_head head begun }
{
    Head {
        sequencer: begun,
        sequencing: 1,
        frozen: 0,
        ..head
    }
}

// The sequencer of a made group's terminal: the elected one's begins, another stays in the old group.
fn seat(
    head: Head,
    held: &[u32],
    held_originators: &[u8],
    held_lengths: &[u8],
    held_payloads: &[u8],
    past: &[u32],
    past_originators: &[u8],
    past_lengths: &[u8],
    past_payloads: &[u8],
    highest: &[u32; Group::MEMBERS],
    taken: &mut [u32],
    counts: &mut [u32; Group::MEMBERS],
    repeats: &mut [u32; Group::MEMBERS],
    kept: &mut [u32; Group::PLACES],
    marks: &mut [u16; Group::PLACES],
    originators: &mut [u8; Group::PLACES],
    lengths: &mut [u8; Group::PLACES],
    payloads: &mut [u8; Group::HISTORY_BYTES],
    group: Group,
    number: SequenceNumber,
) -> Head
    requires { Held held.now held_originators.now held_lengths.now held_payloads.now × Places past.now past_originators.now past_lengths.now past_payloads.now × (length taken.old ≡ members_most) }
    ensures { Seated head held.now held_originators.now held_lengths.now held_payloads.now past.now past_originators.now past_lengths.now past_payloads.now highest.now taken.old counts.old repeats.old kept.old marks.old originators.old lengths.old payloads.old group number result taken.new counts.new repeats.new kept.new marks.new originators.new lengths.new payloads.new }
{
    if group.elected == head.member.number {
        let begun = begin(
            head,
            held,
            held_originators,
            held_lengths,
            held_payloads,
            past,
            past_originators,
            past_lengths,
            past_payloads,
            highest,
            taken,
            counts,
            repeats,
            kept,
            marks,
            originators,
            lengths,
            payloads,
            group,
            number,
        );
        return seat_head(head, begun);
    }
    head
}

// The description of a made group.
fn made(group: Group, attempt: u32, elected: MemberNumber, survivors: u16) -> Group
    ensures { result ≡ made_group group attempt elected survivors }
{
    Group {
        survivors,
        elected,
        number: attempt,
        ..group
    }
}

// The head of a member in a made group, with what is accepted; its reply and its own invitation end.
fn enter_head(head: Head, group: Group, accepted: SequenceNumber) -> Head
    ensures { result ≡ entered_head head group accepted }
{
    Head {
        member: member::Head {
            group,
            accepted,
            ..head.member
        },
        attempt: 0,
        number: SequenceNumber(0),
        invited: 0,
        repliers: 0,
        replied: 0,
        inviting: 0,
        ..head
    }
}

// A survivor's member enters the made group: all up to its order's last number and none above are accepted, and held ones above are
// dropped.
fn enter_member(
    head: Head,
    held: &mut [u32],
    held_originators: &mut [u8],
    held_lengths: &mut [u8],
    held_payloads: &mut [u8],
    replies: &mut [u32; Group::MEMBERS],
    group: Group,
    last: SequenceNumber,
) -> Head
    requires { Held held.old held_originators.old held_lengths.old held_payloads.old }
    ensures { MemberEntered head held.old held_originators.old held_lengths.old held_payloads.old group last result held.new held_originators.new held_lengths.new held_payloads.new replies.new }
{
    let taken = head.member.taken;
    recovery::drop_above(
        held,
        held_originators,
        held_lengths,
        held_payloads,
        last,
        taken,
    );
    *replies = [0; Group::MEMBERS];
    enter_head(head, group, window::later(taken, last))
}

// What a result leaves at a survivor.
pub fn enter_on(
    head: Head,
    held: &mut [u32; Group::HELD],
    held_originators: &mut [u8; Group::HELD],
    held_lengths: &mut [u8; Group::HELD],
    held_payloads: &mut [u8; Group::HELD_BYTES],
    past: &[u32; Group::PLACES],
    past_originators: &[u8; Group::PLACES],
    past_lengths: &[u8; Group::PLACES],
    past_payloads: &[u8; Group::HISTORY_BYTES],
    highest: &[u32; Group::MEMBERS],
    replies: &mut [u32; Group::MEMBERS],
    taken: &mut [u32; Group::MEMBERS],
    counts: &mut [u32; Group::MEMBERS],
    repeats: &mut [u32; Group::MEMBERS],
    kept: &mut [u32; Group::PLACES],
    marks: &mut [u16; Group::PLACES],
    originators: &mut [u8; Group::PLACES],
    lengths: &mut [u8; Group::PLACES],
    payloads: &mut [u8; Group::HISTORY_BYTES],
    attempt: u32,
    elected: MemberNumber,
    number: SequenceNumber,
    survivors: u16,
) -> Head
    ensures { Enters head held.old held_originators.old held_lengths.old held_payloads.old past.now past_originators.now past_lengths.now past_payloads.now highest.now replies.old taken.old counts.old repeats.old kept.old marks.old originators.old lengths.old payloads.old attempt elected number survivors result held.new held_originators.new held_lengths.new held_payloads.new replies.new taken.new counts.new repeats.new kept.new marks.new originators.new lengths.new payloads.new }
{
    let group = made(head.member.group, attempt, elected, survivors);
    let seated = seat(
        head,
        held,
        held_originators,
        held_lengths,
        held_payloads,
        past,
        past_originators,
        past_lengths,
        past_payloads,
        highest,
        taken,
        counts,
        repeats,
        kept,
        marks,
        originators,
        lengths,
        payloads,
        group,
        number,
    );
    enter_member(
        seated,
        held,
        held_originators,
        held_lengths,
        held_payloads,
        replies,
        group,
        number,
    )
}
