// A terminal as a struct that lies where its owner put it: each method lends the work of a call the head's numbers and all arrays, and stores
// the head that comes back.
#![tactic(auto)]

ghost use Rattle.std.specs.Prelude.{◌≡◌};
ghost use Rattle.recovery.specs.Promise as promise;
ghost use Rattle.recovery.specs.View.{whole, seen};
ghost use Rattle.terminal_opening.specs.Opening.{closed_terminal};
ghost use Rattle.terminal_state.specs.Terminal as inPlace;

use group::{Group, MemberNumber, Refusal, SequenceNumber};
use recovery::Head;

// A terminal: its numbers; its member's arrays; of each place of the last messages taken its count (0: none), originator, length and
// payload; each originator's highest count among all taken, and each replier's number; and its sequencer's arrays.
#[repr(C)]
#[derive(Clone, Copy)]
pub struct Terminal {
    pub head: Head,
    pub queued: [u32; Group::WAITING],
    pub held: [u32; Group::HELD],
    pub queued_originators: [u8; Group::WAITING],
    pub queued_lengths: [u8; Group::WAITING],
    pub held_originators: [u8; Group::HELD],
    pub held_lengths: [u8; Group::HELD],
    pub queued_payloads: [u8; Group::WAITING_BYTES],
    pub held_payloads: [u8; Group::HELD_BYTES],
    pub past: [u32; Group::PLACES],
    pub past_originators: [u8; Group::PLACES],
    pub past_lengths: [u8; Group::PLACES],
    pub past_payloads: [u8; Group::HISTORY_BYTES],
    pub highest: [u32; Group::MEMBERS],
    pub replies: [u32; Group::MEMBERS],
    pub taken: [u32; Group::MEMBERS],
    pub counts: [u32; Group::MEMBERS],
    pub repeats: [u32; Group::MEMBERS],
    pub kept: [u32; Group::PLACES],
    pub marks: [u16; Group::PLACES],
    pub originators: [u8; Group::PLACES],
    pub lengths: [u8; Group::PLACES],
    pub payloads: [u8; Group::HISTORY_BYTES],
}

// The work of a submission.
pub fn submit_on(
    head: Head,
    queued: &mut [u32; Group::WAITING],
    held: &mut [u32; Group::HELD],
    queued_originators: &mut [u8; Group::WAITING],
    queued_lengths: &mut [u8; Group::WAITING],
    held_originators: &mut [u8; Group::HELD],
    held_lengths: &mut [u8; Group::HELD],
    queued_payloads: &mut [u8; Group::WAITING_BYTES],
    held_payloads: &mut [u8; Group::HELD_BYTES],
    past: &mut [u32; Group::PLACES],
    past_originators: &mut [u8; Group::PLACES],
    past_lengths: &mut [u8; Group::PLACES],
    past_payloads: &mut [u8; Group::HISTORY_BYTES],
    highest: &mut [u32; Group::MEMBERS],
    replies: &mut [u32; Group::MEMBERS],
    taken: &mut [u32; Group::MEMBERS],
    counts: &mut [u32; Group::MEMBERS],
    repeats: &mut [u32; Group::MEMBERS],
    kept: &mut [u32; Group::PLACES],
    marks: &mut [u16; Group::PLACES],
    originators: &mut [u8; Group::PLACES],
    lengths: &mut [u8; Group::PLACES],
    payloads: &mut [u8; Group::HISTORY_BYTES],
    payload: &[u8],
    out: &mut [u8],
) -> attempt::Done
    ensures { promise.Submitted (whole head queued.old held.old queued_originators.old queued_lengths.old held_originators.old held_lengths.old queued_payloads.old held_payloads.old past.old past_originators.old past_lengths.old past_payloads.old highest.old replies.old taken.old counts.old repeats.old kept.old marks.old originators.old lengths.old payloads.old) payload.now out.old result.reply (whole result.head queued.new held.new queued_originators.new queued_lengths.new held_originators.new held_lengths.new queued_payloads.new held_payloads.new past.new past_originators.new past_lengths.new past_payloads.new highest.new replies.new taken.new counts.new repeats.new kept.new marks.new originators.new lengths.new payloads.new) out.new }
{
    terminals::submit_on(
        head,
        queued,
        held,
        queued_originators,
        queued_lengths,
        held_originators,
        held_lengths,
        queued_payloads,
        held_payloads,
        past,
        past_originators,
        past_lengths,
        past_payloads,
        highest,
        replies,
        payload,
        out,
    )
}

// The work of a repeat.
pub fn repeat_on(
    head: Head,
    queued: &[u32; Group::WAITING],
    held: &[u32; Group::HELD],
    queued_originators: &[u8; Group::WAITING],
    queued_lengths: &[u8; Group::WAITING],
    held_originators: &[u8; Group::HELD],
    held_lengths: &[u8; Group::HELD],
    queued_payloads: &[u8; Group::WAITING_BYTES],
    held_payloads: &[u8; Group::HELD_BYTES],
    past: &[u32; Group::PLACES],
    past_originators: &[u8; Group::PLACES],
    past_lengths: &[u8; Group::PLACES],
    past_payloads: &[u8; Group::HISTORY_BYTES],
    highest: &[u32; Group::MEMBERS],
    replies: &[u32; Group::MEMBERS],
    taken: &[u32; Group::MEMBERS],
    counts: &[u32; Group::MEMBERS],
    repeats: &[u32; Group::MEMBERS],
    kept: &[u32; Group::PLACES],
    marks: &[u16; Group::PLACES],
    originators: &[u8; Group::PLACES],
    lengths: &[u8; Group::PLACES],
    payloads: &[u8; Group::HISTORY_BYTES],
    out: &mut [u8],
) -> member::Reply
    ensures { promise.Repeated (whole head queued.now held.now queued_originators.now queued_lengths.now held_originators.now held_lengths.now queued_payloads.now held_payloads.now past.now past_originators.now past_lengths.now past_payloads.now highest.now replies.now taken.now counts.now repeats.now kept.now marks.now originators.now lengths.now payloads.now) out.old result (whole head queued.now held.now queued_originators.now queued_lengths.now held_originators.now held_lengths.now queued_payloads.now held_payloads.now past.now past_originators.now past_lengths.now past_payloads.now highest.now replies.now taken.now counts.now repeats.now kept.now marks.now originators.now lengths.now payloads.now) out.new }
{
    terminals::repeat_on(
        head,
        queued,
        held,
        queued_originators,
        queued_lengths,
        held_originators,
        held_lengths,
        queued_payloads,
        held_payloads,
        past,
        past_originators,
        past_lengths,
        past_payloads,
        highest,
        replies,
        out,
    )
}

// The work of a status call.
pub fn status_on(
    head: Head,
    queued: &[u32; Group::WAITING],
    held: &[u32; Group::HELD],
    queued_originators: &[u8; Group::WAITING],
    queued_lengths: &[u8; Group::WAITING],
    held_originators: &[u8; Group::HELD],
    held_lengths: &[u8; Group::HELD],
    queued_payloads: &[u8; Group::WAITING_BYTES],
    held_payloads: &[u8; Group::HELD_BYTES],
    past: &[u32; Group::PLACES],
    past_originators: &[u8; Group::PLACES],
    past_lengths: &[u8; Group::PLACES],
    past_payloads: &[u8; Group::HISTORY_BYTES],
    highest: &[u32; Group::MEMBERS],
    replies: &[u32; Group::MEMBERS],
    taken: &[u32; Group::MEMBERS],
    counts: &[u32; Group::MEMBERS],
    repeats: &[u32; Group::MEMBERS],
    kept: &[u32; Group::PLACES],
    marks: &[u16; Group::PLACES],
    originators: &[u8; Group::PLACES],
    lengths: &[u8; Group::PLACES],
    payloads: &[u8; Group::HISTORY_BYTES],
    out: &mut [u8],
) -> member::Reply
    ensures { promise.Reported (whole head queued.now held.now queued_originators.now queued_lengths.now held_originators.now held_lengths.now queued_payloads.now held_payloads.now past.now past_originators.now past_lengths.now past_payloads.now highest.now replies.now taken.now counts.now repeats.now kept.now marks.now originators.now lengths.now payloads.now) out.old result (whole head queued.now held.now queued_originators.now queued_lengths.now held_originators.now held_lengths.now queued_payloads.now held_payloads.now past.now past_originators.now past_lengths.now past_payloads.now highest.now replies.now taken.now counts.now repeats.now kept.now marks.now originators.now lengths.now payloads.now) out.new }
{
    terminals::status_on(
        head,
        queued,
        held,
        queued_originators,
        queued_lengths,
        held_originators,
        held_lengths,
        queued_payloads,
        held_payloads,
        past,
        past_originators,
        past_lengths,
        past_payloads,
        highest,
        replies,
        out,
    )
}

// The work of a take.
pub fn take_on(
    head: Head,
    queued: &mut [u32; Group::WAITING],
    held: &mut [u32; Group::HELD],
    queued_originators: &mut [u8; Group::WAITING],
    queued_lengths: &mut [u8; Group::WAITING],
    held_originators: &mut [u8; Group::HELD],
    held_lengths: &mut [u8; Group::HELD],
    queued_payloads: &mut [u8; Group::WAITING_BYTES],
    held_payloads: &mut [u8; Group::HELD_BYTES],
    past: &mut [u32; Group::PLACES],
    past_originators: &mut [u8; Group::PLACES],
    past_lengths: &mut [u8; Group::PLACES],
    past_payloads: &mut [u8; Group::HISTORY_BYTES],
    highest: &mut [u32; Group::MEMBERS],
    replies: &mut [u32; Group::MEMBERS],
    taken: &mut [u32; Group::MEMBERS],
    counts: &mut [u32; Group::MEMBERS],
    repeats: &mut [u32; Group::MEMBERS],
    kept: &mut [u32; Group::PLACES],
    marks: &mut [u16; Group::PLACES],
    originators: &mut [u8; Group::PLACES],
    lengths: &mut [u8; Group::PLACES],
    payloads: &mut [u8; Group::HISTORY_BYTES],
    out: &mut [u8],
) -> attempt::Done
    ensures { promise.Taken (whole head queued.old held.old queued_originators.old queued_lengths.old held_originators.old held_lengths.old queued_payloads.old held_payloads.old past.old past_originators.old past_lengths.old past_payloads.old highest.old replies.old taken.old counts.old repeats.old kept.old marks.old originators.old lengths.old payloads.old) out.old result.reply (whole result.head queued.new held.new queued_originators.new queued_lengths.new held_originators.new held_lengths.new queued_payloads.new held_payloads.new past.new past_originators.new past_lengths.new past_payloads.new highest.new replies.new taken.new counts.new repeats.new kept.new marks.new originators.new lengths.new payloads.new) out.new }
{
    terminals::take_on(
        head,
        queued,
        held,
        queued_originators,
        queued_lengths,
        held_originators,
        held_lengths,
        queued_payloads,
        held_payloads,
        past,
        past_originators,
        past_lengths,
        past_payloads,
        highest,
        replies,
        out,
    )
}

// The work of the member's call for packets.
pub fn receive_on(
    head: Head,
    queued: &mut [u32; Group::WAITING],
    held: &mut [u32; Group::HELD],
    queued_originators: &mut [u8; Group::WAITING],
    queued_lengths: &mut [u8; Group::WAITING],
    held_originators: &mut [u8; Group::HELD],
    held_lengths: &mut [u8; Group::HELD],
    queued_payloads: &mut [u8; Group::WAITING_BYTES],
    held_payloads: &mut [u8; Group::HELD_BYTES],
    past: &mut [u32; Group::PLACES],
    past_originators: &mut [u8; Group::PLACES],
    past_lengths: &mut [u8; Group::PLACES],
    past_payloads: &mut [u8; Group::HISTORY_BYTES],
    highest: &mut [u32; Group::MEMBERS],
    replies: &mut [u32; Group::MEMBERS],
    taken: &mut [u32; Group::MEMBERS],
    counts: &mut [u32; Group::MEMBERS],
    repeats: &mut [u32; Group::MEMBERS],
    kept: &mut [u32; Group::PLACES],
    marks: &mut [u16; Group::PLACES],
    originators: &mut [u8; Group::PLACES],
    lengths: &mut [u8; Group::PLACES],
    payloads: &mut [u8; Group::HISTORY_BYTES],
    packet: &[u8],
    out: &mut [u8],
) -> attempt::Done
    ensures { promise.Received (whole head queued.old held.old queued_originators.old queued_lengths.old held_originators.old held_lengths.old queued_payloads.old held_payloads.old past.old past_originators.old past_lengths.old past_payloads.old highest.old replies.old taken.old counts.old repeats.old kept.old marks.old originators.old lengths.old payloads.old) packet.now out.old result.reply (whole result.head queued.new held.new queued_originators.new queued_lengths.new held_originators.new held_lengths.new queued_payloads.new held_payloads.new past.new past_originators.new past_lengths.new past_payloads.new highest.new replies.new taken.new counts.new repeats.new kept.new marks.new originators.new lengths.new payloads.new) out.new }
{
    terminals::receive_on(
        head,
        queued,
        held,
        queued_originators,
        queued_lengths,
        held_originators,
        held_lengths,
        queued_payloads,
        held_payloads,
        past,
        past_originators,
        past_lengths,
        past_payloads,
        highest,
        replies,
        taken,
        counts,
        repeats,
        kept,
        marks,
        originators,
        lengths,
        payloads,
        packet,
        out,
    )
}

// The work of the sequencer's call for packets.
pub fn order_on(
    head: Head,
    queued: &mut [u32; Group::WAITING],
    held: &mut [u32; Group::HELD],
    queued_originators: &mut [u8; Group::WAITING],
    queued_lengths: &mut [u8; Group::WAITING],
    held_originators: &mut [u8; Group::HELD],
    held_lengths: &mut [u8; Group::HELD],
    queued_payloads: &mut [u8; Group::WAITING_BYTES],
    held_payloads: &mut [u8; Group::HELD_BYTES],
    past: &mut [u32; Group::PLACES],
    past_originators: &mut [u8; Group::PLACES],
    past_lengths: &mut [u8; Group::PLACES],
    past_payloads: &mut [u8; Group::HISTORY_BYTES],
    highest: &mut [u32; Group::MEMBERS],
    replies: &mut [u32; Group::MEMBERS],
    taken: &mut [u32; Group::MEMBERS],
    counts: &mut [u32; Group::MEMBERS],
    repeats: &mut [u32; Group::MEMBERS],
    kept: &mut [u32; Group::PLACES],
    marks: &mut [u16; Group::PLACES],
    originators: &mut [u8; Group::PLACES],
    lengths: &mut [u8; Group::PLACES],
    payloads: &mut [u8; Group::HISTORY_BYTES],
    packet: &[u8],
    out: &mut [u8],
) -> terminals::Step
    ensures { promise.OrderedBy (whole head queued.old held.old queued_originators.old queued_lengths.old held_originators.old held_lengths.old queued_payloads.old held_payloads.old past.old past_originators.old past_lengths.old past_payloads.old highest.old replies.old taken.old counts.old repeats.old kept.old marks.old originators.old lengths.old payloads.old) packet.now out.old result.reply (whole result.head queued.new held.new queued_originators.new queued_lengths.new held_originators.new held_lengths.new queued_payloads.new held_payloads.new past.new past_originators.new past_lengths.new past_payloads.new highest.new replies.new taken.new counts.new repeats.new kept.new marks.new originators.new lengths.new payloads.new) out.new }
{
    terminals::order_on(
        head,
        taken,
        counts,
        repeats,
        kept,
        marks,
        originators,
        lengths,
        payloads,
        packet,
        out,
    )
}

// The work of the sequencer's poll call.
pub fn poll_on(
    head: Head,
    queued: &[u32; Group::WAITING],
    held: &[u32; Group::HELD],
    queued_originators: &[u8; Group::WAITING],
    queued_lengths: &[u8; Group::WAITING],
    held_originators: &[u8; Group::HELD],
    held_lengths: &[u8; Group::HELD],
    queued_payloads: &[u8; Group::WAITING_BYTES],
    held_payloads: &[u8; Group::HELD_BYTES],
    past: &[u32; Group::PLACES],
    past_originators: &[u8; Group::PLACES],
    past_lengths: &[u8; Group::PLACES],
    past_payloads: &[u8; Group::HISTORY_BYTES],
    highest: &[u32; Group::MEMBERS],
    replies: &[u32; Group::MEMBERS],
    taken: &[u32; Group::MEMBERS],
    counts: &[u32; Group::MEMBERS],
    repeats: &[u32; Group::MEMBERS],
    kept: &[u32; Group::PLACES],
    marks: &[u16; Group::PLACES],
    originators: &[u8; Group::PLACES],
    lengths: &[u8; Group::PLACES],
    payloads: &[u8; Group::HISTORY_BYTES],
    out: &mut [u8],
) -> sequencer::Reply
    ensures { promise.Polled (whole head queued.now held.now queued_originators.now queued_lengths.now held_originators.now held_lengths.now queued_payloads.now held_payloads.now past.now past_originators.now past_lengths.now past_payloads.now highest.now replies.now taken.now counts.now repeats.now kept.now marks.now originators.now lengths.now payloads.now) out.old result (whole head queued.now held.now queued_originators.now queued_lengths.now held_originators.now held_lengths.now queued_payloads.now held_payloads.now past.now past_originators.now past_lengths.now past_payloads.now highest.now replies.now taken.now counts.now repeats.now kept.now marks.now originators.now lengths.now payloads.now) out.new }
{
    terminals::poll_on(
        head,
        taken,
        counts,
        repeats,
        kept,
        marks,
        originators,
        lengths,
        payloads,
        out,
    )
}

// The work of the sequencer's copy call.
pub fn copy_on(
    head: Head,
    queued: &[u32; Group::WAITING],
    held: &[u32; Group::HELD],
    queued_originators: &[u8; Group::WAITING],
    queued_lengths: &[u8; Group::WAITING],
    held_originators: &[u8; Group::HELD],
    held_lengths: &[u8; Group::HELD],
    queued_payloads: &[u8; Group::WAITING_BYTES],
    held_payloads: &[u8; Group::HELD_BYTES],
    past: &[u32; Group::PLACES],
    past_originators: &[u8; Group::PLACES],
    past_lengths: &[u8; Group::PLACES],
    past_payloads: &[u8; Group::HISTORY_BYTES],
    highest: &[u32; Group::MEMBERS],
    replies: &[u32; Group::MEMBERS],
    taken: &[u32; Group::MEMBERS],
    counts: &[u32; Group::MEMBERS],
    repeats: &[u32; Group::MEMBERS],
    kept: &[u32; Group::PLACES],
    marks: &[u16; Group::PLACES],
    originators: &[u8; Group::PLACES],
    lengths: &[u8; Group::PLACES],
    payloads: &[u8; Group::HISTORY_BYTES],
    number: SequenceNumber,
    out: &mut [u8],
) -> sequencer::Reply
    ensures { promise.Copied (whole head queued.now held.now queued_originators.now queued_lengths.now held_originators.now held_lengths.now queued_payloads.now held_payloads.now past.now past_originators.now past_lengths.now past_payloads.now highest.now replies.now taken.now counts.now repeats.now kept.now marks.now originators.now lengths.now payloads.now) number out.old result (whole head queued.now held.now queued_originators.now queued_lengths.now held_originators.now held_lengths.now queued_payloads.now held_payloads.now past.now past_originators.now past_lengths.now past_payloads.now highest.now replies.now taken.now counts.now repeats.now kept.now marks.now originators.now lengths.now payloads.now) out.new }
{
    terminals::copy_on(
        head,
        taken,
        counts,
        repeats,
        kept,
        marks,
        originators,
        lengths,
        payloads,
        number,
        out,
    )
}

// The work of inviting.
pub fn invite_on(
    head: Head,
    queued: &mut [u32; Group::WAITING],
    held: &mut [u32; Group::HELD],
    queued_originators: &mut [u8; Group::WAITING],
    queued_lengths: &mut [u8; Group::WAITING],
    held_originators: &mut [u8; Group::HELD],
    held_lengths: &mut [u8; Group::HELD],
    queued_payloads: &mut [u8; Group::WAITING_BYTES],
    held_payloads: &mut [u8; Group::HELD_BYTES],
    past: &mut [u32; Group::PLACES],
    past_originators: &mut [u8; Group::PLACES],
    past_lengths: &mut [u8; Group::PLACES],
    past_payloads: &mut [u8; Group::HISTORY_BYTES],
    highest: &mut [u32; Group::MEMBERS],
    replies: &mut [u32; Group::MEMBERS],
    taken: &mut [u32; Group::MEMBERS],
    counts: &mut [u32; Group::MEMBERS],
    repeats: &mut [u32; Group::MEMBERS],
    kept: &mut [u32; Group::PLACES],
    marks: &mut [u16; Group::PLACES],
    originators: &mut [u8; Group::PLACES],
    lengths: &mut [u8; Group::PLACES],
    payloads: &mut [u8; Group::HISTORY_BYTES],
    number: u32,
    out: &mut [u8],
) -> attempt::Done
    ensures { promise.Invited (whole head queued.old held.old queued_originators.old queued_lengths.old held_originators.old held_lengths.old queued_payloads.old held_payloads.old past.old past_originators.old past_lengths.old past_payloads.old highest.old replies.old taken.old counts.old repeats.old kept.old marks.old originators.old lengths.old payloads.old) number out.old result.reply (whole result.head queued.new held.new queued_originators.new queued_lengths.new held_originators.new held_lengths.new queued_payloads.new held_payloads.new past.new past_originators.new past_lengths.new past_payloads.new highest.new replies.new taken.new counts.new repeats.new kept.new marks.new originators.new lengths.new payloads.new) out.new }
{
    attempt::invite_on(
        head,
        queued,
        held,
        queued_originators,
        queued_lengths,
        held_originators,
        held_lengths,
        queued_payloads,
        held_payloads,
        past,
        past_originators,
        past_lengths,
        past_payloads,
        highest,
        replies,
        taken,
        counts,
        repeats,
        kept,
        marks,
        originators,
        lengths,
        payloads,
        number,
        out,
    )
}

// The work of making.
pub fn make_on(
    head: Head,
    queued: &mut [u32; Group::WAITING],
    held: &mut [u32; Group::HELD],
    queued_originators: &mut [u8; Group::WAITING],
    queued_lengths: &mut [u8; Group::WAITING],
    held_originators: &mut [u8; Group::HELD],
    held_lengths: &mut [u8; Group::HELD],
    queued_payloads: &mut [u8; Group::WAITING_BYTES],
    held_payloads: &mut [u8; Group::HELD_BYTES],
    past: &mut [u32; Group::PLACES],
    past_originators: &mut [u8; Group::PLACES],
    past_lengths: &mut [u8; Group::PLACES],
    past_payloads: &mut [u8; Group::HISTORY_BYTES],
    highest: &mut [u32; Group::MEMBERS],
    replies: &mut [u32; Group::MEMBERS],
    taken: &mut [u32; Group::MEMBERS],
    counts: &mut [u32; Group::MEMBERS],
    repeats: &mut [u32; Group::MEMBERS],
    kept: &mut [u32; Group::PLACES],
    marks: &mut [u16; Group::PLACES],
    originators: &mut [u8; Group::PLACES],
    lengths: &mut [u8; Group::PLACES],
    payloads: &mut [u8; Group::HISTORY_BYTES],
    demand: u32,
    out: &mut [u8],
) -> attempt::Done
    ensures { promise.Made (whole head queued.old held.old queued_originators.old queued_lengths.old held_originators.old held_lengths.old queued_payloads.old held_payloads.old past.old past_originators.old past_lengths.old past_payloads.old highest.old replies.old taken.old counts.old repeats.old kept.old marks.old originators.old lengths.old payloads.old) demand out.old result.reply (whole result.head queued.new held.new queued_originators.new queued_lengths.new held_originators.new held_lengths.new queued_payloads.new held_payloads.new past.new past_originators.new past_lengths.new past_payloads.new highest.new replies.new taken.new counts.new repeats.new kept.new marks.new originators.new lengths.new payloads.new) out.new }
{
    attempt::make_on(
        head,
        queued,
        held,
        queued_originators,
        queued_lengths,
        held_originators,
        held_lengths,
        queued_payloads,
        held_payloads,
        past,
        past_originators,
        past_lengths,
        past_payloads,
        highest,
        replies,
        taken,
        counts,
        repeats,
        kept,
        marks,
        originators,
        lengths,
        payloads,
        demand,
        out,
    )
}

// Stores a group, a field at a time: the bytes between the fields, which C lends with them, stay as they were.
fn put_group(group: &mut Group, next: Group)
    ensures { group.new ≡ next }
{
    group.n = next.n;
    group.resilience = next.resilience;
    group.survivors = next.survivors;
    group.elected = next.elected;
    group.number = next.number;
}

// Stores the head that comes back in the same way.
fn put_head(head: &mut Head, next: Head)
    ensures { head.new ≡ next }
{
    put_group(&mut head.member.group, next.member.group);
    head.member.number = next.member.number;
    head.member.taken = next.member.taken;
    head.member.accepted = next.member.accepted;
    head.member.submitted = next.member.submitted;
    head.member.waiting = next.member.waiting;
    put_group(&mut head.sequencer.group, next.sequencer.group);
    head.sequencer.top = next.sequencer.top;
    head.sequencer.accepted = next.sequencer.accepted;
    head.sequencer.floor = next.sequencer.floor;
    head.read = next.read;
    head.attempt = next.attempt;
    head.number = next.number;
    head.invited = next.invited;
    head.repliers = next.repliers;
    head.replied = next.replied;
    head.inviting = next.inviting;
    head.sequencing = next.sequencing;
    head.frozen = next.frozen;
}

impl Terminal {
    // All zero: what a caller has before it opens a terminal. No call accepts it.
    pub fn closed() -> Self
        ensures { inPlace.view_of result ≡ seen closed_terminal }
    {
        let none = Group {
            n: 0,
            resilience: 0,
            survivors: 0,
            elected: MemberNumber(0),
            number: 0,
        };
        let member = member::idle(none, MemberNumber(0));
        let sequencer = sequencer::fresh_head(none);
        let head = terminal_opening::fresh_head(member, sequencer, 0);
        Terminal {
            head,
            queued: [0u32; Group::WAITING],
            held: [0u32; Group::HELD],
            queued_originators: [0u8; Group::WAITING],
            queued_lengths: [0u8; Group::WAITING],
            held_originators: [0u8; Group::HELD],
            held_lengths: [0u8; Group::HELD],
            queued_payloads: [0u8; Group::WAITING_BYTES],
            held_payloads: [0u8; Group::HELD_BYTES],
            past: [0u32; Group::PLACES],
            past_originators: [0u8; Group::PLACES],
            past_lengths: [0u8; Group::PLACES],
            past_payloads: [0u8; Group::HISTORY_BYTES],
            highest: [0u32; Group::MEMBERS],
            replies: [0u32; Group::MEMBERS],
            taken: [0u32; Group::MEMBERS],
            counts: [0u32; Group::MEMBERS],
            repeats: [0u32; Group::MEMBERS],
            kept: [0u32; Group::PLACES],
            marks: [0u16; Group::PLACES],
            originators: [0u8; Group::PLACES],
            lengths: [0u8; Group::PLACES],
            payloads: [0u8; Group::HISTORY_BYTES],
        }
    }

    // Opens a terminal: questions 18 and 24. Where it is refused, the state is all zero.
    pub fn open(
        &mut self,
        n: u8,
        number: MemberNumber,
        group: u32,
        resilience: u8,
    ) -> Result<(), Refusal>
        ensures { inPlace.Begins self.old n number group resilience result self.new }
    {
        let done = terminal_opening::open_on(
            self.head,
            &mut self.queued,
            &mut self.held,
            &mut self.queued_originators,
            &mut self.queued_lengths,
            &mut self.held_originators,
            &mut self.held_lengths,
            &mut self.queued_payloads,
            &mut self.held_payloads,
            &mut self.past,
            &mut self.past_originators,
            &mut self.past_lengths,
            &mut self.past_payloads,
            &mut self.highest,
            &mut self.replies,
            &mut self.taken,
            &mut self.counts,
            &mut self.repeats,
            &mut self.kept,
            &mut self.marks,
            &mut self.originators,
            &mut self.lengths,
            &mut self.payloads,
            n,
            number,
            group,
            resilience,
        );
        self.head = done.head;
        done.verdict
    }

    // Submits a message: its request is written, or, behind one that waits, nothing.
    pub fn submit(&mut self, payload: &[u8], out: &mut [u8]) -> member::Reply
        ensures { inPlace.Submitted self.old payload.now out.old result self.new out.new }
    {
        let done = submit_on(
            self.head,
            &mut self.queued,
            &mut self.held,
            &mut self.queued_originators,
            &mut self.queued_lengths,
            &mut self.held_originators,
            &mut self.held_lengths,
            &mut self.queued_payloads,
            &mut self.held_payloads,
            &mut self.past,
            &mut self.past_originators,
            &mut self.past_lengths,
            &mut self.past_payloads,
            &mut self.highest,
            &mut self.replies,
            &mut self.taken,
            &mut self.counts,
            &mut self.repeats,
            &mut self.kept,
            &mut self.marks,
            &mut self.originators,
            &mut self.lengths,
            &mut self.payloads,
            payload,
            out,
        );
        put_head(&mut self.head, done.head);
        done.reply
    }

    // Writes the request of the first message that waits again, with what is acknowledged by then.
    pub fn repeat(&self, out: &mut [u8]) -> member::Reply
        ensures { inPlace.Repeated self.now out.old result out.new }
    {
        repeat_on(
            self.head,
            &self.queued,
            &self.held,
            &self.queued_originators,
            &self.queued_lengths,
            &self.held_originators,
            &self.held_lengths,
            &self.queued_payloads,
            &self.held_payloads,
            &self.past,
            &self.past_originators,
            &self.past_lengths,
            &self.past_payloads,
            &self.highest,
            &self.replies,
            &self.taken,
            &self.counts,
            &self.repeats,
            &self.kept,
            &self.marks,
            &self.originators,
            &self.lengths,
            &self.payloads,
            out,
        )
    }

    // Writes a status packet.
    pub fn status(&self, out: &mut [u8]) -> member::Reply
        ensures { inPlace.Reported self.now out.old result out.new }
    {
        status_on(
            self.head,
            &self.queued,
            &self.held,
            &self.queued_originators,
            &self.queued_lengths,
            &self.held_originators,
            &self.held_lengths,
            &self.queued_payloads,
            &self.held_payloads,
            &self.past,
            &self.past_originators,
            &self.past_lengths,
            &self.past_payloads,
            &self.highest,
            &self.replies,
            &self.taken,
            &self.counts,
            &self.repeats,
            &self.kept,
            &self.marks,
            &self.originators,
            &self.lengths,
            &self.payloads,
            out,
        )
    }

    // Hands out the following number, if it is held and accepted, and keeps it among the last 32 taken.
    pub fn take(&mut self, out: &mut [u8]) -> member::Reply
        ensures { inPlace.Taken self.old out.old result self.new out.new }
    {
        let done = take_on(
            self.head,
            &mut self.queued,
            &mut self.held,
            &mut self.queued_originators,
            &mut self.queued_lengths,
            &mut self.held_originators,
            &mut self.held_lengths,
            &mut self.queued_payloads,
            &mut self.held_payloads,
            &mut self.past,
            &mut self.past_originators,
            &mut self.past_lengths,
            &mut self.past_payloads,
            &mut self.highest,
            &mut self.replies,
            &mut self.taken,
            &mut self.counts,
            &mut self.repeats,
            &mut self.kept,
            &mut self.marks,
            &mut self.originators,
            &mut self.lengths,
            &mut self.payloads,
            out,
        );
        put_head(&mut self.head, done.head);
        done.reply
    }

    // The member's call for packets.
    pub fn receive(&mut self, packet: &[u8], out: &mut [u8]) -> member::Reply
        ensures { inPlace.Received self.old packet.now out.old result self.new out.new }
    {
        let done = receive_on(
            self.head,
            &mut self.queued,
            &mut self.held,
            &mut self.queued_originators,
            &mut self.queued_lengths,
            &mut self.held_originators,
            &mut self.held_lengths,
            &mut self.queued_payloads,
            &mut self.held_payloads,
            &mut self.past,
            &mut self.past_originators,
            &mut self.past_lengths,
            &mut self.past_payloads,
            &mut self.highest,
            &mut self.replies,
            &mut self.taken,
            &mut self.counts,
            &mut self.repeats,
            &mut self.kept,
            &mut self.marks,
            &mut self.originators,
            &mut self.lengths,
            &mut self.payloads,
            packet,
            out,
        );
        put_head(&mut self.head, done.head);
        done.reply
    }

    // The sequencer's call for packets.
    pub fn order(&mut self, packet: &[u8], out: &mut [u8]) -> sequencer::Reply
        ensures { inPlace.OrderedBy self.old packet.now out.old result self.new out.new }
    {
        let done = order_on(
            self.head,
            &mut self.queued,
            &mut self.held,
            &mut self.queued_originators,
            &mut self.queued_lengths,
            &mut self.held_originators,
            &mut self.held_lengths,
            &mut self.queued_payloads,
            &mut self.held_payloads,
            &mut self.past,
            &mut self.past_originators,
            &mut self.past_lengths,
            &mut self.past_payloads,
            &mut self.highest,
            &mut self.replies,
            &mut self.taken,
            &mut self.counts,
            &mut self.repeats,
            &mut self.kept,
            &mut self.marks,
            &mut self.originators,
            &mut self.lengths,
            &mut self.payloads,
            packet,
            out,
        );
        put_head(&mut self.head, done.head);
        done.reply
    }

    // The sequencer's poll call: the poll packet.
    pub fn poll(&self, out: &mut [u8]) -> sequencer::Reply
        ensures { inPlace.Polled self.now out.old result out.new }
    {
        poll_on(
            self.head,
            &self.queued,
            &self.held,
            &self.queued_originators,
            &self.queued_lengths,
            &self.held_originators,
            &self.held_lengths,
            &self.queued_payloads,
            &self.held_payloads,
            &self.past,
            &self.past_originators,
            &self.past_lengths,
            &self.past_payloads,
            &self.highest,
            &self.replies,
            &self.taken,
            &self.counts,
            &self.repeats,
            &self.kept,
            &self.marks,
            &self.originators,
            &self.lengths,
            &self.payloads,
            out,
        )
    }

    // The sequencer's copy call for a number: its packet, with today's floor.
    pub fn copy(&self, number: SequenceNumber, out: &mut [u8]) -> sequencer::Reply
        ensures { inPlace.Copied self.now number out.old result out.new }
    {
        copy_on(
            self.head,
            &self.queued,
            &self.held,
            &self.queued_originators,
            &self.queued_lengths,
            &self.held_originators,
            &self.held_lengths,
            &self.queued_payloads,
            &self.held_payloads,
            &self.past,
            &self.past_originators,
            &self.past_lengths,
            &self.past_payloads,
            &self.highest,
            &self.replies,
            &self.taken,
            &self.counts,
            &self.repeats,
            &self.kept,
            &self.marks,
            &self.originators,
            &self.lengths,
            &self.payloads,
            number,
            out,
        )
    }

    // Invites the members to a group with that number.
    pub fn invite(&mut self, number: u32, out: &mut [u8]) -> member::Reply
        ensures { inPlace.Invited self.old number out.old result self.new out.new }
    {
        let done = invite_on(
            self.head,
            &mut self.queued,
            &mut self.held,
            &mut self.queued_originators,
            &mut self.queued_lengths,
            &mut self.held_originators,
            &mut self.held_lengths,
            &mut self.queued_payloads,
            &mut self.held_payloads,
            &mut self.past,
            &mut self.past_originators,
            &mut self.past_lengths,
            &mut self.past_payloads,
            &mut self.highest,
            &mut self.replies,
            &mut self.taken,
            &mut self.counts,
            &mut self.repeats,
            &mut self.kept,
            &mut self.marks,
            &mut self.originators,
            &mut self.lengths,
            &mut self.payloads,
            number,
            out,
        );
        put_head(&mut self.head, done.head);
        done.reply
    }

    // Makes the group of all whose replies came, if they are as many as are demanded.
    pub fn make(&mut self, demand: u32, out: &mut [u8]) -> member::Reply
        ensures { inPlace.Made self.old demand out.old result self.new out.new }
    {
        let done = make_on(
            self.head,
            &mut self.queued,
            &mut self.held,
            &mut self.queued_originators,
            &mut self.queued_lengths,
            &mut self.held_originators,
            &mut self.held_lengths,
            &mut self.queued_payloads,
            &mut self.held_payloads,
            &mut self.past,
            &mut self.past_originators,
            &mut self.past_lengths,
            &mut self.past_payloads,
            &mut self.highest,
            &mut self.replies,
            &mut self.taken,
            &mut self.counts,
            &mut self.repeats,
            &mut self.kept,
            &mut self.marks,
            &mut self.originators,
            &mut self.lengths,
            &mut self.payloads,
            demand,
            out,
        );
        put_head(&mut self.head, done.head);
        done.reply
    }
}
