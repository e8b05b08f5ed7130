// Both ends' calls as programs in C or Rust link them: each is the library's, with its clauses.
#![tactic(auto)]

ghost use Rattle.ends.specs.Promise.{SequencerOpens, SequencerReceives, SequencerPolls, SequencerCopies, MemberOpens, MemberSubmits, MemberReceives, MemberTakes, MemberRepeats, MemberReports};

use ends::Told;
use states::{Member, Sequencer};

// The sequencer of n members in the group with that number and resilience degree, fresh. A refusal leaves it closed.
#[unsafe(no_mangle)]
pub extern "C" fn warghytes_sequencer_open(
    s: &mut Sequencer,
    n: u8,
    group: u32,
    resilience: u8,
) -> Told
    ensures { SequencerOpens s.old n group resilience result s.new }
{
    ends::warghytes_sequencer_open(s, n, group, resilience)
}

// A packet that came.
#[unsafe(no_mangle)]
pub extern "C" fn warghytes_sequencer_receive(
    s: &mut Sequencer,
    packet: &[u8],
    out: &mut [u8],
) -> Told
    ensures { SequencerReceives s.old packet.now out.old result s.new out.new }
{
    ends::warghytes_sequencer_receive(s, packet, out)
}

// A poll.
#[unsafe(no_mangle)]
pub extern "C" fn warghytes_sequencer_poll(s: &Sequencer, out: &mut [u8]) -> Told
    ensures { SequencerPolls s.now out.old result out.new }
{
    ends::warghytes_sequencer_poll(s, out)
}

// The broadcast of a number again, or its offer if it is not accepted.
#[unsafe(no_mangle)]
pub extern "C" fn warghytes_sequencer_copy(s: &Sequencer, number: u32, out: &mut [u8]) -> Told
    ensures { SequencerCopies s.now number out.old result out.new }
{
    ends::warghytes_sequencer_copy(s, number, out)
}

// Member `number` of n in the group with that number and resilience degree, fresh. A refusal leaves it closed.
#[unsafe(no_mangle)]
pub extern "C" fn warghytes_member_open(
    s: &mut Member,
    n: u8,
    number: u8,
    group: u32,
    resilience: u8,
) -> Told
    ensures { MemberOpens s.old n number group resilience result s.new }
{
    ends::warghytes_member_open(s, n, number, group, resilience)
}

// A message to be sent to all.
#[unsafe(no_mangle)]
pub extern "C" fn warghytes_member_submit(s: &mut Member, payload: &[u8], out: &mut [u8]) -> Told
    ensures { MemberSubmits s.old payload.now out.old result s.new out.new }
{
    ends::warghytes_member_submit(s, payload, out)
}

// A packet that came.
#[unsafe(no_mangle)]
pub extern "C" fn warghytes_member_receive(s: &mut Member, packet: &[u8], out: &mut [u8]) -> Told
    ensures { MemberReceives s.old packet.now out.old result s.new out.new }
{
    ends::warghytes_member_receive(s, packet, out)
}

// The next message in order.
#[unsafe(no_mangle)]
pub extern "C" fn warghytes_member_take(s: &mut Member, out: &mut [u8]) -> Told
    ensures { MemberTakes s.old out.old result s.new out.new }
{
    ends::warghytes_member_take(s, out)
}

// The request of the first message that waits, again.
#[unsafe(no_mangle)]
pub extern "C" fn warghytes_member_repeat(s: &Member, out: &mut [u8]) -> Told
    ensures { MemberRepeats s.now out.old result out.new }
{
    ends::warghytes_member_repeat(s, out)
}

// What it has, acknowledged.
#[unsafe(no_mangle)]
pub extern "C" fn warghytes_member_status(s: &Member, out: &mut [u8]) -> Told
    ensures { MemberReports s.now out.old result out.new }
{
    ends::warghytes_member_status(s, out)
}
