// A terminal for programs in other languages: the caller owns it, a call changes it where it lies, and what it answers comes back as numbers.
#![tactic(auto)]

ghost use Rattle.terminal_ends.specs.Promise.{Opens, Submits, Receives, Takes, Repeats, Reports, Orders, Polls, Copies, Invites, Makes};

use ends::Told;
use group::{MemberNumber, SequenceNumber};
use terminal_state::Terminal;

// Terminal `number` of n in the group with that number and resilience degree, fresh: member 0's has the sequencer. A refusal leaves it closed.
#[unsafe(no_mangle)]
pub extern "C" fn warghytes_terminal_open(
    t: &mut Terminal,
    n: u8,
    number: u8,
    group: u32,
    resilience: u8,
) -> Told
    ensures { Opens t.old n number group resilience result t.new }
{
    let verdict = t.open(n, MemberNumber(number), group, resilience);
    ends::opening_tells(verdict)
}

// A message to be sent to all.
#[unsafe(no_mangle)]
pub extern "C" fn warghytes_terminal_submit(
    t: &mut Terminal,
    payload: &[u8],
    out: &mut [u8],
) -> Told
    ensures { Submits t.old payload.now out.old result t.new out.new }
{
    let reply = t.submit(payload, out);
    ends::member_tells(reply)
}

// A packet that came for the member.
#[unsafe(no_mangle)]
pub extern "C" fn warghytes_terminal_receive(
    t: &mut Terminal,
    packet: &[u8],
    out: &mut [u8],
) -> Told
    ensures { Receives t.old packet.now out.old result t.new out.new }
{
    let reply = t.receive(packet, out);
    ends::member_tells(reply)
}

// The next message in order.
#[unsafe(no_mangle)]
pub extern "C" fn warghytes_terminal_take(t: &mut Terminal, out: &mut [u8]) -> Told
    ensures { Takes t.old out.old result t.new out.new }
{
    let reply = t.take(out);
    ends::member_tells(reply)
}

// The request of the first message that waits, again.
#[unsafe(no_mangle)]
pub extern "C" fn warghytes_terminal_repeat(t: &Terminal, out: &mut [u8]) -> Told
    ensures { Repeats t.now out.old result out.new }
{
    let reply = t.repeat(out);
    ends::member_tells(reply)
}

// What it has, acknowledged.
#[unsafe(no_mangle)]
pub extern "C" fn warghytes_terminal_status(t: &Terminal, out: &mut [u8]) -> Told
    ensures { Reports t.now out.old result out.new }
{
    let reply = t.status(out);
    ends::member_tells(reply)
}

// A packet that came for the sequencer.
#[unsafe(no_mangle)]
pub extern "C" fn warghytes_terminal_order(t: &mut Terminal, packet: &[u8], out: &mut [u8]) -> Told
    ensures { Orders t.old packet.now out.old result t.new out.new }
{
    let reply = t.order(packet, out);
    ends::sequencer_tells(reply)
}

// A poll.
#[unsafe(no_mangle)]
pub extern "C" fn warghytes_terminal_poll(t: &Terminal, out: &mut [u8]) -> Told
    ensures { Polls t.now out.old result out.new }
{
    let reply = t.poll(out);
    ends::sequencer_tells(reply)
}

// The broadcast of a number again, or its offer if it is not accepted.
#[unsafe(no_mangle)]
pub extern "C" fn warghytes_terminal_copy(t: &Terminal, number: u32, out: &mut [u8]) -> Told
    ensures { Copies t.now number out.old result out.new }
{
    let reply = t.copy(SequenceNumber(number), out);
    ends::sequencer_tells(reply)
}

// An invitation to a group with that number.
#[unsafe(no_mangle)]
pub extern "C" fn warghytes_terminal_invite(t: &mut Terminal, number: u32, out: &mut [u8]) -> Told
    ensures { Invites t.old number out.old result t.new out.new }
{
    let reply = t.invite(number, out);
    ends::member_tells(reply)
}

// The group of all whose replies came, if they are as many as are demanded.
#[unsafe(no_mangle)]
pub extern "C" fn warghytes_terminal_make(t: &mut Terminal, demand: u32, out: &mut [u8]) -> Told
    ensures { Makes t.old demand out.old result t.new out.new }
{
    let reply = t.make(demand, out);
    ends::member_tells(reply)
}
