// Prints a repeatable load, a schedule for `play`: `load seed n group events`.
#![tactic(auto)]

ghost use Rattle.std.specs.Prelude.{◌≡◌, ◌+◌, ◌≤◌, length, take};
ghost use Rattle.descriptor.specs.Descriptor.{Takes};
ghost use Rattle.text.specs.LaidAt.{LaidAt};
ghost use Rattle.workload.specs.Calls.{next_of};
ghost use Rattle.workload.specs.Line.{line_room};
ghost use Rattle.load.specs.Printed.{Prints};
ghost use Rattle.load.specs.Steps.{lines_from, Gathers};

use descriptor::Sink;
use group::Refusal;
use std::env::FillError;
use std::io;
use std::rt::Env;
use text::{number, put_text};
use workload::Load;

// How many bytes of lines are gathered before they are written.
const GATHERED: usize = 4096;

// The bytes of an argument that is looked at, at most.
const WORD_MOST: usize = 4096;

// Lines that were gathered: the load behind them, how many events are left, and how many bytes the lines have.
#[derive(Clone, Copy)]
struct Part {
    load: Load,
    left: u32,
    size: usize,
}

// What opening the load answered, and the sink behind the load.
#[derive(Drop)]
struct Printed<'a, W> {
    answer: Result<(), Refusal>,
    sink: Sink<'a, W>,
}

// Lays the line of the next event behind others.
fn put_next(load: &mut Load, out: &mut [u8], at: usize) -> usize
    requires { at + line_room ≤ length out.old }
    ensures laid { LaidAt at (next_of load.old).bytes out.old out.new result }
    ensures load { load.new ≡ (next_of load.old).load }
{
    let mut line = [0; Load::LINE];
    let step = load.next(&mut line);
    *load = step.load;
    put_text(&line[..step.written], out, at)
}

// Lays the lines of events at the front, while there are any and the output has room for one more.
fn gather(mut load: Load, events: u32, out: &mut [u8]) -> Part
    ensures { Gathers load events out.old out.new result }
{
    let mut left = events;
    let mut size = 0;
    // kept: a while, since it ends where there is no room, and how many events are left is a part of the result.
    while left > 0 && out.len() - size >= Load::LINE {
        size = put_next(&mut load, out, size);
        left -= 1;
    }
    Part { load, left, size }
}

// Hands on the lines of events, some of them at a time.
fn put_events<'a, W: io::Write>(mut load: Load, events: u32, mut sink: Sink<'a, W>) -> Sink<'a, W>
    ensures { Takes W.contents sink.entry (lines_from load events) result }
{
    let mut left = events;
    // kept: a while, since a turn takes as many events as have room.
    while left > 0 && !sink.failed() {
        let mut text = [0; GATHERED];
        let part = gather(load, left, &mut text);
        sink = sink.write(&text[..part.size]);
        load = part.load;
        left = part.left;
    }
    sink
}

// Prints a whole load; nothing, where it is refused.
fn put_load<'a, W: io::Write>(
    seed: u32,
    n: u32,
    group: u32,
    events: u32,
    sink: Sink<'a, W>,
) -> Printed<'a, W>
    ensures { Prints W.contents seed n group events sink.entry result }
{
    let mut line = [0; Load::LINE];
    let step = Load::open(seed, n, group, &mut line);
    let answer = step.answer;
    if let Err(_) = answer {
        return Printed { answer, sink };
    }
    let first = sink.write(&line[..step.written]);
    Printed {
        answer,
        sink: put_events(step.load, events, first),
    }
}

// Whether there is such an argument.
fn is_there(rt: &HostRuntime, index: usize) -> bool {
    let mut word = [0; WORD_MOST];
    !matches!(rt.arg(index, &mut word), Err(FillError::NotPresent))
}

// The number that an argument is.
fn argument(rt: &HostRuntime, index: usize) -> Option<u32> {
    let mut word = [0; WORD_MOST];
    let size = rt.arg(index, &mut word).unwrap_or(0);
    number(&word[..size])
}

// Whoever reads what is said may have gone: there is nobody to tell.
fn usage(rt: &HostRuntime) {
    let _ = eprintln!(rt; "usage: load seed n group events");
}

fn say_refused(rt: &HostRuntime, refusal: Refusal) {
    let number = refusal.number();
    let _ = eprintln!(rt; "refused {number}");
}

fn print(rt: &HostRuntime, seed: u32, n: u32, group: u32, events: u32) {
    let mut output = rt.stdout();
    let sink = Sink::to(&mut output);
    if let Err(refusal) = put_load(seed, n, group, events, sink).answer {
        say_refused(rt, refusal);
    }
}

fn main(rt: HostRuntime) {
    // The program's own name is counted too.
    if !is_there(&rt, 4) || is_there(&rt, 5) {
        return usage(&rt);
    }
    if let (Some(seed), Some(n), Some(group), Some(events)) = (
        argument(&rt, 1),
        argument(&rt, 2),
        argument(&rt, 3),
        argument(&rt, 4),
    ) {
        print(&rt, seed, n, group, events)
    } else {
        usage(&rt)
    }
}
