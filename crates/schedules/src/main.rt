// Plays the stored schedules one after the other: files 000, 001 and so on, up to the first that is not there.
#![tactic(auto)]

ghost use Rattle.std.specs.Prelude.{◌<◌};

use descriptor::{Sink, Source};
use std::fs::File;
use std::str;

fn digit(n: u32) -> u8
    requires { n < 10 }
    ensures { result < 128 }
{
    b'0' + (n as u8)
}

// Plays the schedule of a number, and tells whether it is there.
// kept: `reset_schedules` has the same but for the call; no library opens files, and one for these lines would be longer than they are.
fn play_stored(rt: &HostRuntime, number: u32) -> bool
    requires { number < 1000 }
{
    let name = [
        digit(number / 100),
        digit(number / 10 % 10),
        digit(number % 10),
    ];
    let Ok(path) = str::from_utf8(&name) else {
        unreachable!()
    };
    let Ok(mut input) = File::open(rt, path) else {
        return false;
    };
    let mut output = rt.stdout();
    stream::play(Source::of(&mut input), Sink::to(&mut output));
    true
}

fn main(rt: HostRuntime) {
    for number in 0..1000 {
        if !play_stored(&rt, number) {
            return;
        }
    }
}
