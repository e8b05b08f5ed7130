// What is read, and what is written to, each with a tally of the bytes that went through it. The fields are private: a tally
// grows only by reading and by writing, so a promise about it is one about the bytes read or handed on.
#![tactic(auto)]

ghost use Rattle.std.specs.Prelude.{◌≡◌, take};
ghost use Rattle.descriptor.specs.Tally.{nothing, counted, tallied};
ghost use Rattle.io.specs.Counts.{IsPrefixLen};
ghost use Rattle.descriptor.specs.Descriptor.{source_of, sink_to, Gives, Takes};

use std::io;

// Bytes by two sums: of the bytes, each with 1, and of those sums as they grew. So their number and their order count.
#[derive(Clone, Copy)]
pub struct Tally {
    sum: u64,
    total: u64,
}

impl Tally {
    fn none() -> Self
        ensures { result ≡ nothing }
    {
        Tally { sum: 0, total: 0 }
    }

    // With one byte more.
    #[tactic(auto, unfolding(crate::specs::Tally::counted))]
    fn with(self, byte: u8) -> Self
        ensures { result ≡ counted self byte }
    {
        let sum = self.sum.wrapping_add(byte as u64 + 1);
        let total = self.total.wrapping_add(sum);
        Tally { sum, total }
    }

    // With some bytes more.
    fn over(self, bytes: &[u8]) -> Self
        ensures { result ≡ tallied self bytes.now }
    {
        bytes.iter().fold(self, |tally, &byte| tally.with(byte))
    }
}

// A reader, and the tally of what it gave.
#[derive(Drop)]
pub struct Source<'a, R> {
    reader: &'a mut R,
    tally: Tally,
}

// The source after a read, and how many bytes it gave.
#[derive(Drop)]
pub struct Read<'a, R> {
    pub source: Source<'a, R>,
    pub size: usize,
}

impl<'a, R: io::Read> Source<'a, R> {
    pub fn of(reader: &'a mut R) -> Self
        ensures { result ≡ source_of reader.entry }
    {
        Source {
            reader,
            tally: Tally::none(),
        }
    }

    // Reads once, to the front of a chunk. An input that has ended, or that cannot be read, gives no bytes.
    pub fn read(self, chunk: &mut [u8]) -> Read<'a, R>
        ensures within { IsPrefixLen result.size chunk.new }
        ensures gives { Gives R.remaining self.entry (take result.size chunk.new) result.source }
    {
        let size = self.reader.read(chunk).unwrap_or(0);
        let tally = self.tally.over(&chunk[..size]);
        let source = Source {
            reader: self.reader,
            tally,
        };
        Read { source, size }
    }
}

// A writer, the tally of what it was handed, and whether it failed to take some of that.
#[derive(Drop)]
pub struct Sink<'a, W> {
    writer: &'a mut W,
    tally: Tally,
    failed: bool,
}

impl<'a, W: io::Write> Sink<'a, W> {
    pub fn to(writer: &'a mut W) -> Self
        ensures { result ≡ sink_to writer.entry }
    {
        Sink {
            writer,
            tally: Tally::none(),
            failed: false,
        }
    }

    pub fn failed(&self) -> bool
        ensures { result ≡ self.now.failed }
    {
        self.failed
    }

    // Hands a text on. A sink that failed is handed nothing more.
    pub fn write(self, text: &[u8]) -> Self
        ensures { Takes W.contents self.entry text.now result }
    {
        if self.failed {
            return self;
        }
        let tally = self.tally.over(text);
        let failed = self.writer.write_all(text).is_err();
        Sink {
            writer: self.writer,
            tally,
            failed,
        }
    }
}
