// Lists journals, appends to one, prints the plan of one, and rewrites one: `journal_tool list FILE..`, `append FILE`, `plan FILE`,
// `rewrite FILE NEW`; commands are parted by `then`. A message is a line, `number originator count payload`, the payload in hex or
// `-`, and the last line is `blocks B messages M`; of a plan each line is `unit description`. Input and output are the system's, so
// nothing is promised here; what is read and written is worked out by `journal`, `plan` and `text`.
#![tactic(auto)]

ghost use Rattle.std.specs.Prelude.{◌≡◌, ◌+◌, ◌*◌, ◌<◌, ◌≤◌, length, IfOk, IfSome};
ghost use Rattle.group.specs.Limits.{payload_most};
ghost use Rattle.journal.specs.Laws.{StandsIn};

use group::{Group, MemberNumber, Refusal, SequenceNumber};
use journal::{Block, Cursor, Found, Record, Spot, Step, Tail, Writer};
use std::env::FillError;
use std::fs::{File, OpenOptions, Permissions};
use std::io::{Error, ErrorKind, Read, Seek, SeekFrom, Stdin, Write};
use std::os::unix::fs::{FileExt, OpenOptionsExt, PermissionsExt};
use std::random::RandomSource;
use std::rt::Env;
use std::{fs, io, str};

// A line of more characters is of another form; the longest that is printed has 514.
const LINE_MOST: usize = 1000;

// The bytes of a file that is planned or rewritten, at most.
const FILE_MOST: usize = 1048576;

// The bytes of a rewritten journal at most: a block for each of 512 records. A plan has less than half of that.
const OUTPUT_MOST: usize = 512 * Block::SIZE;

// The bytes of an argument, at most. What has an array of so many, or is called beside one, is `inline(never)`: no command takes the stack
// of another.
const NAME_MOST: usize = 4096;

// The last bytes of a new file's name, and how many such names are tried.
const COMPLETED: usize = 6;

const NAMES_TRIED: u32 = 1000;

// Why a command goes no further: the system failed, the journal was refused, or another reason, in words.
#[derive(Drop)]
enum Failure {
    Io(Error),
    Refused(Refusal),
    Told(&'static str),
}

impl From<Error> for Failure {
    fn from(error: Error) -> Self {
        Failure::Io(error)
    }
}

impl From<Refusal> for Failure {
    fn from(refusal: Refusal) -> Self {
        Failure::Refused(refusal)
    }
}

// Whoever reads the output may have gone: there is nobody to tell.
fn print_refused(rt: &HostRuntime, refusal: Refusal) {
    let _ = println!(rt; "refused {}", refusal.number());
}

fn print_totals(rt: &HostRuntime, blocks: usize, messages: usize) {
    let _ = println!(rt; "blocks {blocks} messages {messages}");
}

// The system's words of an error, without its number.
fn words_of(told: &str) -> &str {
    match told.split_once(" (os error ") {
        Some((words, _)) => words,
        None => told,
    }
}

// Says on standard error what failed.
fn fail(rt: &HostRuntime, error: Error) {
    if let Ok(told) = error.to_string(rt.alloc()) {
        let words = words_of(told.as_str());
        let _ = eprintln!(rt; "journal_tool: {words}");
    }
}

// Says what failed: of the system on standard error, and else in the output.
fn report(rt: &HostRuntime, done: Result<(), Failure>) {
    match done {
        Ok(()) => {}
        Err(Failure::Io(error)) => fail(rt, error),
        Err(Failure::Refused(refusal)) => print_refused(rt, refusal),
        Err(Failure::Told(words)) => {
            let _ = println!(rt; "{words}");
        }
    }
}

// Prints a line whose fields, each behind a space, end at an index.
fn print_line(rt: &HostRuntime, line: &mut [u8], end: usize)
    requires { end < length line.old }
{
    let next = text::put(b'\n', line, end);
    let _ = rt.write_all(&line[1..next]);
}

fn print_message(rt: &HostRuntime, number: u32, originator: u8, count: u32, payload: &[u8])
    requires { length payload.now ≤ payload_most }
{
    let mut line = [0; LINE_MOST];
    let next = text::put_number(number, &mut line, 0);
    let next = text::put_number(originator as u32, &mut line, next);
    let next = text::put_number(count, &mut line, next);
    let next = text::put_payload(payload, &mut line, next);
    print_line(rt, &mut line, next);
}

// Prints the message of a record that stands in a block.
fn print_record(rt: &HostRuntime, block: &[u8], spot: Spot)
    requires { StandsIn block.now spot }
{
    let at = spot.start;
    let count = big_endian::u32_at(block, at + 1);
    let payload = &block[at + Record::HEAD..spot.end];
    print_message(rt, spot.number.0, block[at], count, payload);
}

// Prints the messages of a right block.
fn print_records(rt: &HostRuntime, block: &[u8], records: usize) {
    if block.len() < Block::SIZE {
        return;
    }
    let mut cursor = Cursor::of(block, 1);
    'records: for _ in 0..records {
        let Some((spot, next)) = cursor.next(block) else {
            return;
        };
        print_record(rt, block, spot);
        cursor = next;
    }
}

// Reads so many blocks of a file, up to the first that is wrong, and shows each right one with its records.
fn read_blocks<F: FnMut(&[u8], usize)>(mut file: &File, total: u64, mut show: F) -> Found
    requires { F.IsAlwaysCallable show }
{
    let mut known = Found {
        blocks: 0,
        messages: 0,
        tail: Tail::fresh(),
    };
    for _ in 0..total {
        let mut block = [0; Block::SIZE];
        if file.read_exact(&mut block).is_err() {
            break;
        }
        let Some(next) = known.tail.next(&block) else {
            break;
        };
        show(&block, next.messages);
        known = Found {
            blocks: known.blocks.wrapping_add(1),
            messages: known.messages.wrapping_add(next.messages),
            tail: next.tail,
        };
    }
    known
}

// The length of a file, which is read from its beginning then.
fn length_of(mut file: &File) -> io::Result<u64> {
    let length = file.seek(SeekFrom::End(0))?;
    file.seek(SeekFrom::Start(0))?;
    Ok(length)
}

#[inline(never)]
fn list(rt: &HostRuntime, name: &[u8]) -> Result<(), Failure> {
    let file = File::open(rt, path(name)?)?;
    let length = length_of(&file)?;
    if length % 512 != 0 {
        return Err(Failure::Refused(Refusal::WrongJournal));
    }
    let known = read_blocks(&file, length / 512, |block, records| {
        print_records(rt, block, records)
    });
    print_totals(rt, known.blocks, known.messages);
    Ok(())
}

// Where a block begins in a file; for one that no file has an offset that the system refuses.
fn offset_of(blocks: usize) -> u64 {
    (blocks as u64).saturating_mul(512)
}

// A message as a line gives it; its payload lies in the bytes that were lent.
#[derive(Clone, Copy)]
struct Message {
    number: u32,
    originator: u8,
    count: u32,
    length: usize,
}

// The field of a line before its first space, and what stands behind that.
fn field(line: &[u8]) -> Option<(&[u8], &[u8])>
    ensures { IfSome result (λ parts. length parts.1.now ≤ length line.now) }
{
    let at = line.iter().position(|&byte| byte == b' ')?;
    Some((&line[..at], &line[at + 1..]))
}

// Reads a line, and lays its payload at the front of the bytes that were lent; a line of another form is no message. A member that no
// byte holds is none either.
fn read_line(line: &[u8], payload: &mut [u8]) -> Option<Message>
    requires { length line.now ≤ 2 * length payload.old }
    ensures { IfSome result (λ message. message.length ≤ length payload.new) }
{
    let (number, rest) = field(line)?;
    let (originator, rest) = field(rest)?;
    let (count, hex) = field(rest)?;
    let number = text::number(number)?;
    let originator = text::number(originator)?;
    let count = text::number(count)?;
    if !text::is_hex(hex) {
        return None;
    }
    let length = text::lay_hex(hex, payload);
    Some(Message {
        number,
        originator: u8::try_from(originator).unwrap_or(u8::MAX),
        count,
        length,
    })
}

// A line that was typed, at the front of these bytes, and whether the input goes on behind it.
#[derive(Drop)]
struct Typed {
    bytes: [u8; LINE_MOST],
    size: usize,
    goes_on: bool,
}

impl Typed {
    fn line(&self) -> &[u8]
        ensures { length result.now ≤ LINE_MOST }
    {
        &self.bytes[..self.size.min(LINE_MOST)]
    }
}

// Types a line, up to its line feed or the end of the input. Of a line that is too long the front is kept. Each block waits for the
// card, so a call for each byte of the input is no loss.
fn type_line(input: Stdin) -> Typed
    ensures { result.size ≤ LINE_MOST }
{
    let mut bytes = [0; LINE_MOST];
    let mut size = 0;
    let mut goes_on = false;
    'bytes: for byte in input.bytes() {
        match byte {
            Ok(b'\n') => {
                goes_on = true;
                break;
            }
            Ok(byte) => {
                if size < LINE_MOST {
                    bytes[size] = byte;
                    size += 1;
                }
            }
            Err(_) => break,
        }
    }
    Typed {
        bytes,
        size,
        goes_on,
    }
}

// A writer on a file, with its block in hand, and the file's blocks and messages.
#[derive(Drop)]
struct Session {
    file: File,
    writer: Writer,
    hand: [u8; Block::SIZE],
    blocks: usize,
    messages: usize,
}

impl Session {
    // Writes on behind the blocks found.
    fn behind(file: File, known: Found) -> Self {
        Session {
            file,
            writer: Writer::after(known.tail),
            hand: [0; Block::SIZE],
            blocks: known.blocks,
            messages: known.messages,
        }
    }

    // Puts a block behind those of the file. The file grows first, so that wherever this is ended its length is a multiple of a
    // block's; and the next block waits until this one has reached the card.
    fn put_block(&mut self, block: &[u8]) -> io::Result<()> {
        let blocks = self.blocks.wrapping_add(1);
        self.file.set_len(offset_of(blocks))?;
        if self.file.write_at(block, offset_of(self.blocks))? != 512 {
            return Err(Error::from(ErrorKind::WriteZero));
        }
        self.file.sync_all()?;
        self.blocks = blocks;
        Ok(())
    }

    // Puts the block of a step on the card, if it has one.
    fn hand_out(&mut self, step: Step, block: &[u8]) -> io::Result<()> {
        if step.written == 0 {
            return Ok(());
        }
        self.put_block(block)
    }

    // Writes a message; one that is refused is told, and changes nothing.
    fn write(&mut self, rt: &HostRuntime, message: Message, payload: &[u8]) -> io::Result<()> {
        let mut block = [0; Block::SIZE];
        let written = self.writer.write(
            SequenceNumber(message.number),
            MemberNumber(message.originator),
            message.count,
            payload,
            &mut self.hand,
            &mut block,
        );
        match written {
            Ok(step) => {
                self.writer = step.writer;
                self.messages = self.messages.wrapping_add(1);
                self.hand_out(step, &block)
            }
            Err(refusal) => {
                print_refused(rt, refusal);
                Ok(())
            }
        }
    }

    // Writes each line of the input. What stands behind the last line feed is a line too, unless it is empty.
    fn write_lines(&mut self, rt: &HostRuntime) -> Result<(), Failure> {
        let mut payload = [0; LINE_MOST / 2];
        for _ in 0..u64::MAX {
            let typed = type_line(rt.stdin());
            if !typed.goes_on && typed.size == 0 {
                break;
            }
            let Some(message) = read_line(typed.line(), &mut payload) else {
                return Err(Failure::Told("bad line"));
            };
            self.write(rt, message, &payload[..message.length])?;
            if !typed.goes_on {
                break;
            }
        }
        Ok(())
    }

    // Shuts down: what is in hand goes on the card.
    fn close(&mut self) -> Result<(), Failure> {
        let mut block = [0; Block::SIZE];
        let step = self.writer.finish(&self.hand, &mut block)?;
        self.hand_out(step, &block)?;
        Ok(())
    }
}

// Appends to a file the messages of the input. What stands behind its right blocks is cut off, a rest that is no block too.
#[inline(never)]
fn append(rt: &HostRuntime, name: &[u8]) -> Result<(), Failure> {
    let file = open_or_make(rt, name)?;
    let length = length_of(&file)?;
    let known = read_blocks(&file, length / 512, |_, _| {});
    file.set_len(offset_of(known.blocks))?;
    let mut session = Session::behind(file, known);
    report(rt, session.write_lines(rt));
    report(rt, session.close());
    print_totals(rt, session.blocks, session.messages);
    Ok(())
}

// The path that a name is. One that is no text names no file.
fn path(name: &[u8]) -> io::Result<&str> {
    match str::from_utf8(name) {
        Ok(path) => Ok(path),
        Err(_) => Err(Error::from(ErrorKind::InvalidFilename)),
    }
}

fn open_update(rt: &HostRuntime, name: &str) -> io::Result<File> {
    let mut options = OpenOptions::new();
    options.read(true).write(true);
    options.open(rt, name)
}

fn create(rt: &HostRuntime, name: &str) -> io::Result<File> {
    let mut options = OpenOptions::new();
    options.write(true).create_new(true);
    options.open(rt, name)
}

// Opens a file for reading and writing; one that is not there is made.
fn open_or_make(rt: &HostRuntime, name: &[u8]) -> io::Result<File> {
    let name = path(name)?;
    let file = open_update(rt, name);
    if file.is_ok() {
        return file;
    }
    let _ = create(rt, name);
    open_update(rt, name)
}

fn print_unit(rt: &HostRuntime, unit: u16, description: &[u8])
    requires { length description.now ≤ payload_most }
{
    let mut line = [0; LINE_MOST];
    let next = text::put_number(unit as u32, &mut line, 0);
    let next = text::put_payload(description, &mut line, next);
    print_line(rt, &mut line, next);
}

// Prints the rows of a plan: each is a unit's number, a length, and a description of that length.
fn print_rows(rt: &HostRuntime, mut rows: &[u8]) {
    // kept: a while, since a row says how many bytes it takes.
    'rows: while 4 <= rows.len() {
        let unit = big_endian::u16_at(rows, 0);
        let size = big_endian::u16_at(rows, 2) as usize;
        if Group::PAYLOAD < size || rows.len() - 4 < size {
            return;
        }
        print_unit(rt, unit, &rows[4..4 + size]);
        rows = &rows[4 + size..];
    }
}

// Reads until the bytes are full, the input ends or a read fails, and gives how many bytes it put at their front.
fn read_full(mut file: &File, bytes: &mut [u8]) -> usize
    ensures { result ≤ length bytes.new }
{
    let mut done = 0;
    'reads: for _ in 0..u64::MAX {
        match file.read(&mut bytes[done..]) {
            Ok(0) => break,
            Ok(size) => done += size,
            Err(error) => {
                if error.kind() != ErrorKind::Interrupted {
                    break;
                }
            }
        }
    }
    done
}

// Puts the journal in a file at the front of the bytes, and gives its length: what is read of it up to its end, or until a read fails.
// There is a byte more than a journal may have, by which a longer one is told.
fn read_journal(
    rt: &HostRuntime,
    name: &[u8],
    journal: &mut [u8; FILE_MOST + 1],
) -> Result<usize, Failure>
    ensures { IfOk result (λ size. size ≤ length journal.new) }
{
    let file = File::open(rt, path(name)?)?;
    let size = read_full(&file, journal);
    if FILE_MOST < size {
        return Err(Failure::Told("longer than 1048576 bytes"));
    }
    Ok(size)
}

// Prints the plan of the journal in a file. Journal and output lie on the stack.
#[inline(never)]
fn plan(rt: &HostRuntime, name: &[u8]) -> Result<(), Failure> {
    let mut journal = [0; FILE_MOST + 1];
    let mut out = [0; OUTPUT_MOST];
    let length = read_journal(rt, name, &mut journal)?;
    let size = plan::plan(&journal[..length], &mut out)?;
    print_rows(rt, &out[..size]);
    Ok(())
}

// Puts bytes in a file, and waits until they have reached the card.
fn store(mut file: File, bytes: &[u8]) -> io::Result<()> {
    file.set_permissions(Permissions::from_mode(0o644))?;
    file.write_all(bytes)?;
    file.sync_all()
}

// A digit or a letter.
fn letter(random: u8) -> u8 {
    let n = random % 36;
    if n < 10 { b'0' + n } else { b'a' + (n - 10) }
}

// Completes a name: its last bytes become digits and letters, as chance has it.
fn complete(rt: &HostRuntime, name: &mut [u8]) -> io::Result<()>
    requires { 6 ≤ length name.old }
{
    let mut random = [0; COMPLETED];
    rt.fill_bytes(&mut random)?;
    let start = name.len() - COMPLETED;
    for (byte, random) in name[start..].iter_mut().zip(&random) {
        *byte = letter(*random);
    }
    Ok(())
}

// Makes a file that was not there, and completes its name. A name that is shorter than what completes it is refused.
fn create_temp(rt: &HostRuntime, name: &mut [u8]) -> io::Result<File> {
    if name.len() < COMPLETED {
        return Err(Error::from(ErrorKind::InvalidInput));
    }
    let mut options = OpenOptions::new();
    options.write(true).create_new(true).mode(0o600);
    for _ in 0..NAMES_TRIED {
        complete(rt, name)?;
        match options.open(rt, path(name)?) {
            Ok(file) => return Ok(file),
            Err(error) => {
                if error.kind() != ErrorKind::AlreadyExists {
                    return Err(error);
                }
            }
        }
    }
    Err(Error::from(ErrorKind::AlreadyExists))
}

// Stores bytes in a new file, and then gives it the other name.
fn place(rt: &HostRuntime, file: File, beside: &str, name: &str, bytes: &[u8]) -> io::Result<()> {
    store(file, bytes)?;
    fs::rename(rt, beside, name)
}

// Puts bytes in a file of that name, by way of another beside it: a failure leaves what has that name. Whether they are there.
fn replace(rt: &HostRuntime, name: &[u8], bytes: &[u8]) -> Result<bool, Failure> {
    if NAME_MOST - 1 - COMPLETED < name.len() {
        return Err(Failure::Told("too long a name"));
    }
    let mut beside = [b'.'; NAME_MOST];
    let size = text::put_text(name, &mut beside, 0) + 1 + COMPLETED;
    let beside = &mut beside[..size];
    let file = create_temp(rt, beside)?;
    let beside = path(beside)?;
    if let Err(error) = place(rt, file, beside, path(name)?, bytes) {
        fail(rt, error);
        let _ = fs::remove_file(rt, beside);
        return Ok(false);
    }
    Ok(true)
}

// Rewrites the journal in a file to another, which an argument names, and prints what is there then.
#[inline(never)]
fn rewrite(rt: &HostRuntime, name: &[u8], i: usize) -> Result<(), Failure> {
    let mut new = [0; NAME_MOST];
    let new_size = argument(rt, i, &mut new);
    let mut journal = [0; FILE_MOST + 1];
    let mut out = [0; OUTPUT_MOST];
    let length = read_journal(rt, name, &mut journal)?;
    let size = plan::rewrite(&journal[..length], &mut out)?;
    let blocks = &out[..size];
    if replace(rt, &new[..new_size], blocks)? {
        let found = journal::read(blocks)?;
        print_totals(rt, found.blocks, found.messages);
    }
    Ok(())
}

// Puts an argument at the front of a word, and gives its length: 0 where it is missing, or longer than the word.
fn argument(rt: &HostRuntime, i: usize, word: &mut [u8]) -> usize
    ensures { result ≤ length word.new }
{
    rt.arg(i, word).unwrap_or(0)
}

// Whether there is an argument; argument 0 is the program's own name.
// kept: `load` has the same but for the length; no library reads arguments.
#[inline(never)]
fn is_there(rt: &HostRuntime, i: usize) -> bool {
    let mut word = [0; NAME_MOST];
    !matches!(rt.arg(i, &mut word), Err(FillError::NotPresent))
}

// Where the command that begins at an argument ends, before `then` or behind the last argument, and whether `then` is there.
#[inline(never)]
fn command_end(rt: &HostRuntime, from: usize) -> (usize, bool)
    ensures { from ≤ result.0 }
{
    let mut word = [0; NAME_MOST];
    for i in from..usize::MAX {
        let size = argument(rt, i, &mut word);
        if &word[..size] == b"then".as_slice() {
            return (i, true);
        }
        if size == 0 && !is_there(rt, i) {
            return (i, false);
        }
    }
    (usize::MAX, false)
}

fn usage(rt: &HostRuntime) {
    let _ = println!(rt;
        "usage: journal_tool list FILE.. | append FILE | plan FILE | rewrite FILE NEW [then ..]"
    );
}

// What is asked.
#[derive(Clone, Copy)]
enum Command {
    List,
    Append,
    Plan,
    Rewrite,
}

// The command that an argument is, with so many files behind it.
#[inline(never)]
fn asked(rt: &HostRuntime, i: usize, files: usize) -> Option<Command> {
    let mut word = [0; NAME_MOST];
    let size = argument(rt, i, &mut word);
    match (path(&word[..size]), files) {
        (Ok("list"), _) => Some(Command::List),
        (Ok("append"), 1) => Some(Command::Append),
        (Ok("plan"), 1) => Some(Command::Plan),
        (Ok("rewrite"), 2) => Some(Command::Rewrite),
        _ => None,
    }
}

// Runs a command on the file that an argument names; of a rewriting the argument behind it names the new one.
#[inline(never)]
fn run_on(rt: &HostRuntime, command: Command, i: usize) {
    let mut name = [0; NAME_MOST];
    let size = argument(rt, i, &mut name);
    let name = &name[..size];
    let done = match command {
        Command::List => list(rt, name),
        Command::Append => append(rt, name),
        Command::Plan => plan(rt, name),
        Command::Rewrite => rewrite(rt, name, i.saturating_add(1)),
    };
    report(rt, done);
}

// Runs the command that begins at an argument and ends before another.
fn run(rt: &HostRuntime, from: usize, end: usize) {
    if end <= from {
        usage(rt);
        return;
    }
    let first = from + 1;
    match asked(rt, from, end - first) {
        Some(Command::List) => {
            for i in first..end {
                run_on(rt, Command::List, i);
            }
        }
        Some(command) => run_on(rt, command, first),
        None => usage(rt),
    }
}

fn main(rt: HostRuntime) {
    // Without the program's own name there is no command.
    if !is_there(&rt, 0) {
        return;
    }
    let mut from = 1;
    'commands: for _ in 0..usize::MAX {
        let (end, goes_on) = command_end(&rt, from);
        run(&rt, from, end);
        if !goes_on {
            return;
        }
        from = end.saturating_add(1);
    }
}
