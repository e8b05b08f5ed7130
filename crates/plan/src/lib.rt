// The plan that a journal's messages come to, and the journal rewritten to the fewest records that give the same plan.
#![tactic(auto)]

ghost use Rattle.std.specs.Prelude.{◌≡◌, [], ◌+◌, ◌*◌, ◌-◌, ◌/◌, ◌≤◌, ◌<◌, length, take};
ghost use Rattle.group.specs.Lent.{front};
ghost use Rattle.text.specs.LaidAt.{LaidAt};
ghost use Rattle.journal.specs.Limits.{block_size, number_size};
ghost use Rattle.journal.specs.Laws.{StandsIn};
ghost use Rattle.journal.specs.Walk.{spot_at, message_on};
ghost use Rattle.plan.specs.Calls.{Lays, FoundIn, laid_in, plan_of, rewrite_of};
ghost use Rattle.plan.specs.Units.{sets};
ghost use Rattle.plan.specs.Wording.{wording_of};
ghost use Rattle.plan.specs.Kept.{records_room};
ghost use Rattle.plan.specs.Pack.{Apart, sorted, AllSpotted, messages_at, packs, fresh_packer, numbered, grown_to, closed_in, kept_by, blocks_for, Packed};
ghost use Rattle.plan.specs.Table.{units_most, starts_of, inserted, Noted, NotedSpot, rows_in, Gathered, spotted, length_before, Stands, AllStand, row_at, plan_at};

use group::{Refusal, SequenceNumber};
use journal::{Block, COMPACT_MARK, Cursor, Found, Record, Spot};

// The most units of a plan.
pub const UNITS: usize = 512;

fn units_most() -> usize
    ensures { result ≡ units_most }
{
    UNITS
}

// A row of a plan: a unit, and where its latest payload stands in the journal.
#[derive(Clone, Copy)]
struct Row {
    unit: u16,
    start: usize,
}

// The rows of a plan while its journal is read, by rising unit: so many of the table's are used.
#[derive(Drop)]
struct Table {
    rows: [Row; UNITS],
    count: usize,

    ghost few: { count ≤ units_most },
}

// The length of the payload that stands at an index of a journal.
fn length_before(journal: &[u8], start: usize) -> usize
    requires { Stands journal.now start }
    ensures { (result ≡ length_before journal.now start) × (result < 65536) }
{
    big_endian::u16_at(journal, start - 2) as usize
}

// How many bytes the plan of some rows has.
fn plan_size(journal: &[u8], rows: &[Row]) -> usize
    requires { (length rows.now ≤ units_most) × AllStand journal.now (starts_of rows.now) }
    ensures { result ≡ length (plan_at journal.now (starts_of rows.now)) }
{
    let mut size = 0;
    for row in rows {
        size += length_before(journal, row.start) + 1;
    }
    size
}

// Lays a row: the unit's number, the description's length, the description.
fn put_row(journal: &[u8], start: usize, out: &mut [u8], at: usize) -> usize
    requires { Stands journal.now start × (at + length_before journal.now start + 1 ≤ length out.old) }
    ensures { LaidAt at (row_at journal.now start) out.old out.new result }
{
    let length = length_before(journal, start);
    let unit = big_endian::u16_bytes(big_endian::u16_at(journal, start + 1));
    let size = big_endian::u16_bytes((length - 3) as u16);
    let behind_unit = text::put_text(&unit, out, at);
    let behind_size = text::put_text(&size, out, behind_unit);
    text::put_text(&journal[start + 3..start + length], out, behind_size)
}

// Lays the plan of some rows at the front of the lent output.
fn put_plan(journal: &[u8], rows: &[Row], out: &mut [u8])
    requires { AllStand journal.now (starts_of rows.now) × (length (plan_at journal.now (starts_of rows.now)) ≤ length out.old) }
    ensures { out.new ≡ front (plan_at journal.now (starts_of rows.now)) out.old }
{
    let mut at = 0;
    for row in rows {
        at = put_row(journal, row.start, out, at);
    }
}

// Whether a record of the journal sets a unit.
fn sets_unit(journal: &[u8], spot: Spot) -> bool
    requires { StandsIn journal.now spot }
    ensures { result ≡ sets (spotted journal.now spot) }
{
    let start = spot.start + Record::HEAD;
    3 <= spot.end - start && journal[start] == 3
}

// Puts rows in order of where their payloads stand.
fn sort(rows: &mut [Row], count: usize)
    requires { (count ≤ length rows.old) × Apart (starts_of (take count rows.old)) }
    ensures { starts_of (take count rows.new) ≡ sorted [] (starts_of (take count rows.old)) }
{
    rows[..count].sort_unstable_by_key(|row| row.start);
}

// Puts a row at an index of a table of which so many rows are used; those from there on move one up.
fn insert(rows: &mut [Row], count: usize, at: usize, row: Row)
    requires { (at ≤ count) × (count < length rows.old) }
    ensures { take (count + 1) rows.new ≡ inserted at row (take count rows.old) }
{
    // kept: a loop by index, since `copy_within` calls `memmove`, which C without a library need not have.
    for k in (at..count).rev() {
        rows[k + 1] = rows[k];
    }
    rows[at] = row;
}

impl Table {
    // A table of no rows.
    fn new() -> Self
        ensures { take result.count result.rows ≡ [] }
    {
        Table {
            rows: [Row { unit: 0, start: 0 }; UNITS],
            count: 0,
        }
    }

    // The rows that are used.
    fn used(&self) -> &[Row]
        ensures { result.now ≡ take self.now.count self.now.rows }
    {
        &self.rows[..self.count]
    }

    // Puts a row in its unit's place, in place of that unit's row before it.
    fn note(&mut self, row: Row) -> Result<(), Refusal>
        ensures { Noted (take self.old.count self.old.rows) row result (take self.new.count self.new.rows) }
    {
        match self.rows[..self.count].binary_search_by_key(&row.unit, |other| other.unit) {
            Ok(i) => {
                self.rows[i] = row;
                Ok(())
            }
            Err(i) => {
                if self.count == UNITS {
                    return Err(Refusal::ManyUnits);
                }
                insert(&mut self.rows, self.count, i, row);
                self.count += 1;
                Ok(())
            }
        }
    }

    // Notes a record of the journal, if it sets a unit.
    fn note_spot(&mut self, journal: &[u8], spot: Spot) -> Result<(), Refusal>
        requires { StandsIn journal.now spot }
        ensures { NotedSpot journal.now spot (take self.old.count self.old.rows) result (take self.new.count self.new.rows) }
    {
        if sets_unit(journal, spot) {
            let start = spot.start + Record::HEAD;
            let unit = big_endian::u16_at(journal, start + 1);
            return self.note(Row { unit, start });
        }
        Ok(())
    }

    // Gathers the rows of a journal in which that was found; a unit more than the most ends it.
    fn gather(&mut self, journal: &[u8], found: Found) -> Result<(), Refusal>
        requires within { found.blocks * block_size ≤ length journal.now }
        requires fresh { take self.old.count self.old.rows ≡ [] }
        ensures { Gathered journal.now (rows_in journal.now found.blocks found.messages) result (take self.new.count self.new.rows) }
    {
        let mut cursor = Cursor::of(journal, found.blocks);
        'records: for _ in 0..found.messages {
            let Some((spot, next)) = cursor.next(journal) else {
                break;
            };
            self.note_spot(journal, spot)?;
            cursor = next;
        }
        Ok(())
    }

    // Puts the rows in order of where their payloads stand, which is that of their sequence numbers.
    fn sort_by_start(&mut self)
        requires { Apart (starts_of (take self.old.count self.old.rows)) }
        ensures { starts_of (take self.new.count self.new.rows) ≡ sorted [] (starts_of (take self.old.count self.old.rows)) }
    {
        sort(&mut self.rows, self.count);
    }
}

// Lays the plan of some rows at the front of the lent output, if there is room for it.
fn lay_plan(journal: &[u8], rows: &[Row], out: &mut [u8]) -> Result<usize, Refusal>
    requires { (length rows.now ≤ units_most) × AllStand journal.now (starts_of rows.now) }
    ensures { Lays (laid_in (plan_at journal.now (starts_of rows.now)) (length out.old)) result out.old out.new }
{
    let size = plan_size(journal, rows);
    if out.len() < size {
        return Err(Refusal::NoRoom);
    }
    put_plan(journal, rows, out);
    Ok(size)
}

// The record whose payload stands at an index of a journal, by walking over its block.
// kept: a `Spot` of zeros where none stands, since that is what `spot_at` of journal/specs/Walk.antt says; no caller meets it.
fn spot_at(journal: &[u8], start: usize) -> Spot
    requires { start / block_size * block_size + block_size ≤ length journal.now }
    ensures { result ≡ spot_at journal.now start }
{
    let none = Spot {
        number: SequenceNumber(0),
        start: 0,
        end: 0,
    };
    let mut cursor = Cursor::at(journal, start / Block::SIZE * Block::SIZE);
    'records: for _ in 0..Block::SIZE {
        let Some((spot, next)) = cursor.next(journal) else {
            break;
        };
        if spot.start + Record::HEAD == start {
            return spot;
        }
        cursor = next;
    }
    none
}

// Blocks being packed: the block in hand, its first number, the records in it and the bytes that they take, and how many blocks stand
// before it.
// kept: no ghost field for what `records` and `used` keep, since specs/Pack.antt names this type, and would import itself.
#[derive(Drop)]
struct Packer {
    hand: [u8; Block::SIZE],
    first: u32,
    records: usize,
    used: usize,
    blocks: usize,
}

// Lays a record of a journal, its number before it, at an index of the block in hand, and gives the index behind it.
fn put_numbered(journal: &[u8], spot: Spot, hand: &mut [u8], at: usize) -> usize
    requires { StandsIn journal.now spot × (at + number_size + (spot.end - spot.start) ≤ length hand.old) }
    ensures { LaidAt at (numbered (message_on journal.now spot)) hand.old hand.new result }
{
    let start = spot.start;
    let next = text::put_text(&big_endian::u32_bytes(spot.number.0), hand, at);
    let count = big_endian::u32_at(journal, start + 1);
    let payload = &journal[start + Record::HEAD..spot.end];
    journal::put_record(journal[start], count, payload, hand, next)
}

impl Packer {
    // No block, and no record in hand.
    fn new() -> Self
        ensures { result ≡ fresh_packer }
    {
        Packer {
            hand: [0; Block::SIZE],
            first: 0,
            records: 0,
            used: 0,
            blocks: 0,
        }
    }

    // One more record in hand, with that number and up to that index.
    fn grow(&mut self, number: u32, used: usize)
        requires { self.old.records ≤ records_room }
        ensures { self.new ≡ grown_to self.old number used }
    {
        if self.records == 0 {
            self.first = number;
        }
        self.records += 1;
        self.used = used;
    }

    // Lays the block in hand, made whole, behind the blocks before it, if there is room.
    fn close(&self, out: &mut [u8])
        requires { (self.now.records ≤ self.now.used) × (self.now.used ≤ records_room) }
        ensures { out.new ≡ closed_in self.now out.old }
    {
        if self.blocks < out.len() / Block::SIZE {
            let at = self.blocks * Block::SIZE;
            journal::put_block(
                COMPACT_MARK,
                self.first,
                self.records,
                &self.hand[..self.used],
                &mut out[at..at + Block::SIZE],
            );
        }
    }

    // Keeps a record: it goes behind the others, or the block in hand is closed and the record begins the next.
    fn keep(&mut self, journal: &[u8], spot: Spot, out: &mut [u8])
        requires stands_in { StandsIn journal.now spot }
        requires records_le_used { (self.old.records ≤ self.old.used) × (self.old.used ≤ records_room) × (self.old.blocks + 1 < 18446744073709551616) }
        ensures { packs self.new out.new ≡ kept_by (packs self.old out.old) (message_on journal.now spot) }
    {
        let number = spot.number.0;
        if self.used + Record::NUMBER + (spot.end - spot.start) <= Block::SUM - Block::RECORDS {
            let end = put_numbered(journal, spot, &mut self.hand, self.used);
            self.grow(number, end);
            return;
        }
        self.close(out);
        self.used = put_numbered(journal, spot, &mut self.hand, 0);
        self.first = number;
        self.records = 1;
        self.blocks += 1;
    }
}

// Packs the records of some rows into blocks, and gives how many there are; a block has its place in the output, and is laid there
// if there is room.
fn pack(journal: &[u8], rows: &[Row], out: &mut [u8]) -> usize
    requires { AllSpotted journal.now (starts_of rows.now) }
    ensures { Packed (blocks_for (messages_at journal.now (starts_of rows.now))) result out.old out.new }
{
    let mut packer = Packer::new();
    for row in rows {
        packer.keep(journal, spot_at(journal, row.start), out);
    }
    if packer.records == 0 {
        return packer.blocks;
    }
    packer.close(out);
    packer.blocks + 1
}

// Lays the blocks of some rows' records at the front of the lent output, if there is room for them: they are packed once to count
// them.
fn lay_blocks(journal: &[u8], rows: &[Row], out: &mut [u8]) -> Result<usize, Refusal>
    requires { AllSpotted journal.now (starts_of rows.now) }
    ensures { Lays (laid_in (blocks_for (messages_at journal.now (starts_of rows.now))) (length out.old)) result out.old out.new }
{
    let needed = pack(journal, rows, &mut []);
    if out.len() / Block::SIZE < needed {
        return Err(Refusal::NoRoom);
    }
    pack(journal, rows, out);
    Ok(needed * Block::SIZE)
}

// Rewrites a journal in which that was found.
fn rewrite_found(journal: &[u8], found: Found, out: &mut [u8]) -> Result<usize, Refusal>
    requires { FoundIn journal.now found.blocks found.messages }
    ensures { Lays (rewrite_of journal.now (length out.old)) result out.old out.new }
{
    let mut table = Table::new();
    table.gather(journal, found)?;
    table.sort_by_start();
    lay_blocks(journal, table.used(), out)
}

// Lays the plan of a journal in which that was found.
fn plan_found(journal: &[u8], found: Found, out: &mut [u8]) -> Result<usize, Refusal>
    requires { FoundIn journal.now found.blocks found.messages }
    ensures { Lays (plan_of journal.now (length out.old)) result out.old out.new }
{
    let mut table = Table::new();
    table.gather(journal, found)?;
    lay_plan(journal, table.used(), out)
}

// The plan of a journal: each unit's number, the length of its latest description, and that description, in order of unit number.
pub fn plan(journal: &[u8], out: &mut [u8]) -> Result<usize, Refusal>
    ensures answer { result ≡ (plan_of journal.now (length out.old)).answer }
    ensures lent { out.new ≡ front (plan_of journal.now (length out.old)).bytes out.old }
    ensures wording { wording_of result ≡ wording_of (plan_of journal.now (length out.old)).answer }
{
    let found = journal::read(journal)?;
    plan_found(journal, found, out)
}

// A journal rewritten to each unit's latest record, in compacted blocks.
pub fn rewrite(journal: &[u8], out: &mut [u8]) -> Result<usize, Refusal>
    ensures answer { result ≡ (rewrite_of journal.now (length out.old)).answer }
    ensures lent { out.new ≡ front (rewrite_of journal.now (length out.old)).bytes out.old }
    ensures wording { wording_of result ≡ wording_of (rewrite_of journal.now (length out.old)).answer }
{
    let found = journal::read(journal)?;
    rewrite_found(journal, found, out)
}
