// What programs in other languages call: packets read and written, a schedule played, and the lines of a load, on numbers and
// byte slices.
#![tactic(auto)]

ghost use Rattle.std.specs.Prelude.{◌≡◌, [], ◌∷◌, length, get_or};
ghost use Rattle.group.specs.Lent.{front};
ghost use Rattle.packet.specs.Packet.{read_of, write_of};
ghost use Rattle.playback.specs.Shown.{shown_of};
ghost use Rattle.player.specs.Play.{play_of};
ghost use Rattle.workload.specs.Calls.{load_at, open_of, next_of};
ghost use Rattle.boundary.specs.Codes.{read_code, fields_after, write_code, header_with};

use generator::Generator;
use group::MemberNumber;
use packet::Header;
use workload::Load;

// Reads a packet: 0 and its fields (kind, member, group, A, B, C), or the number of the refusal.
#[unsafe(no_mangle)]
pub extern "C" fn boundary_read(packet: &[u8], fields: &mut [u32; 6]) -> u8
    ensures answer { result ≡ read_code (read_of packet.now) }
    ensures lent { fields.new ≡ fields_after (read_of packet.now) fields.old }
{
    match packet::read(packet) {
        Ok(h) => {
            *fields = [h.kind as u32, h.member.0 as u32, h.group, h.a, h.b, h.c];
            0
        }
        Err(q) => q.number(),
    }
}

// Writes a packet: how many bytes, at least 20, or the number of the refusal, at most 18.
#[unsafe(no_mangle)]
pub extern "C" fn boundary_write(
    kind: u8,
    member: u8,
    group: u32,
    a: u32,
    b: u32,
    c: u32,
    payload: &[u8],
    out: &mut [u8],
) -> usize
    ensures answer { result ≡ write_code (write_of (header_with kind member group a b c) payload.now (length out.old)).answer }
    ensures lent { out.new ≡ front (write_of (header_with kind member group a b c) payload.now (length out.old)).bytes out.old }
{
    let h = Header {
        kind,
        member: MemberNumber(member),
        group,
        a,
        b,
        c,
    };
    match packet::write(h, payload, out) {
        Ok(k) => k,
        Err(q) => q.number() as usize,
    }
}

// Plays a schedule: what it prints goes to the front of the output, as much as has room; how many bytes that are.
#[unsafe(no_mangle)]
pub extern "C" fn boundary_play(input: &[u8], out: &mut [u8]) -> usize
    ensures size { result ≡ length (shown_of (play_of input.now) (length out.old)) }
    ensures lent { out.new ≡ front (shown_of (play_of input.now) (length out.old)) out.old }
{
    playback::play(input, out)
}

// Opens a load: its first line goes to the front of the lent line. How many bytes it has, 0 where n is refused by question 18.
#[unsafe(no_mangle)]
pub extern "C" fn boundary_load_open(
    seed: u32,
    n: u32,
    group: u32,
    line: &mut [u8; Load::LINE],
) -> usize
    ensures size { result ≡ length (open_of seed n group).bytes }
    ensures lent { line.new ≡ front (open_of seed n group).bytes line.old }
{
    let step = Load::open(seed, n, group, line);
    step.written
}

// The next line of a load of n members, which stands at the lent state: the line goes to the front of the lent one, and the
// state becomes that behind it. How many bytes it has, 0 where n is refused by question 1.
#[unsafe(no_mangle)]
pub extern "C" fn boundary_load_next(
    state: &mut [u32; 1],
    n: u8,
    line: &mut [u8; Load::LINE],
) -> usize
    ensures size { result ≡ length (next_of (load_at (get_or state.old 0 0) n)).bytes }
    ensures lent { line.new ≡ front (next_of (load_at (get_or state.old 0 0) n)).bytes line.old }
    ensures state { state.new ≡ (next_of (load_at (get_or state.old 0 0) n)).load.generator.state ∷ [] }
{
    let load = Load {
        generator: Generator { state: state[0] },
        n,
    };
    let step = load.next(line);
    *state = [step.load.generator.state];
    step.written
}
