// How a payload is kept: `copy` lays it at the front of its place, and `fill` lays zeros behind it. What a kept message is stands in specs/.
#![tactic(auto)]

ghost use Rattle.std.specs.Prelude.{◌≡◌, ◌≤◌, length};
ghost use Rattle.group.specs.Lent.{front};
ghost use Rattle.message.specs.Message.{all_zero, zeroed_from};

// kept: docs/MAP.md names both functions for K3, and their clauses are in the words of the callers' contracts.
// Copies bytes to the front of the part that is lent; what lies behind them keeps its value.
pub fn copy(bytes: &[u8], part: &mut [u8])
    requires { length bytes.now ≤ length part.old }
    ensures { part.new ≡ front bytes.now part.old }
{
    // kept: a loop by index, since `copy_from_slice` calls `memmove`, which C without a library need not have.
    for (i, &byte) in bytes.iter().enumerate() {
        part[i] = byte;
    }
}

// Fills with zeros from an index on; what lies before it keeps its value.
pub fn fill(part: &mut [u8], from: usize)
    requires { from ≤ length part.old }
    ensures { part.new ≡ zeroed_from from part.old }
{
    part[from..].fill(0);
}

// Whether all bytes are zero: all of them joined by `|` are.
// kept: a loop with no exit, which becomes a few vector instructions; `all` stops at the first other byte, and took ten times as long.
#[tactic(auto, using(crate::proofs::Zero::zero_next), unfolding(crate::specs::Message::all_zero))]
pub fn zeros(bytes: &[u8]) -> bool
    ensures { result ≡ all_zero bytes.now }
{
    let mut seen = 0;
    for byte in bytes {
        seen |= byte;
    }
    seen == 0
}
