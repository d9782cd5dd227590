// Checks the window as it is compiled: entries i and 512 - i, for i from 1 to 255, have equal size, and equal sign
// exactly where 64 divides i. The proofs say so of the definition; this program says it of the machine's numbers.

#![tactic(auto)]

ghost use Rattle.std.specs.Prelude.{◌≡◌, ◌≤◌};

use std::io;

// Whether the numbers a and b, entries i and 512 - i, break the rule. A comparison does not see a zero's sign, so a zero counts as a break:
// the window has one at place 0 alone.
fn breaks(i: usize, a: f32, b: f32) -> bool {
    a == 0.0 || if i % 64 == 0 { a != b } else { a != -b }
}

// How many pairs were looked at, and how many of them break the rule.
#[derive(Clone, Copy, Debug, PartialEq, Eq)]
struct Tally {
    pairs: u64,
    broken: u64,
}

fn count(window: &[f32; 512]) -> Tally
    ensures { (result.pairs ≡ 255) × (result.broken ≤ 255) }
{
    let mut pairs = 0;
    let mut broken = 0;
    for i in 1..256 {
        pairs += 1;
        if breaks(i, window[i], window[512 - i]) {
            broken += 1;
        }
    }
    Tally { pairs, broken }
}

fn main(rt: HostRuntime) -> io::Result<()> {
    let Tally { pairs, broken } = count(&synthesis_tables::window_table());
    println!(rt; "window: {pairs} pairs, {broken} break the rule")
}
