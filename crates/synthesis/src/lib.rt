// Subband synthesis: from 576 samples and a channel's sixteen blocks of 64 to 576 outputs and the next sixteen blocks. The blocks
// of all slots stand in one queue (docs/DECISIONS.md, 10).

#![tactic(auto)]

ghost use Rattle.std.specs.Prelude.{◌≡◌, true, false, not, ◌+◌, ◌-◌, ◌*◌, ◌/◌, ◌%◌, ◌≤◌, length, drop, IfOk};
ghost use Rattle.std.specs.Float.Ieee.{is_nan, add, mul};
ghost use Rattle.std.specs.Float.{binary32};
ghost use Rattle.laws.specs.Checks.{all_to, first, folded};
ghost use Rattle.laws.specs.Lists.{at, tab, filled};
ghost use Rattle.refusals.specs.Refusals.{told};
ghost use Rattle.synthesis_tables.specs.Window.{window as windowTable};
ghost use Rattle.synthesis.specs.Synthesis.{slot_output, blocks_after, output_at, synthesized, level as levelOf, peak_of, synthesis_checks, peak_answered, SynthesisAnswer};

use matrixing::queue_blocks;
use refusals::{Refusal, refuse_if};
use synthesis_tables::SynthesisTables;

// Adds 32 numbers of the blocks, from place `start` on, times 32 of the window, from place `place` on, to the sums.
fn add_windowed(
    window: &[f32; 512],
    place: usize,
    blocks: &[f32],
    start: usize,
    sums: &mut [f32; 32],
)
    requires { (place + 32 ≤ 512) × (start + 32 ≤ length blocks.now) }
    ensures { sums.new ≡ tab 32 (λ k. add binary32 (at sums.old k) (mul binary32 (at blocks.now (start + k)) (at window.now (place + k)))) }
{
    for k in 0..32 {
        sums[k] += blocks[start + k] * window[place + k];
    }
}

// The 32 outputs of a slot, from the blocks after it: from an even block its first half, from an odd one its second.
fn slot_outputs(window: &[f32; 512], blocks: &[f32], out: &mut [f32])
    requires { (window.now ≡ windowTable) × (1024 ≤ length blocks.now) × (32 ≤ length out.old) }
    ensures { out.new ≡ filled 32 (slot_output blocks.now) out.old }
{
    let mut sums = [0.0f32; 32];
    for i in 0..8 {
        add_windowed(window, 64 * i, blocks, 128 * i, &mut sums);
        add_windowed(window, 64 * i + 32, blocks, 128 * i + 96, &mut sums);
    }
    out[..32].copy_from_slice(&sums);
}

// The outputs of all slots: slot n has its blocks in the queue from block 17 - n on.
fn all_outputs(window: &[f32; 512], queue: &[f32; 2176], out: &mut [f32])
    requires { (window.now ≡ windowTable) × (576 ≤ length out.old) }
    ensures { out.new ≡ filled 576 (λ p. slot_output (drop (64 * (17 - p / 32)) queue.now) (p % 32)) out.old }
{
    for n in 0..18 {
        slot_outputs(window, &queue[64 * (17 - n)..], &mut out[32 * n..]);
    }
}

// An output's bits without its sign. A NaN's cannot be read, so `number` says that it is none, if that is known.
fn level(x: f32, number: bool) -> u32
    requires { number ≡ true → is_nan x ≡ false }
    ensures { result ≡ levelOf x }
{
    let bits = if number {
        f32::to_bits(x)
    } else {
        laws::bits_of(x)
    };
    bits % 0x8000_0000
}

// Whether no NaN is among the 576 outputs in front. Here and below: no way out in the middle, and a number of turns that is known,
// so that the machine takes eight outputs at once and none by itself.
fn no_nan(outputs: &[f32]) -> bool
    requires { 576 ≤ length outputs.now }
    ensures { result ≡ all_to 576 (λ p. not (is_nan (at outputs.now p))) }
{
    let mut bad: u32 = 0;
    for x in &outputs[..576] {
        if *x != *x {
            bad = 1;
        }
    }
    bad == 0
}

// The highest of their levels. `numbers` is the same for all, so the machine asks it once.
fn highest_level(outputs: &[f32], numbers: bool) -> u32
    requires in_bounds { 576 ≤ length outputs.now }
    requires p_value { numbers ≡ true → all_to 576 (λ p. not (is_nan (at outputs.now p))) ≡ true }
    ensures { result ≡ peak_of (at outputs.now) }
{
    let mut highest: u32 = 0;
    for output in &outputs[..576] {
        highest = highest.max(level(*output, numbers));
    }
    highest
}

// The peak of the 576 outputs in front. A test of them all for NaNs, and then no choice for each, takes less than the choices.
fn peak(outputs: &[f32]) -> u32
    requires { 576 ≤ length outputs.now }
    ensures { result ≡ peak_of (at outputs.now) }
{
    highest_level(outputs, no_nan(outputs))
}

// The whole step, for a caller that has the tables: all 18 slots, with any samples and blocks. Answers the outputs' peak. Tests
// nothing.
pub fn synthesis_step(
    tables: &SynthesisTables,
    samples: &[f32; 576],
    blocks: &mut [f32; 1024],
    out: &mut [f32],
) -> u32
    requires { 576 ≤ length out.old }
    ensures blocks { blocks.new ≡ blocks_after samples.now blocks.old 18 }
    ensures outputs { out.new ≡ synthesized samples.now blocks.old out.old }
    ensures peak { result ≡ peak_of (output_at samples.now blocks.old) }
{
    let mut queue = [0.0f32; 2176];
    queue_blocks(&tables.matrixing, samples, blocks, &mut queue);
    // a window of its own: with the lent one the compiler makes 4,900 instructions more of two channels
    let window = tables.window;
    all_outputs(&window, &queue, out);
    blocks.copy_from_slice(&queue[..1024]);
    peak(out)
}

// The refusal of the first check that fails. Where none does, the room is as long as the step wants it.
#[tactic(auto, unfolding(laws::specs::Checks::next))]
fn accepted(samples: &[f32], blocks: &[f32], out: &[f32]) -> Result<(), Refusal>
    ensures number { told result ≡ first (synthesis_checks samples.now blocks.now out.now) }
    ensures in_order { told result ≡ folded 0 (synthesis_checks samples.now blocks.now out.now) }
    ensures room { IfOk result (λ u. 576 ≤ length out.now) }
{
    refuse_if(!laws::all_finite(samples), Refusal::SamplesNotFinite)?;
    refuse_if(!laws::all_finite(blocks), Refusal::HistoryNotFinite)?;
    refuse_if(out.len() < 576, Refusal::RoomTooShort)
}

// Subband synthesis of a channel, which answers the peak of its 576 outputs. A refusal leaves the blocks and the room as lent.
pub fn subband_synthesis(
    samples: &[f32; 576],
    blocks: &mut [f32; 1024],
    out: &mut [f32],
) -> Result<u32, Refusal>
    ensures { SynthesisAnswer samples.now blocks.old out.old (told result) (peak_answered result, blocks.new, out.new) }
{
    accepted(samples, blocks, out)?;
    Ok(synthesis_step(&SynthesisTables::new(), samples, blocks, out))
}
