// The whole granule: from a granule's whole numbers and a history to outputs, peaks and the next history. A granule that is not refused goes on
// as `Accepted`, which carries that it passed the checks.

#![tactic(auto)]

ghost use Rattle.std.specs.Prelude.{◌≡◌, true, cond, ◌≤◌, length};
ghost use Rattle.laws.specs.Lists.{filled};
ghost use Rattle.requantize.specs.Requantize.{requantized};
ghost use Rattle.requantize.specs.Parts.{low_sizes, multiplied, Sized};
ghost use Rattle.synthesis.specs.Synthesis.{peak_of};
ghost use Rattle.granule.specs.Granule.{two, output_count};
ghost use Rattle.backend.specs.Whole.{used_small, used_low, left_samples, right_samples, channel_after, channel_output, pair_at, history_after, granule_room, granule_peaks};
ghost use Rattle.backend.specs.Calls.{lent, as_answer, told_answer, answer};

use granule::{Accepted, Granule};
use history::{Channel, History};
use refusals::Refusal;
use side_info::{BlockType, Edition};
use synthesis_tables::SynthesisTables;
use tables::Transform;

// Whether the small table of powers has the numbers of each used channel. (This and the next differ in the test that they make: handed
// over as a closure, its promise would take more lines than they have.)
fn all_small(g: &Granule) -> bool
    ensures { result ≡ used_small (two g.now) g.now.left.spectrum g.now.right.spectrum }
{
    side_info::numbers_small(&g.left.spectrum)
        && (!g.two() || side_info::numbers_small(&g.right.spectrum))
}

// Whether the first part of the table of powers has the sizes of each used channel.
fn all_low(g: &Granule) -> bool
    ensures { result ≡ used_low (two g.now) g.now.left.spectrum g.now.right.spectrum }
{
    side_info::numbers_low(&g.left.spectrum)
        && (!g.two() || side_info::numbers_low(&g.right.spectrum))
}

// The numbers of the used channels as floats, by the small table. A table is built once for both.
fn by_signed_powers(a: Accepted<'_>, left: &mut [f32; 576], right: &mut [f32; 576])
    requires { used_small (two a.granule.now) a.granule.now.left.spectrum a.granule.now.right.spectrum ≡ true }
    ensures left { left.new ≡ requantized a.entry.granule.now.table a.entry.granule.now.left.side a.entry.granule.now.left.spectrum }
    ensures right { two a.entry.granule.now ≡ true → right.new ≡ requantized a.entry.granule.now.table a.entry.granule.now.right.side a.entry.granule.now.right.spectrum }
{
    let g = a.granule;
    let powers = power_table::signed_powers();
    requantize::small_step(&powers, a.table, g.left.side, &g.left.spectrum, left);
    if g.two() {
        requantize::small_step(&powers, a.table, g.right.side, &g.right.spectrum, right);
    }
}

// The sizes of the used channels' numbers as floats, by the first part of the table of powers: 1 stands in for a size that it does not
// have. Never part of its caller, here and in the next: the table would then stay on the stack beside all that the stages have there.
#[inline(never)]
fn by_low_powers(a: Accepted<'_>, left: &mut [f32; 576], right: &mut [f32; 576])
    ensures left { left.new ≡ requantized a.entry.granule.now.table a.entry.granule.now.left.side (low_sizes a.entry.granule.now.left.spectrum) }
    ensures right { two a.entry.granule.now ≡ true → right.new ≡ requantized a.entry.granule.now.table a.entry.granule.now.right.side (low_sizes a.entry.granule.now.right.spectrum) }
{
    let g = a.granule;
    let powers = power_table::low_powers();
    requantize::low_step(&powers, a.table, g.left.side, &g.left.spectrum, left);
    if g.two() {
        requantize::low_step(&powers, a.table, g.right.side, &g.right.spectrum, right);
    }
}

// The sizes that it does not have, by the second part. It stands on the stack after the first, and not beside it (docs/DECISIONS.md, 37).
#[inline(never)]
fn by_high_powers(a: Accepted<'_>, left: &mut [f32; 576], right: &mut [f32; 576])
    ensures left { left.new ≡ multiplied a.entry.granule.now.left.spectrum left.old }
    ensures right { two a.entry.granule.now ≡ true → right.new ≡ multiplied a.entry.granule.now.right.spectrum right.old }
{
    let g = a.granule;
    let powers = power_table::high_powers();
    requantize::high_step(&powers, &g.left.spectrum, left);
    if g.two() {
        requantize::high_step(&powers, &g.right.spectrum, right);
    }
}

// The sizes as floats, by both parts if both are needed.
fn by_parts(a: Accepted<'_>, left: &mut [f32; 576], right: &mut [f32; 576])
    ensures left { Sized a.entry.granule.now.table a.entry.granule.now.left.side a.entry.granule.now.left.spectrum left.new }
    ensures right { two a.entry.granule.now ≡ true → Sized a.entry.granule.now.table a.entry.granule.now.right.side a.entry.granule.now.right.spectrum right.new }
{
    by_low_powers(a, left, right);
    if !all_low(a.granule) {
        by_high_powers(a, left, right);
    }
}

// The numbers of the used channels as floats, by the small table, or by the parts of the whole one and with signs then.
fn granule_numbers(a: Accepted<'_>, left: &mut [f32; 576], right: &mut [f32; 576])
    ensures left { left.new ≡ requantized a.entry.granule.now.table a.entry.granule.now.left.side a.entry.granule.now.left.spectrum }
    ensures right { two a.entry.granule.now ≡ true → right.new ≡ requantized a.entry.granule.now.table a.entry.granule.now.right.side a.entry.granule.now.right.spectrum }
{
    let g = a.granule;
    if all_small(g) {
        by_signed_powers(a, left, right);
        return;
    }
    by_parts(a, left, right);
    requantize::sign_step(a.table, g.left.side, &g.left.spectrum, left);
    if g.two() {
        requantize::sign_step(a.table, g.right.side, &g.right.spectrum, right);
    }
}

// The samples of the channels that a granule uses, after stereo.
fn granule_samples(a: Accepted<'_>, left: &mut [f32; 576], right: &mut [f32; 576])
    ensures left { left.new ≡ left_samples a.entry.granule.now }
    ensures right { two a.entry.granule.now ≡ true → right.new ≡ right_samples a.entry.granule.now }
{
    granule_numbers(a, left, right);
    let g = a.granule;
    let l = g.left.side;
    reorder::reorder_step(a.edition, a.table, l.block_type, l.count1, left);
    if !g.two() {
        return;
    }
    let r = g.right.side;
    reorder::reorder_step(a.edition, a.table, r.block_type, r.count1, right);
    stereo::stereo_step(
        a.edition,
        a.table,
        g.mid_side,
        g.intensity,
        l,
        r,
        left,
        right,
    );
}

// From a channel's samples to its outputs, at the front of the room, and their peak. Its history becomes the next one.
fn channel_step(
    transform: &Transform,
    synthesis: &SynthesisTables,
    edition: Edition,
    kind: BlockType,
    channel: &mut Channel,
    samples: &mut [f32; 576],
    out: &mut [f32],
) -> u32
    requires { 576 ≤ length out.old }
    ensures history { channel.new ≡ channel_after edition kind samples.old channel.old }
    ensures outputs { out.new ≡ filled 576 (channel_output edition kind samples.old channel.old) out.old }
    ensures peak { result ≡ peak_of (channel_output edition kind samples.old channel.old) }
{
    antialias::antialias_step(kind, samples);
    hybrid::hybrid_step(transform, edition, kind, &mut channel.overlap, samples);
    inversion::inversion_step(samples);
    synthesis::synthesis_step(synthesis, samples, &mut channel.blocks, out)
}

// A granule's peaks, as synthesis answers them: 0 for a channel that is not used.
#[derive(Clone, Copy, Debug, PartialEq, Eq)]
pub struct Peaks {
    pub left: u32,
    pub right: u32,
}

// The channels that a granule uses, one after the other, with the tables built once; the output's second part is lent on to synthesis of
// channel 1.
fn granule_step(
    both: bool,
    edition: Edition,
    kind: BlockType,
    right_kind: BlockType,
    left: &mut [f32; 576],
    right: &mut [f32; 576],
    h: &mut History,
    out: &mut [f32],
) -> Peaks
    requires { cond both 1152 576 ≤ length out.old }
    ensures left { h.new.left ≡ channel_after edition kind left.old h.old.left }
    ensures right { h.new.right ≡ cond both (channel_after edition right_kind right.old h.old.right) h.old.right }
    ensures outputs { out.new ≡ cond both
        (filled 1152 (pair_at (channel_output edition kind left.old h.old.left) (channel_output edition right_kind right.old h.old.right)) out.old)
        (filled 576 (channel_output edition kind left.old h.old.left) out.old) }
    ensures peaks { (result.left ≡ peak_of (channel_output edition kind left.old h.old.left))
        × (result.right ≡ cond both (peak_of (channel_output edition right_kind right.old h.old.right)) 0) }
{
    let transform = Transform::new();
    let synthesis = SynthesisTables::new();
    let left_peak = channel_step(
        &transform,
        &synthesis,
        edition,
        kind,
        &mut h.left,
        left,
        out,
    );
    if !both {
        return Peaks {
            left: left_peak,
            right: 0,
        };
    }
    let right_peak = channel_step(
        &transform,
        &synthesis,
        edition,
        right_kind,
        &mut h.right,
        right,
        &mut out[576..],
    );
    Peaks {
        left: left_peak,
        right: right_peak,
    }
}

// A granule that is not refused: the outputs at the front of the room, and their peaks. The history becomes the next one.
fn accepted_step(a: Accepted<'_>, h: &mut History, out: &mut [f32]) -> Peaks
    requires { output_count a.granule.now ≤ length out.old }
    ensures history { h.new ≡ history_after a.entry.granule.now h.old }
    ensures outputs { out.new ≡ granule_room a.entry.granule.now h.old out.old }
    ensures peaks { result ≡ granule_peaks a.entry.granule.now h.old }
{
    let g = a.granule;
    let mut left = [0.0f32; 576];
    let mut right = [0.0f32; 576];
    granule_samples(a, &mut left, &mut right);
    granule_step(
        g.two(),
        a.edition,
        g.left.side.block_type,
        g.right.side.block_type,
        &mut left,
        &mut right,
        h,
        out,
    )
}

// What is told of a granule that was rendered with the history in place: how many outputs were written, and their peaks. (A count and no
// slice of the room: that is the caller's, and goes back to C.)
#[derive(Clone, Copy, Debug, PartialEq, Eq)]
pub struct Told {
    pub written: usize,
    pub peaks: Peaks,
}

// The whole granule with the history in place: the room's first 576 or 1,152 numbers, each channel's peak, and the next history where the one
// before it stood. Channel 1's outputs begin at place 576. A refusal leaves room and history as they were, and a channel's arrays are not
// written where the granule does not use it. No copy of a history stands on the stack (docs/DECISIONS.md, 43).
pub fn render_in_place(h: &mut History, g: &Granule, out: &mut [f32]) -> Result<Told, Refusal>
    ensures { told_answer result h.new out.new ≡ answer (lent g.now out.old) h.old }
{
    let accepted = g.accepted(h, out.len())?;
    let peaks = accepted_step(accepted, h, out);
    Ok(Told {
        written: g.output_count(),
        peaks,
    })
}

// What is answered beside the next history where that is a value.
#[derive(Clone, Copy)]
pub struct Rendered {
    pub written: usize,
    pub peaks: Peaks,
    pub history: History,
}

// The same from a history by value, for a caller that keeps the one before. A refusal leaves the room as it was.
pub fn render(h: History, g: &Granule, out: &mut [f32]) -> Result<Rendered, Refusal>
    ensures { as_answer h result out.new ≡ answer (lent g.now out.old) h }
{
    let mut history = h;
    let told = render_in_place(&mut history, g, out)?;
    Ok(Rendered {
        written: told.written,
        peaks: told.peaks,
        history,
    })
}
