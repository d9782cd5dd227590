// Runs: the places that one position scales are a long band's, or those of one window of a short band.

ghost use Rattle.std.specs.Prelude.{◌≡◌, true, false, cond, ℕ, ◌+◌, ◌*◌, ◌<◌, ◌≤◌, leb, eqb};
ghost use Rattle.std.specs.Float.Ieee.{mul};
ghost use Rattle.std.specs.Float.{binary32};
ghost use Rattle.laws.specs.Lists.{at, tab};
ghost use Rattle.intensity.specs.Intensity.{left_ratio, right_ratio, scaled, runs, run_count, Laid, IsRun, in_run, position_in, fit};

use crate::{Ratios, choose, ratios_of};
use side_info::Edition;

// A run of `count` places, `start`, `start + step` and so on, all of them within the channel, and the position that scales
// them. Its places stand side by side or are each third one.
#[derive(Clone, Copy)]
struct Run {
    start: usize,
    step: usize,
    count: usize,
    position: u8,
    ghost one_or_three: { step ≡ cond (eqb step 1) 1 3 },
    ghost inside: { (j : ℕ) → j < count → start + step * j < 576 },
}

// The position that a run is scaled by: its own where intensity applies, which is where its band begins at or above
// channel 1's count1, and else 7, which leaves it as it is.
fn band_position(count1: usize, begin: usize, p: u8) -> u8
    ensures { result ≡ cond (leb count1 begin) p 7 }
{
    if count1 <= begin { p } else { 7 }
}

// Scales the places of a run: both results come from the number of `from` there.
fn scale<const STEP: usize>(
    by: Ratios,
    run: Run,
    from: &[f32; 576],
    left: &mut [f32; 576],
    right: &mut [f32; 576],
)
    requires { run.step ≡ STEP }
    ensures left { left.new ≡ tab 576 (λ i. cond (in_run run.start run.step run.count i) (mul binary32 by.left (at from.now i)) (at left.old i)) }
    ensures right { right.new ≡ tab 576 (λ i. cond (in_run run.start run.step run.count i) (mul binary32 by.right (at from.now i)) (at right.old i)) }
{
    for j in 0..run.count {
        let i = run.start + STEP * j;
        let l = from[i];
        left[i] = by.left * l;
        right[i] = by.right * l;
    }
}

// The same. The step is a number in the loop, so that the machine takes several places at once.
fn scale_run(by: Ratios, run: Run, from: &[f32; 576], left: &mut [f32; 576], right: &mut [f32; 576])
    ensures left { left.new ≡ tab 576 (λ i. cond (in_run run.start run.step run.count i) (mul binary32 by.left (at from.now i)) (at left.old i)) }
    ensures right { right.new ≡ tab 576 (λ i. cond (in_run run.start run.step run.count i) (mul binary32 by.right (at from.now i)) (at right.old i)) }
{
    if run.step == 1 {
        scale::<1>(by, run, from, left, right);
    } else {
        scale::<3>(by, run, from, left, right);
    }
}

// What its position makes of those places.
fn scale_by_position(run: Run, from: &[f32; 576], left: &mut [f32; 576], right: &mut [f32; 576])
    requires { run.position ≤ 7 }
    ensures left { left.new ≡ tab 576 (λ i. scaled left_ratio (cond (in_run run.start run.step run.count i) run.position 7) (at from.now i) (at left.old i)) }
    ensures right { right.new ≡ tab 576 (λ i. scaled right_ratio (cond (in_run run.start run.step run.count i) run.position 7) (at from.now i) (at right.old i)) }
{
    if let Some(by) = ratios_of(run.position) {
        scale_run(by, run, from, left, right);
    }
}

// The long runs of a table's bands or the short ones, with their factors and channel 1's count1.
#[derive(Clone, Copy)]
pub struct BandRuns<'a> {
    pub edition: Edition,
    pub short: bool,
    pub starts: &'a [usize],
    pub factors: &'a [u8],
    pub count1: usize,
    ghost laid: { Laid (runs edition short starts.now factors.now count1) },
}

impl<'a> BandRuns<'a> {
    ghost use Rattle.intensity.specs.BandRuns.{runs_of};

    // Long run g: band g.
    fn long_run(&self, g: usize) -> Run
        requires { (self.now.short ≡ false) × (g < 22) }
        ensures { IsRun (runs_of self.now) g result.start result.step result.count result.position }
    {
        let start = self.starts[g];
        let count = self.starts[g + 1] - start;
        let position = band_position(self.count1, start, self.factors[g]);
        Run {
            start,
            step: 1,
            count,
            position,
        }
    }

    // Short run g: window g % 3 of band g / 3. In edition 1 its numbers are said to stand side by side; after reorder each third is one.
    fn short_run(&self, g: usize) -> Run
        requires { (self.now.short ≡ true) × (g < 39) }
        ensures { IsRun (runs_of self.now) g result.start result.step result.count result.position }
    {
        let k = g / 3;
        let begin = 3 * self.starts[k];
        let count = self.starts[k + 1] - self.starts[k];
        let position = band_position(self.count1, begin, self.factors[g]);
        match self.edition {
            Edition::First => Run {
                start: begin + g % 3 * count,
                step: 1,
                count,
                position,
            },
            Edition::Second => Run {
                start: begin + g % 3,
                step: 3,
                count,
                position,
            },
        }
    }

    fn run(&self, g: usize) -> Run
        requires { g < run_count self.now.short }
        ensures { IsRun (runs_of self.now) g result.start result.step result.count result.position }
    {
        if self.short {
            self.short_run(g)
        } else {
            self.long_run(g)
        }
    }

    // Whether each run from `from` on and below `to` to which intensity applies has a position that its choice does not refuse.
    // One to which it does not apply has position 7, which is never refused.
    pub fn fit(&self, from: usize, to: usize) -> bool
        requires { (from ≤ to) × (to ≤ run_count self.now.short) }
        ensures { result ≡ fit (runs_of self.now) from to }
    {
        for g in from..to {
            if choose(self.run(g).position).is_err() {
                return false;
            }
        }
        true
    }

    // Intensity on the runs from `first` on and below `to`.
    pub fn scale(
        &self,
        first: usize,
        to: usize,
        from: &[f32; 576],
        left: &mut [f32; 576],
        right: &mut [f32; 576],
    )
        requires { (first ≤ to) × (to ≤ run_count self.now.short) × (fit (runs_of self.now) first to ≡ true) }
        ensures left { left.new ≡ tab 576 (λ i. scaled left_ratio (position_in (runs_of self.now) first to i) (at from.now i) (at left.old i)) }
        ensures right { right.new ≡ tab 576 (λ i. scaled right_ratio (position_in (runs_of self.now) first to i) (at from.now i) (at right.old i)) }
    {
        for g in first..to {
            scale_by_position(self.run(g), from, left, right);
        }
    }
}
