// A case of each stage: its inputs, as tests/oracle/README.md lays them out, go through the stage, and what comes out is
// compared with the answer that follows them. Memory that a stage only writes holds 0.5 before. The last four stages can be
// asked for their step alone, as the whole granule calls it: it tests nothing, takes infinite numbers and NaNs too, and is
// said to answer 0.
ghost use Rattle.std.specs.Prelude.{◌+◌, ◌*◌, ◌≤◌, length};

use refusals::{Refusal, told as told_of};
use side_info::{BlockType, SideInfo};
use synthesis_tables::SynthesisTables;
use tables::Transform;

// The longest case; a shorter one stands at its front.
pub type Case = [u8; 12808];

// What a case has shown: 1 where the stage gave another number than it was told to, and how many places differ.
#[derive(Clone, Copy)]
pub struct Shown {
    pub otherwise: u64,
    pub differ: u64,
}

fn compared(answer: u8, told: u8, differ: u64) -> Shown
    requires { differ ≤ 1602 }
    ensures { (result.otherwise ≤ 1) × (result.differ ≤ 1602) }
{
    let otherwise = if answer == told { 0 } else { 1 };
    Shown { otherwise, differ }
}

// How many of an array's numbers differ from those that stand in the case from a place on.
fn differing<const N: usize>(xs: &[f32; N], case: &[u8], from: usize) -> u64
    requires { from + 4 * N ≤ length case.now }
    ensures { result ≤ N }
{
    replay::differing(false, xs, case, from)
}

// The same of twice 576, one after the other.
fn both_differing(xs: &[f32; 576], ys: &[f32; 576], case: &[u8], from: usize) -> u64
    requires { from + 4608 ≤ length case.now }
    ensures { result ≤ 1152 }
{
    differing(xs, case, from) + differing(ys, case, from + 2304)
}

// The same of a peak: 1 where another word stands in the case.
fn peak_differing(peak: u32, case: &[u8], from: usize) -> u64
    requires { from + 4 ≤ length case.now }
    ensures { result ≤ 1 }
{
    if peak == little_endian::word_at(case, from) {
        0
    } else {
        1
    }
}

// The same of requantize: its accepted answers within a tolerance, for the Rust raises to the f32 nearest 4/3 by the platform's
// `powf`; refused, to the bit.
fn requantize_differing(told: u8, xs: &[f32; 576], case: &[u8], from: usize) -> u64
    requires { from + 2304 ≤ length case.now }
    ensures { result ≤ 576 }
{
    replay::differing(told == 0, xs, case, from)
}

// Side information whose factors and `count1` stand in the case from two places on, and whose gains are 0.
fn side_info(case: &[u8], kind: BlockType, factors: usize, count1: usize) -> SideInfo
    requires { (factors + 61 ≤ length case.now) × (count1 + 2 ≤ length case.now) }
{
    let gains = [0u8; 3];
    let mut long = [0u8; 22];
    little_endian::bytes_from(case, factors, &mut long);
    let mut short = [0u8; 39];
    little_endian::bytes_from(case, factors + 22, &mut short);
    let count = usize::from(little_endian::half_at(case, count1));
    SideInfo {
        block_type: kind,
        global_gain: 0,
        scalefac_scale: false,
        preflag: false,
        subblock_gain: gains,
        scalefac_l: long,
        scalefac_s: short,
        count1: count,
    }
}

pub fn requantize_case(told: u8, case: &Case) -> Shown
    ensures { (result.otherwise ≤ 1) × (result.differ ≤ 1602) }
{
    let table = usize::from(case[0]);
    let kind = side_info::block_type_of(case[4]);
    let flags = case[6];
    let mut gains = [0u8; 3];
    little_endian::bytes_from(case, 7, &mut gains);
    let mut side = side_info(case, kind, 10, 72);
    side.global_gain = case[5];
    side.scalefac_scale = flags % 2 == 1;
    side.preflag = flags / 2 == 1;
    side.subblock_gain = gains;
    let mut spectrum = [0i16; 576];
    little_endian::signeds_from(case, 74, &mut spectrum);
    let mut out = [0.5f32; 576];
    let answer = requantize::requantize(table, side, &spectrum, &mut out);
    compared(
        told_of(answer),
        told,
        requantize_differing(told, &out, case, 1226),
    )
}

pub fn reorder_case(edition: u8, told: u8, case: &Case) -> Shown
    ensures { (result.otherwise ≤ 1) × (result.differ ≤ 1602) }
{
    let table = usize::from(case[0]);
    let kind = side_info::block_type_of(case[1]);
    let count1 = usize::from(little_endian::half_at(case, 2));
    let mut samples = [0.0f32; 576];
    little_endian::floats_from(case, 4, &mut samples);
    let answer = reorder::reorder(edition, table, kind, count1, &mut samples);
    compared(told_of(answer), told, differing(&samples, case, 2308))
}

// The stage with the side information of a case. The block type is channel 0's: the stage asks for no other.
fn run_stereo(
    edition: u8,
    case: &Case,
    left: &mut [f32; 576],
    right: &mut [f32; 576],
) -> Result<(), Refusal> {
    let table = usize::from(case[0]);
    let kind = side_info::block_type_of(case[1]);
    let flags = case[2];
    let a = side_info(case, kind, 8, 4);
    let b = side_info(case, kind, 72, 6);
    stereo::stereo(
        edition,
        table,
        flags / 2 == 1,
        flags % 2 == 1,
        a,
        b,
        left,
        right,
    )
}

pub fn stereo_case(edition: u8, told: u8, case: &Case) -> Shown
    ensures { (result.otherwise ≤ 1) × (result.differ ≤ 1602) }
{
    let mut left = [0.0f32; 576];
    little_endian::floats_from(case, 136, &mut left);
    let mut right = [0.0f32; 576];
    little_endian::floats_from(case, 2440, &mut right);
    let answer = run_stereo(edition, case, &mut left, &mut right);
    compared(
        told_of(answer),
        told,
        both_differing(&left, &right, case, 4744),
    )
}

// Here and below: the stage, or its step alone. (A flag of the list's format; the two take other arguments.)
fn run_antialias(alone: bool, kind: BlockType, samples: &mut [f32; 576]) -> Result<(), Refusal> {
    if alone {
        antialias::antialias_step(kind, samples);
        return Ok(());
    }
    antialias::antialias(kind, samples)
}

pub fn antialias_case(alone: bool, told: u8, case: &Case) -> Shown
    ensures { (result.otherwise ≤ 1) × (result.differ ≤ 1602) }
{
    let kind = side_info::block_type_of(case[0]);
    let mut samples = [0.0f32; 576];
    little_endian::floats_from(case, 4, &mut samples);
    let answer = run_antialias(alone, kind, &mut samples);
    compared(told_of(answer), told, differing(&samples, case, 2308))
}

fn run_hybrid(
    edition: u8,
    alone: bool,
    kind: BlockType,
    overlap: &mut [f32; 576],
    samples: &mut [f32; 576],
) -> Result<(), Refusal> {
    if alone {
        let edition = side_info::edition_of(edition);
        hybrid::hybrid_step(&Transform::new(), edition, kind, overlap, samples);
        return Ok(());
    }
    hybrid::hybrid_synthesis(edition, kind, overlap, samples)
}

pub fn hybrid_case(edition: u8, alone: bool, told: u8, case: &Case) -> Shown
    ensures { (result.otherwise ≤ 1) × (result.differ ≤ 1602) }
{
    let kind = side_info::block_type_of(case[0]);
    let mut samples = [0.0f32; 576];
    little_endian::floats_from(case, 4, &mut samples);
    let mut overlap = [0.0f32; 576];
    little_endian::floats_from(case, 2308, &mut overlap);
    let answer = run_hybrid(edition, alone, kind, &mut overlap, &mut samples);
    compared(
        told_of(answer),
        told,
        both_differing(&samples, &overlap, case, 4612),
    )
}

fn run_inversion(alone: bool, samples: &mut [f32; 576]) -> Result<(), Refusal> {
    if alone {
        inversion::inversion_step(samples);
        return Ok(());
    }
    inversion::frequency_inversion(samples)
}

pub fn inversion_case(alone: bool, told: u8, case: &Case) -> Shown
    ensures { (result.otherwise ≤ 1) × (result.differ ≤ 1602) }
{
    let mut samples = [0.0f32; 576];
    little_endian::floats_from(case, 0, &mut samples);
    let answer = run_inversion(alone, &mut samples);
    compared(told_of(answer), told, differing(&samples, case, 2304))
}

// The stage with room for so many outputs; its step alone has room for 577.
fn run_synthesis(
    alone: bool,
    room: usize,
    samples: &[f32; 576],
    blocks: &mut [f32; 1024],
    out: &mut [f32; 577],
) -> Result<u32, Refusal>
    requires { room ≤ 577 }
{
    if alone {
        let peak = synthesis::synthesis_step(&SynthesisTables::new(), samples, blocks, out);
        return Ok(peak);
    }
    synthesis::subband_synthesis(samples, blocks, &mut out[..room])
}

pub fn synthesis_case(alone: bool, told: u8, room: usize, case: &Case) -> Shown
    requires { room ≤ 577 }
    ensures { (result.otherwise ≤ 1) × (result.differ ≤ 1602) }
{
    let mut samples = [0.0f32; 576];
    little_endian::floats_from(case, 0, &mut samples);
    let mut blocks = [0.0f32; 1024];
    little_endian::floats_from(case, 2304, &mut blocks);
    let mut out = [0.5f32; 577];
    let (answer, peak) = match run_synthesis(alone, room, &samples, &mut blocks, &mut out) {
        Ok(peak) => (0, peak),
        Err(refusal) => (refusal.number(), 0),
    };
    let kept = differing(&blocks, case, 6400);
    let outputs = differing(&out, case, 10496);
    let peak = peak_differing(peak, case, 12804);
    compared(answer, told, kept + outputs + peak)
}
