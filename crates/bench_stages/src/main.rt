// Runs one of the float stages over and over on one granule's samples, for bench/run to time. Standard input: stage u8 (3 antialias,
// 4 hybrid, 5 inversion, 6 synthesis; 16 more for its step alone), block type u8, edition u8, a zero byte, how often u32, 576 f32, all little endian. It writes the bits of
// a sum over one output of each run, so that no run can be left out and bench/run can compare it with the Rust's.

#![tactic(auto)]

use side_info::{BlockType, Edition};
use std::io;
use std::io::Read;
use synthesis_tables::SynthesisTables;
use tables::Transform;

// The stages that are timed.
#[derive(Clone, Copy, Debug, PartialEq, Eq)]
enum Stage {
    Antialias,
    Hybrid,
    Inversion,
    Synthesis,
}

// The stage of a number: what is none of the first three's is synthesis's.
fn stage_of(number: u8) -> Stage {
    match number {
        3 => Stage::Antialias,
        4 => Stage::Hybrid,
        5 => Stage::Inversion,
        _ => Stage::Synthesis,
    }
}

// An output, if the peak is at least its level, and else 0.0: so the peak is part of what is timed.
fn under(peak: u32, output: f32) -> f32 {
    if peak < laws::bits_of(output) % 0x8000_0000 {
        0.0
    } else {
        output
    }
}

// A stage by its entry point: its tests and tables are part of it. The number is one output. (By a match, here and below: each stage takes
// other arguments.)
fn one_run(
    stage: Stage,
    edition: u8,
    kind: BlockType,
    samples: [f32; 576],
    overlap: &mut [f32; 576],
    blocks: &mut [f32; 1024],
) -> f32 {
    let mut xs = samples;
    match stage {
        Stage::Antialias => {
            let _ = antialias::antialias(kind, &mut xs);
            xs[17]
        }
        Stage::Hybrid => {
            let _ = hybrid::hybrid_synthesis(edition, kind, overlap, &mut xs);
            xs[17]
        }
        Stage::Inversion => {
            let _ = inversion::frequency_inversion(&mut xs);
            xs[19]
        }
        Stage::Synthesis => {
            let mut out = [0.0f32; 576];
            let peak = synthesis::subband_synthesis(&xs, blocks, &mut out).unwrap_or(0);
            under(peak, out[575])
        }
    }
}

// A stage's step alone, as the whole granule calls it: no tests, and the tables lent.
fn one_step(
    transform: &Transform,
    synthesis: &SynthesisTables,
    stage: Stage,
    edition: Edition,
    kind: BlockType,
    samples: [f32; 576],
    overlap: &mut [f32; 576],
    blocks: &mut [f32; 1024],
) -> f32 {
    let mut xs = samples;
    match stage {
        Stage::Antialias => {
            antialias::antialias_step(kind, &mut xs);
            xs[17]
        }
        Stage::Hybrid => {
            hybrid::hybrid_step(transform, edition, kind, overlap, &mut xs);
            xs[17]
        }
        Stage::Inversion => {
            inversion::inversion_step(&mut xs);
            xs[19]
        }
        Stage::Synthesis => {
            let mut out = [0.0f32; 576];
            let peak = synthesis::synthesis_step(synthesis, &xs, blocks, &mut out);
            under(peak, out[575])
        }
    }
}

// The sum over one number of each of so many runs.
fn over<F: FnMut() -> f32>(times: u32, mut one: F) -> f32
    requires { F.IsAlwaysCallable one }
{
    let mut sum = 0.0f32;
    for _ in 0..times {
        sum += one();
    }
    sum
}

fn runs(stage: Stage, edition: u8, kind: BlockType, samples: [f32; 576], times: u32) -> f32 {
    let mut overlap = [0.0f32; 576];
    let mut blocks = [0.0f32; 1024];
    over(times, || {
        one_run(stage, edition, kind, samples, &mut overlap, &mut blocks)
    })
}

fn steps(stage: Stage, edition: Edition, kind: BlockType, samples: [f32; 576], times: u32) -> f32 {
    let transform = Transform::new();
    let synthesis = SynthesisTables::new();
    let mut overlap = [0.0f32; 576];
    let mut blocks = [0.0f32; 1024];
    over(times, || {
        one_step(
            &transform,
            &synthesis,
            stage,
            edition,
            kind,
            samples,
            &mut overlap,
            &mut blocks,
        )
    })
}

fn write_bits(rt: &impl Print, sum: f32) -> io::Result<()> {
    println!(rt; "{:08x}", laws::bits_of(sum))
}

// An input that can't be read to its end is cut off too.
fn main(rt: HostRuntime) -> io::Result<()> {
    let mut bytes = [0u8; 2312];
    if rt.stdin().read_exact(&mut bytes).is_err() {
        return println!(rt; "the input is cut off");
    }
    let kind = side_info::block_type_of(bytes[1]);
    let times = little_endian::word_at(&bytes, 4);
    let mut samples = [0.0f32; 576];
    little_endian::floats_from(&bytes, 8, &mut samples);
    if bytes[0] < 16 {
        let stage = stage_of(bytes[0]);
        return write_bits(&rt, runs(stage, bytes[2], kind, samples, times));
    }
    let stage = stage_of(bytes[0] - 16);
    let edition = side_info::edition_of(bytes[2]);
    write_bits(&rt, steps(stage, edition, kind, samples, times))
}
