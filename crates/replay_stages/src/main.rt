// Replays stored answers of the seven stages and of four steps: the Rust's, and refusals with the memory that they leave as it
// was. Standard input is a run of sections, each a header and its cases, each case followed by its answer. A line for each section
// says what came of it. tests/oracle/README.md has the formats.

#![tactic(auto)]

mod cases;

ghost use Rattle.std.specs.Prelude.{◌≤◌, length};

use cases::{Case, Shown};
use std::io;
use std::io::Read;

#[derive(Clone, Copy, Debug, PartialEq, Eq)]
enum Stage {
    Requantize,
    Reorder,
    Stereo,
    Antialias,
    Hybrid,
    Inversion,
    Synthesis,
}

// The stage that a section's header names: 16 more for its step alone.
fn stage_of(number: u8) -> Option<Stage> {
    match number {
        0 => Some(Stage::Requantize),
        1 => Some(Stage::Reorder),
        2 => Some(Stage::Stereo),
        3 | 19 => Some(Stage::Antialias),
        4 | 20 => Some(Stage::Hybrid),
        5 | 21 => Some(Stage::Inversion),
        6 | 22 => Some(Stage::Synthesis),
        _ => None,
    }
}

// The bytes of a case with its answer.
fn case_length(stage: Stage) -> usize
    ensures { result ≤ 12808 }
{
    match stage {
        Stage::Requantize => 3530,
        Stage::Reorder => 4612,
        Stage::Stereo => 9352,
        Stage::Antialias => 4612,
        Stage::Hybrid => 9220,
        Stage::Inversion => 4608,
        Stage::Synthesis => 12808,
    }
}

// The case stands at the front of a buffer that holds the longest. (A stage is chosen by a match: each takes other arguments, so a table of
// functions or closures would wrap each of them.)
fn one_case(stage: Stage, alone: bool, told: u8, room: usize, edition: u8, bytes: &Case) -> Shown
    requires { room ≤ 577 }
    ensures { (result.otherwise ≤ 1) × (result.differ ≤ 1602) }
{
    match stage {
        Stage::Requantize => cases::requantize_case(told, bytes),
        Stage::Reorder => cases::reorder_case(edition, told, bytes),
        Stage::Stereo => cases::stereo_case(edition, told, bytes),
        Stage::Antialias => cases::antialias_case(alone, told, bytes),
        Stage::Hybrid => cases::hybrid_case(edition, alone, told, bytes),
        Stage::Inversion => cases::inversion_case(alone, told, bytes),
        Stage::Synthesis => cases::synthesis_case(alone, told, room, bytes),
    }
}

fn report(rt: &impl Print, name: &[u8], cases: u32, otherwise: u64, differ: u64) -> io::Result<()> {
    rt.write_all(name)?;
    println!(rt; "{cases} cases, {otherwise} answered otherwise, {differ} places differ")
}

// Reads a case of a size to the front of a buffer. Answers whether it was whole.
fn read_case(input: &mut impl Read, size: usize, bytes: &mut [u8]) -> bool
    requires { size ≤ length bytes.old }
{
    input.read_exact(&mut bytes[..size]).is_ok()
}

// Says what ends the run, and that there is no more.
fn end(rt: &impl Print, why: &str) -> io::Result<bool> {
    rt.println(why)?;
    Ok(false)
}

fn section_cut_off(rt: &impl Print, name: &[u8]) -> io::Result<bool> {
    rt.write_all(name)?;
    end(rt, "the section is cut off")
}

fn header_cut_off(rt: &impl Print) -> io::Result<bool> {
    end(rt, "a section's header is cut off")
}

fn header_wrong(rt: &impl Print) -> io::Result<bool> {
    end(rt, "a section names no stage, or more room than 577")
}

// A section's cases, and its line: `told` is what the stage should answer, `room` what synthesis gets for its outputs, `edition` the
// number that reorder, stereo and hybrid are given, `alone` whether it is a stage's step. Answers whether the section was whole.
fn section(
    rt: &impl Print,
    input: &mut impl Read,
    name: &[u8],
    stage: Stage,
    alone: bool,
    told: u8,
    room: usize,
    edition: u8,
    cases: u32,
) -> io::Result<bool>
    requires { room ≤ 577 }
{
    let size = case_length(stage);
    let mut bytes = [0u8; 12808];
    let mut otherwise: u64 = 0;
    let mut differ: u64 = 0;
    for _ in 0..cases {
        if !read_case(input, size, &mut bytes) {
            return section_cut_off(rt, name);
        }
        let s = one_case(stage, alone, told, room, edition, &bytes);
        otherwise += s.otherwise;
        differ += s.differ;
    }
    report(rt, name, cases, otherwise, differ)?;
    Ok(true)
}

// The section of a header. Answers whether it was whole.
fn headed(rt: &impl Print, input: &mut impl Read, header: [u8; 40]) -> io::Result<bool> {
    let room = usize::from(little_endian::half_at(&header, 2));
    if 577 < room {
        return header_wrong(rt);
    }
    let Some(stage) = stage_of(header[0]) else {
        return header_wrong(rt);
    };
    let mut name = [0u8; 31];
    little_endian::bytes_from(&header, 9, &mut name);
    section(
        rt,
        input,
        &name,
        stage,
        16 <= header[0],
        header[1],
        room,
        header[8],
        little_endian::word_at(&header, 4),
    )
}

// Answers whether there was a section, and all of it. With no first byte there is none.
fn next_section(rt: &impl Print, input: &mut impl Read) -> io::Result<bool> {
    let mut header = [0u8; 40];
    if input.read_exact(&mut header[..1]).is_err() {
        return Ok(false);
    }
    if input.read_exact(&mut header[1..]).is_err() {
        return header_cut_off(rt);
    }
    headed(rt, input, header)
}

// Up to the end of the run.
fn main(rt: HostRuntime) -> io::Result<()> {
    let mut input = rt.stdin();
    for _ in 0..256 {
        if !next_section(&rt, &mut input)? {
            return Ok(());
        }
    }
    println!(rt; "no more than 256 sections are read")
}
