// Renders records from standard input: the outputs' f32 bits go to standard output, left 576 and then right, and a line for each refused record to
// standard error. A read or a write that fails ends the run with a line that says which. What a record means is in the crates records and render_record,
// what the line says in text.

#![tactic(auto)]

ghost use Rattle.std.specs.Prelude.{◌≡◌, ◌*◌, ◌<◌, ◌≤◌, take, length, IfOk, IfErr, IsOk, IsErr, OnOk};
ghost use Rattle.std.specs.Bool.{OnTrue};
ghost use Rattle.std.specs.Io.KnownBytes.{Appends, Consumes, IsAtEnd};
ghost use Rattle.laws.specs.Lists.{tab};
ghost use Rattle.refusals.specs.Refusals.{number};
ghost use Rattle.little_endian.specs.Bytes.{float_byte};
ghost use Rattle.text.specs.Line.{refusal_line};

use backend::Told;
use refusals::Refusal;
use std::io;
use std::io::{Read, Write};

// Reads until the buffer is full or the input ends, also where a read gives few bytes. The answer is how many bytes stand at the buffer's front. A
// read that fails is not the end of the input.
fn fill<R: Read>(input: &mut R, bytes: &mut [u8]) -> io::Result<usize>
    ensures within { IfOk result (λ n. n ≤ length bytes.new) }
    ensures taken { IfOk result
        (λ n. Consumes (R.remaining input.old) (R.remaining input.new) (take n bytes.new)) }
    ensures end { IfOk result (λ n. n < length bytes.new → IsAtEnd (R.remaining input.new)) }
{
    let mut done = 0;
    // what a read gives decides how far it goes: there is nothing to count over
    while done < bytes.len() {
        match input.read(&mut bytes[done..]) {
            Ok(0) => return Ok(done),
            Ok(more) => done += more,
            Err(e) => return Err(e),
        }
    }
    Ok(done)
}

// The line for a refused record.
fn say_refused<W: Write>(lines: &mut W, n: u16, refusal: Refusal) -> io::Result<()>
    ensures { OnOk result
        (Appends (W.contents lines.old) (W.contents lines.new) (refusal_line n (number refusal))) }
{
    let mut line = [0u8; 40];
    let end = text::refusal_line(u64::from(n), refusal.number(), &mut line);
    lines.write_all(&line[..end])
}

// The line for a read or a write that failed. Where it cannot be written there is no one left to tell, and the run ends all the same.
fn say_failed<W: Write>(lines: &mut W, call: &str, n: u16) {
    let _ = writeln!(lines, "render: {call} failed at record {n}");
}

// The outputs of a granule, so many as were written to the room.
fn write_outputs<W: Write>(outputs: &mut W, written: usize, room: &[f32]) -> io::Result<()>
    requires { (written ≤ 1152) × (written ≤ length room.now) }
    ensures { OnOk result
        (Appends (W.contents outputs.old) (W.contents outputs.new) (tab (4 * written) (float_byte room.now))) }
{
    let mut bytes = [0u8; 4608];
    little_endian::floats_to(&room[..written], &mut bytes);
    let end = 4 * written;
    outputs.write_all(&bytes[..end])
}

// What a record's answer comes to: its outputs, or the line for a refused one. False ends the run.
fn tell<W: Write, L: Write>(
    outputs: &mut W,
    lines: &mut L,
    n: u16,
    answer: Result<Told, Refusal>,
    room: &[f32],
) -> bool
    requires { IfOk answer (λ t. (t.written ≤ 1152) × (t.written ≤ length room.now)) }
    ensures refused { IfErr answer (λ r. OnTrue result
        (Appends (L.contents lines.old) (L.contents lines.new) (refusal_line n (number r)))) }
    ensures none_written { IsErr answer → outputs.new ≡ outputs.old }
    ensures rendered { IfOk answer (λ t. OnTrue result
        (Appends (W.contents outputs.old) (W.contents outputs.new) (tab (4 * t.written) (float_byte room.now)))) }
    ensures none_said { IsOk answer → OnTrue result (lines.new ≡ lines.old) }
{
    match answer {
        Err(refusal) => say_refused(lines, n, refusal).is_ok(),
        Ok(told) => {
            let written = write_outputs(outputs, told.written, room).is_ok();
            if !written {
                say_failed(lines, "write", n);
            }
            written
        }
    }
}

// The next record's bytes: n came before it. False ends the run.
fn next_record<R: Read, L: Write>(input: &mut R, lines: &mut L, n: u16, bytes: &mut [u8]) -> bool
    ensures taken { length bytes.old ≡ 2448 → OnTrue result
        (Consumes (R.remaining input.old) (R.remaining input.new) bytes.new) }
    ensures none_said { OnTrue result (lines.new ≡ lines.old) }
    ensures last { OnTrue result (n < 65535) }
{
    let Ok(count) = fill(input, bytes) else {
        say_failed(lines, "read", n);
        return false;
    };
    if count == 0 {
        return false;
    }
    if let Err(refusal) = records::end_refusal(n, count) {
        let _ = say_refused(lines, n, refusal);
        return false;
    }
    true
}

// The record after 65,535 of them is the last turn, whatever comes: it ends the run.
fn main(rt: HostRuntime) {
    let mut input = rt.stdin();
    let mut outputs = rt.stdout();
    let mut lines = rt.stderr();
    let mut h = history::fresh();
    let mut bytes = [0u8; 2448];
    let mut room = [0.0f32; 1152];
    for n in 0..=u16::MAX {
        if !next_record(&mut input, &mut lines, n, &mut bytes) {
            return;
        }
        let answer = render_record::render_in_place(&mut h, 1, &bytes, &mut room);
        if !tell(&mut outputs, &mut lines, n, answer, &room) {
            return;
        }
    }
}
