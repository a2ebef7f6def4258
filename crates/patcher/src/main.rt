// The patch program: frames on standard input, its answer on standard output. It answers any input of any length.

#![tactic(auto)]

ghost use Rattle.std.specs.Prelude.{List, ◌≡◌, ℕ, ◌≤◌, length, take, IfOk, OnOk};
ghost use Rattle.meaning.specs.Checks.{section_limit};
ghost use Rattle.meaning.specs.Frames.{output_of};
ghost use Rattle.output.specs.Text.{output_bytes, input_bytes};
ghost use Rattle.patcher.specs.Read.{Takes};
ghost use Rattle.patcher.specs.Output.{Output, output_patched, Answered};

use std::io::{Read, Write};
use std::{fmt, io};

// The first bytes of the input, which decide the answer: those of the longest good input, and so much of a line after them that it cannot be
// a frame (`beyond_no_matter` of the crate output). What comes after them is not read.
const INPUT: usize = 550055;

// Reads until the buffer is full or the input ends, and answers how many bytes were read. A loop, since `read_exact` does not say how many
// came before the end, and `read_to_end` needs a heap.
fn fill<R: Read>(reader: &mut R, buffer: &mut [u8]) -> io::Result<usize>
    ensures within { IfOk result (λ n. n ≤ length buffer.old) }
    ensures bytes { IfOk result (λ n. Takes n (R.remaining reader.old) buffer.new) }
{
    let mut n = 0;
    while n < buffer.len() {
        let more = reader.read(&mut buffer[n..])?;
        if more == 0 {
            return Ok(n);
        }
        n += more;
    }
    Ok(n)
}

// Patches, and writes the answer with the section after it.
// The buffers and the two numbers come one by one, as `patch::patch` takes them, whose parameters may not change.
fn patch_and_write(
    section: &mut [u8],
    records: &[u8],
    values: &[u8],
    address: u64,
    gp: u64,
    out: &mut [u8],
) -> usize
    requires section_len_bound { length section.old ≤ section_limit }
    requires out_len { length out.old ≡ output_bytes }
    ensures { Output result (output_patched section.old records.now values.now address gp) out.old out.new }
{
    match patch::patch(section, records, values, address, gp) {
        Ok(count) => output::write(section, 0, count, 0, out),
        Err(fault) => output::write(
            section,
            u32::from(fault.refusal),
            fault.place,
            fault.offset,
            out,
        ),
    }
}

// The buffers that a run fills: what the frames give, and the output.
#[derive(Drop)]
struct Buffers {
    section: [u8; sizes::SECTION_LIMIT],
    values: [u8; sizes::VALUES_LIMIT],
    records: [u8; sizes::RECORDS_LIMIT],
    out: [u8; output::OUTPUT],
}

// The output for an input: its bytes in front of `out`, and how many they are. It is also the output for every longer input whose first
// 550,055 bytes these are.
fn answer(input: &[u8], buffers: &mut Buffers) -> usize
    ensures fits { result ≤ output_bytes }
    ensures output { Output result (output_of input.now) buffers.old.out buffers.new.out }
    ensures longer { (whole : List ℕ) → take input_bytes whole ≡ input.now → Output result (output_of whole) buffers.old.out buffers.new.out }
{
    let Buffers {
        section,
        values,
        records,
        out,
    } = buffers;
    match frames::read(input, section, values, records) {
        Ok(got) => patch_and_write(
            &mut section[..got.section],
            &records[..got.records],
            &values[..got.values],
            got.address,
            got.gp,
            out,
        ),
        Err(fault) => {
            let refused = fault.refused;
            output::write(
                &section[..fault.gathered.section],
                u32::from(refused.refusal),
                refused.place,
                0,
                out,
            )
        }
    }
}

// Why no answer was written. A read that fails is no end of the input.
#[derive(Clone, Copy, Debug)]
enum Failure {
    Reading,
    Writing,
}

impl fmt::Display for Failure {
    fn fmt<W: fmt::Write>(&self, f: &mut fmt::Formatter<W>) -> fmt::Result {
        f.write_str(match self {
            Failure::Reading => "standard input cannot be read",
            Failure::Writing => "standard output cannot be written",
        })
    }
}

// Reads, answers and writes.
fn run<R: Read, W: Write>(
    reader: &mut R,
    writer: &mut W,
    input: &mut [u8; INPUT],
    buffers: &mut Buffers,
) -> Result<(), Failure>
    ensures { OnOk result (Answered (R.remaining reader.old) (W.contents writer.old) (W.contents writer.new)) }
{
    let n = fill(reader, input).map_err(|_| Failure::Reading)?;
    let r = answer(&input[..n], buffers);
    writer
        .write_all(&buffers.out[..r])
        .map_err(|_| Failure::Writing)
}

fn main(rt: HostRuntime) {
    let mut input = [0; INPUT];
    let mut buffers = Buffers {
        section: [0; sizes::SECTION_LIMIT],
        values: [0; sizes::VALUES_LIMIT],
        records: [0; sizes::RECORDS_LIMIT],
        out: [0; output::OUTPUT],
    };
    let done = run(&mut rt.stdin(), &mut rt.stdout(), &mut input, &mut buffers);
    if let Err(failure) = done {
        let _ = eprintln!(rt; "patcher: {failure}");
    }
}
