// Runs the edges of document 01 that are not proved as its table, and a few more. Each is a call of its own, on a section of one word 0, at
// section address 0, with GP 0 and no value rows. Each prints a line: the edge, the number of refusal, the place, the offset and the word
// afterwards. What the documents say to each stands in the file `stdout`, worked out from them and not from the program.

#![tactic(auto)]

ghost use Rattle.std.specs.Prelude.{◌≤◌, length};

use std::io;

// 2^64-1. The end of four bytes there, were it taken modulo 2^64, would lie inside the section.
const LAST: u64 = u64::MAX;

// The number whose four parts types 67 to 70 take out.
const PARTS: i64 = 0x123456789abcdef0;

// The longest list: one push more than the stack has room for.
const LONGEST: usize = 17;

#[derive(Clone, Copy)]
struct Rela {
    offset: u64,
    rtype: u32,
    symbol: u32,
    addend: i64,
}

impl Rela {
    // Of the info the low half is the type, and the high half the symbol.
    fn bytes(self) -> [u8; 24] {
        let mut bytes = [0; 24];
        bytes[..8].copy_from_slice(&self.offset.to_le_bytes());
        bytes[8..12].copy_from_slice(&self.rtype.to_le_bytes());
        bytes[12..16].copy_from_slice(&self.symbol.to_le_bytes());
        bytes[16..].copy_from_slice(&self.addend.to_le_bytes());
        bytes
    }
}

fn record_at(offset: u64, rtype: u32, symbol: u32, addend: i64) -> Rela {
    Rela {
        offset,
        rtype,
        symbol,
        addend,
    }
}

// Symbol 0 has the value 0, and PC is 0 at offset 0: S+A and S+A-PC are then the addend.
fn with(rtype: u32, addend: i64) -> Rela {
    record_at(0, rtype, 0, addend)
}

// A type in whose formula no addend stands.
fn plain(rtype: u32) -> Rela {
    with(rtype, 0)
}

fn push(value: i64) -> Rela {
    with(23, value)
}

// An operation on two values. Type 38 takes what it leaves, so that the word shows it.
fn operation(opr1: i64, opr2: i64, rtype: u32) -> [Rela; 4] {
    [push(opr1), push(opr2), plain(rtype), plain(38)]
}

// A call with these bytes as its records, and its line.
fn run_bytes(rt: &impl Print, edge: &str, records: &[u8]) -> io::Result<()> {
    let mut section = [0; 4];
    let (number, place, offset) = match patch::patch(&mut section, records, b"", 0, 0) {
        Ok(count) => (0, count, 0),
        Err(fault) => (u32::from(fault.refusal), fault.place, fault.offset),
    };
    let word = u32::from_le_bytes(section);
    println!(rt; "{edge}: {number} {place} {offset:016x} {word:08x}")
}

// With these records.
fn run(rt: &impl Print, edge: &str, list: &[Rela]) -> io::Result<()>
    requires { length list.now ≤ LONGEST }
{
    let mut space = [0; 24 * LONGEST];
    for (bytes, rela) in space.chunks_exact_mut(24).zip(list) {
        bytes.copy_from_slice(&rela.bytes());
    }
    run_bytes(rt, edge, &space[..24 * list.len()])
}

// Both ends of what a field accepts.
fn ranges(rt: &impl Print) -> io::Result<()> {
    run(rt, "type 64 with 131073", &[with(64, 131073)])?;
    run(rt, "type 64 with -131072", &[with(64, -131072)])?;
    run(rt, "type 38 with 15", &[push(15), plain(38)])?;
    run(rt, "type 38 with -16", &[push(-16), plain(38)])?;
    run(rt, "type 39 with 4095", &[push(4095), plain(39)])?;
    run(rt, "type 39 with -1", &[push(-1), plain(39)])
}

// The largest shift count, and which of two entries is taken from which.
fn operations(rt: &impl Print) -> io::Result<()> {
    run(rt, "pushes -5, 63 then type 34", &operation(-5, 63, 34))?;
    run(rt, "pushes 10, 3 then type 32", &operation(10, 3, 32))
}

// The bits that each of the four takes out of one number.
fn parts(rt: &impl Print) -> io::Result<()> {
    run(rt, "type 67 with 123456789abcdef0h", &[with(67, PARTS)])?;
    run(rt, "type 68 with 123456789abcdef0h", &[with(68, PARTS)])?;
    run(rt, "type 69 with 123456789abcdef0h", &[with(69, PARTS)])?;
    run(rt, "type 70 with 123456789abcdef0h", &[with(70, PARTS)])
}

// Targets just below 2^64: from 800h below it on, the target after adding 800h wraps, and its upper part is that of address 0.
fn upper_parts(rt: &impl Print) -> io::Result<()> {
    run(rt, "type 71 with 2^64-801h", &[with(71, -0x801)])?;
    run(rt, "type 71 with 2^64-800h", &[with(71, -0x800)])?;
    run(rt, "type 71 with 2^64-1", &[with(71, -1)])
}

// Sixteen pushes are not the document's: all find room, and only their being left is refused.
fn lengths(rt: &impl Print) -> io::Result<()> {
    let pushes = [push(1); LONGEST];
    run(rt, "seventeen pushes", &pushes)?;
    run(rt, "sixteen pushes", &pushes[..16])?;
    run(rt, "one push alone", &pushes[..1])?;
    run_bytes(rt, "23 record bytes", &push(1).bytes()[..23])
}

// The document's rules have these, and its list of edges does not: a negative count, an empty stack, also after a record that could have been
// stored.
fn more_of_the_stack(rt: &impl Print) -> io::Result<()> {
    run(rt, "pushes 1, -1 then type 33", &operation(1, -1, 33))?;
    run(rt, "pushes 1, -1 then type 34", &operation(1, -1, 34))?;
    run(rt, "type 24 on an empty stack", &[plain(24)])?;
    run(rt, "type 67, then type 24", &[with(67, PARTS), plain(24)])
}

// Symbols past the rows, of which there are none: refused only where a value is used.
fn more_of_symbols(rt: &impl Print) -> io::Result<()> {
    run(rt, "type 23 with symbol 1", &[record_at(0, 23, 1, 15)])?;
    run(
        rt,
        "type 38 with symbol 1",
        &[push(15), record_at(0, 38, 1, 0)],
    )
}

// Offsets: refused only where something is written.
fn more_of_offsets(rt: &impl Print) -> io::Result<()> {
    run(rt, "type 47 at 3", &[record_at(3, 47, 0, 15)])?;
    run(rt, "type 47 at 4", &[record_at(4, 47, 0, 15)])?;
    run(rt, "type 1 at 2^64-1", &[record_at(LAST, 1, 0, 15)])?;
    run(
        rt,
        "type 23 at 2^64-1",
        &[record_at(LAST, 23, 0, 15), plain(38)],
    )?;
    run(
        rt,
        "type 23 at 2^64-1, then type 30 at 7",
        &[record_at(LAST, 23, 0, 0), record_at(7, 30, 0, 0)],
    )?;
    run(rt, "type 23 at 2^64-1 alone", &[record_at(LAST, 23, 0, 15)])?;
    run(rt, "type 0 at 2^64-1", &[record_at(LAST, 0, 0, 15)])
}

fn main(rt: HostRuntime) -> io::Result<()> {
    ranges(&rt)?;
    operations(&rt)?;
    parts(&rt)?;
    upper_parts(&rt)?;
    lengths(&rt)?;
    more_of_the_stack(&rt)?;
    more_of_symbols(&rt)?;
    more_of_offsets(&rt)
}
