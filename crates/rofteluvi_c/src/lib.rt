// What include/rofteluvi.h declares, exported under its names: each function hands on to the library's of the same name.

#![tactic(auto)]

ghost use Rattle.rofteluvi.specs.Face.{Patches, ReadsBack, Runs};

use rofteluvi::{RofteluviAnswer, RofteluviImmediate, RofteluviRan};
use sizes::REGISTERS;

#[unsafe(no_mangle)]
pub extern "C" fn rofteluvi_patch(
    section: &mut [u8],
    records: &[u8],
    values: &[u8],
    address: u64,
    gp: u64,
) -> RofteluviAnswer
    ensures { Patches section.old records.now values.now address gp result section.new }
{
    rofteluvi::rofteluvi_patch(section, records, values, address, gp)
}

#[unsafe(no_mangle)]
pub extern "C" fn rofteluvi_read_back(
    section: &[u8],
    address: u64,
    offset: u64,
    rtype: u32,
) -> RofteluviImmediate
    ensures { ReadsBack section.now address offset rtype result }
{
    rofteluvi::rofteluvi_read_back(section, address, offset, rtype)
}

#[unsafe(no_mangle)]
pub extern "C" fn rofteluvi_run(
    run: &[u8],
    start: u64,
    registers: &mut [u64; REGISTERS],
) -> RofteluviRan
    ensures { Runs run.now start registers.old result registers.new }
{
    rofteluvi::rofteluvi_run(run, start, registers)
}
