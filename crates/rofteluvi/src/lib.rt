// The face for C programs: numbers and buffers in, a number, a place and an offset or a value out. The crate rofteluvi_c exports it, and
// include/rofteluvi.h declares it. Its answers have a number and no `Refusal`, and its functions their parameters one by one, because the
// header has them so; `patch`, `back` and `executor` take them as they come from there.

#![tactic(auto)]

ghost use Rattle.std.specs.Prelude.{◌≡◌, ℕ, List};
ghost use Rattle.patch.specs.Answers as P;
ghost use Rattle.back.specs.Immediates as B;
ghost use Rattle.executor.specs.Runs as E;
ghost use Rattle.rofteluvi.specs.Face.{answer_in, immediate_in, ran_in, Patches, ReadsBack, Runs};

use patch::Fault;
use refusals::{Refusal, Refused};
use sizes::REGISTERS;

// rofteluvi_answer of the header.
#[repr(C)]
#[derive(Clone, Copy)]
pub struct RofteluviAnswer {
    pub number: u32,
    pub place: u32,
    pub offset: u64,
}

// rofteluvi_immediate of the header. Its place is always 0, and on refusal the value is 0.
#[repr(C)]
#[derive(Clone, Copy)]
pub struct RofteluviImmediate {
    pub number: u32,
    pub place: u32,
    pub value: i64,
}

// rofteluvi_ran of the header.
#[repr(C)]
#[derive(Clone, Copy)]
pub struct RofteluviRan {
    pub number: u32,
    pub place: u32,
}

// ---- what a call results in, by the number of its refusal, 0 for none

impl From<Result<u32, Fault>> for RofteluviAnswer {
    ghost from_gives = { λ patched answer. answer_in answer ≡ P.answer_in patched };

    fn from(patched: Result<u32, Fault>) -> RofteluviAnswer {
        match patched {
            Ok(count) => RofteluviAnswer {
                number: 0,
                place: count,
                offset: 0,
            },
            Err(fault) => RofteluviAnswer {
                number: fault.refusal.into(),
                place: fault.place,
                offset: fault.offset,
            },
        }
    }
}

impl From<Result<i64, Refusal>> for RofteluviImmediate {
    ghost from_gives = { λ immediate answer. immediate_in answer ≡ B.immediate_in immediate };

    fn from(immediate: Result<i64, Refusal>) -> RofteluviImmediate {
        match immediate {
            Ok(value) => RofteluviImmediate {
                number: 0,
                place: 0,
                value,
            },
            Err(refusal) => RofteluviImmediate {
                number: refusal.into(),
                place: 0,
                value: 0,
            },
        }
    }
}

impl From<Result<u32, Refused>> for RofteluviRan {
    ghost from_gives = { λ ran answer. (registers : List ℕ) → ran_in answer registers ≡ E.ran_in ran registers };

    fn from(ran: Result<u32, Refused>) -> RofteluviRan {
        match ran {
            Ok(words) => RofteluviRan {
                number: 0,
                place: words,
            },
            Err(refused) => RofteluviRan {
                number: refused.refusal.into(),
                place: refused.place,
            },
        }
    }
}

// ---- the calls

pub fn rofteluvi_patch(
    section: &mut [u8],
    records: &[u8],
    values: &[u8],
    address: u64,
    gp: u64,
) -> RofteluviAnswer
    ensures { Patches section.old records.now values.now address gp result section.new }
{
    patch::patch(section, records, values, address, gp).into()
}

pub fn rofteluvi_read_back(
    section: &[u8],
    address: u64,
    offset: u64,
    rtype: u32,
) -> RofteluviImmediate
    ensures { ReadsBack section.now address offset rtype result }
{
    back::read_back(section, address, offset, u64::from(rtype)).into()
}

// The registers are the caller's, and what they hold is the run's result.
pub fn rofteluvi_run(run: &[u8], start: u64, registers: &mut [u64; REGISTERS]) -> RofteluviRan
    ensures { Runs run.now start registers.old result registers.new }
{
    executor::run(run, start, registers).into()
}
