// The executor: a run of words, carried out one after the other on 32 registers that the caller lends.

#![tactic(auto)]

ghost use Rattle.std.specs.Prelude.{◌≡◌, ◌^◌, ◌≤◌, ◌<◌, take, drop, length};
ghost use Rattle.meaning.specs.Executor as E;
ghost use Rattle.meaning.specs.Field.{slice};
ghost use Rattle.executor.specs.Runs.{outcome_of, carried_out, Runs};

use refusals::{Refusal, Refused};
use sizes::{REGISTERS, RUN_LIMIT};

// n bits, read as a signed number, in 64.
fn extended(n: u32, x: u64) -> u64
    requires le_n { (1 ≤ n) × (n < 64) }
    requires x_bound { x < 2 ^ n }
    ensures { result ≡ E.SignExtend n x 64 }
{
    numbers::bits(numbers::signed_at(n, x))
}

// A word of a run, its PC, and the registers before it.
#[derive(Clone, Copy)]
struct Step<'a> {
    word: u32,
    pc: u64,
    registers: &'a [u64; REGISTERS],
}

impl Step<'_> {
    // ---- the parts of the word, by their names in the manual

    fn part(self, many: u32, at: u32) -> u64
        requires { (many ≤ 32) × (at < 32) }
        ensures { (result ≡ slice at many self.entry.word) × (result < 2 ^ many) }
    {
        fields::extract(u64::from(self.word), many, at)
    }

    fn i20(self) -> u64
        ensures { (result ≡ E.i20 self.entry.word) × (result < 2 ^ 20) }
    {
        self.part(20, 5)
    }

    fn i12(self) -> u64
        ensures { (result ≡ E.i12 self.entry.word) × (result < 2 ^ 12) }
    {
        self.part(12, 10)
    }

    fn rj(self) -> usize
        ensures { (result ≡ E.rj self.entry.word) × (result < 32) }
    {
        self.part(5, 5) as usize
    }

    fn rd(self) -> usize
        ensures { (result ≡ E.rd self.entry.word) × (result < 32) }
    {
        self.part(5, 0) as usize
    }

    // What rj holds.
    fn gr_rj(self) -> u64
        ensures { result ≡ E.GR self.entry.registers.now (E.rj self.entry.word) }
    {
        self.registers[self.rj()]
    }

    // ---- what each of the six writes to rd

    fn lu12i_w(self) -> u64
        ensures { result ≡ E.result E.lu12i_w self.entry.pc self.entry.word self.entry.registers.now }
    {
        extended(32, self.i20() << 12)
    }

    #[tactic(auto, using(crate::proofs::Laws::above_low_half))]
    fn lu32i_d(self) -> u64
        ensures { result ≡ E.result E.lu32i_d self.entry.pc self.entry.word self.entry.registers.now }
    {
        let own = self.registers[self.rd()];
        extended(20, self.i20()) << 32 | own & 0xffff_ffff
    }

    // PC plus what lu12i.w would write.
    fn pcalau12i(self) -> u64
        ensures { result ≡ E.result E.pcalau12i self.entry.pc self.entry.word self.entry.registers.now }
    {
        numbers::cleared(12, numbers::plus(self.pc, self.lu12i_w()))
    }

    fn lu52i_d(self) -> u64
        ensures { result ≡ E.result E.lu52i_d self.entry.pc self.entry.word self.entry.registers.now }
    {
        self.i12() << 52 | self.gr_rj() & 0xf_ffff_ffff_ffff
    }

    fn addi_d(self) -> u64
        ensures { result ≡ E.result E.addi_d self.entry.pc self.entry.word self.entry.registers.now }
    {
        numbers::plus(self.gr_rj(), extended(12, self.i12()))
    }

    fn ori(self) -> u64
        ensures { result ≡ E.result E.ori self.entry.pc self.entry.word self.entry.registers.now }
    {
        self.gr_rj() | self.i12()
    }

    // ---- which of the six the word is: a match for each format, since one match of all six takes up to 31 instructions a word

    // Those with an immediate of 20 bits, whose opcode is bits 31 to 25.
    #[tactic(auto, unfolding(meaning::specs::Executor::decoded, meaning::specs::Executor::six))]
    fn with_i20(self) -> Option<u64>
        ensures { result ≡ outcome_of (E.decoded (take 3 E.six) self.entry.word) self.entry.pc self.entry.word self.entry.registers.now }
    {
        match self.word >> 25 {
            0x0a => Some(self.lu12i_w()),
            0x0b => Some(self.lu32i_d()),
            0x0d => Some(self.pcalau12i()),
            _ => None,
        }
    }

    // Those with an immediate of 12 bits, whose opcode is bits 31 to 22.
    #[tactic(auto, unfolding(meaning::specs::Executor::decoded, meaning::specs::Executor::six))]
    fn with_i12(self) -> Option<u64>
        ensures { result ≡ outcome_of (E.decoded (drop 3 E.six) self.entry.word) self.entry.pc self.entry.word self.entry.registers.now }
    {
        match self.word >> 22 {
            0x0e => Some(self.ori()),
            0x0b => Some(self.addi_d()),
            0x0c => Some(self.lu52i_d()),
            _ => None,
        }
    }

    // What it writes to rd, if it is one of the six. Bit 28 is set in the opcode of the first three, and in none of the others.
    #[tactic(auto, unfolding(meaning::specs::Executor::decoded, meaning::specs::Executor::six))]
    fn result(self) -> Option<u64>
        ensures { result ≡ outcome_of (E.decoded E.six self.entry.word) self.entry.pc self.entry.word self.entry.registers.now }
    {
        if self.word < 1 << 28 {
            self.with_i12()
        } else {
            self.with_i20()
        }
    }
}

// A write to the first register is lost. It is put back to zero rather than tested for, which takes no branch.
fn write(registers: &mut [u64; REGISTERS], rd: usize, x: u64)
    requires { rd < 32 }
    ensures { registers.new ≡ E.written registers.old rd x }
{
    registers[rd] = x;
    registers[0] = 0;
}

// Carries out the words up to the first that is none of the six, and says how many bytes those were.
// It counts bytes, as PC does: with a count of words beside PC a word takes 26 instructions, and `make bench` allows 25.
#[tactic(auto, using(crate::proofs::Laws::going))]
fn carry_out(words: &[u8], start: u64, registers: &mut [u64; REGISTERS]) -> usize
    ensures within { result ≤ length words.now }
    ensures comes { E.ran_from start 0 registers.old (E.words_of words.now) ≡ carried_out words.now result registers.new }
{
    let (whole, _) = words.as_chunks::<4>();
    for (i, bytes) in whole.iter().enumerate() {
        let at = 4 * i;
        let step = Step {
            word: u32::from_le_bytes(*bytes),
            pc: numbers::plus(start, at as u64),
            registers,
        };
        let Some(x) = step.result() else {
            return at;
        };
        let rd = step.rd();
        write(registers, rd, x);
    }
    4 * whole.len()
}

// Any bytes, any start address and any registers get an answer: the number of words, or the refusal.
#[tactic(auto, using(crate::proofs::Laws::answers))]
pub fn run(words: &[u8], start: u64, registers: &mut [u64; REGISTERS]) -> Result<u32, Refused>
    ensures { Runs words.now start registers.old result registers.new }
{
    // The first register is zero from the start on.
    write(registers, 0, 0);
    if words.len() > RUN_LIMIT {
        return Err(Refused {
            refusal: Refusal::TooLong,
            place: 0,
        });
    }
    let done = carry_out(words, start, registers);
    let place = (done / 4) as u32;
    // A last piece of 1 to 3 bytes is none of the six.
    if done < words.len() {
        return Err(Refused {
            refusal: Refusal::UnknownWord,
            place,
        });
    }
    Ok(place)
}
