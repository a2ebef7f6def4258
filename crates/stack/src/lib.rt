// The stack of signed numbers: its depth, taking and pushing an entry, and the operations by the psABI's names, judged and carried out.
// A `Stack` is the number of its entries. The entries lie in an array that the caller keeps, the top one at height - 1: the array beside the
// stack, and not in it, is document 01's form.

#![tactic(auto)]

ghost use Rattle.std.specs.Prelude.{◌≡◌, ◌∷◌, suc, ◌+◌, ◌≤◌, ◌<◌, cond, ltb, drop};
ghost use Rattle.meaning.specs.Table as T;
ghost use Rattle.meaning.specs.Stack as M;
ghost use Rattle.meaning.specs.Stack.{depth};

pub use pairs::Pair;
use refusals::Refusal;

mod pairs;

#[derive(Clone, Copy)]
pub struct Stack {
    pub height: usize,
    pub ghost low: { height ≤ depth },
}

fn is_zero(z: i64) -> bool
    ensures { result ≡ M.is_zero z }
{
    z == 0
}

fn either(test: bool, y: i64, z: i64) -> i64
    ensures { result ≡ cond test y z }
{
    if test { y } else { z }
}

#[tactic(auto, using(crate::proofs::Laws::stack_laws))]
impl Stack {
    ghost use Rattle.stack.specs.Pairs.{pair_of};
    ghost use Rattle.stack.specs.Tops.{tops, taken_in, taken_at, pushed_in, pushed_at, entries_at, Holds, Judges, Operates, JudgesOperation, Passes};

    pub const DEPTH: usize = 16;

    pub fn empty() -> Stack
        ensures { result.height ≡ 0 }
    {
        Stack { height: 0 }
    }

    /// The entry on top with the stack below it; none is refusal 10.
    pub fn take(self, entries: &[i64; Stack::DEPTH]) -> Option<(i64, Stack)>
        ensures { taken_in result ≡ taken_at entries.now self.height }
    {
        let top = self.height.checked_sub(1)?;
        Some((entries[top], Stack { height: top }))
    }

    /// The stack with an entry on top; none is refusal 11.
    pub fn push(self, entries: &mut [i64; Stack::DEPTH], z: i64) -> Option<Stack>
        ensures stack { pushed_in result ≡ pushed_at self.height }
        ensures entries { entries.new ≡ entries_at entries.old self.height z }
    {
        let height = self.height;
        if height == Stack::DEPTH {
            return None;
        }
        entries[height] = z;
        Some(Stack { height: height + 1 })
    }

    // ---- carried out, where nothing is refused: a function for each operation of the psABI but the pairs, since they differ in what they do

    /// The entry k below the top.
    pub fn entry(self, entries: &[i64; Stack::DEPTH], k: usize) -> i64
        requires { k < self.height }
        ensures { result ≡ M.entry (tops entries.now self.height) k }
    {
        let at = self.height - 1 - k;
        entries[at]
    }

    /// So many entries taken, and one pushed.
    pub fn replace(self, entries: &mut [i64; Stack::DEPTH], takes: usize, z: i64) -> Stack
        requires { (takes ≤ self.height) × (self.height < depth + takes) }
        ensures { Holds (z ∷ drop takes (tops entries.old self.height)) entries.new result.height }
    {
        let at = self.height - takes;
        entries[at] = z;
        Stack { height: at + 1 }
    }

    pub fn duplicate(self, entries: &mut [i64; Stack::DEPTH]) -> Stack
        requires { Passes T.dup entries.old self.height }
        ensures { Operates T.dup entries.old self.height entries.new result.height }
    {
        let top = self.entry(entries, 0);
        self.replace(entries, 0, top)
    }

    pub fn asserted(self, entries: &[i64; Stack::DEPTH]) -> Stack
        requires { Passes T.assert entries.now self.height }
        ensures { Operates T.assert entries.now self.height entries.now result.height }
    {
        Stack {
            height: self.height - 1,
        }
    }

    pub fn negate(self, entries: &mut [i64; Stack::DEPTH]) -> Stack
        requires { Passes T.not entries.old self.height }
        ensures { Operates T.not entries.old self.height entries.new result.height }
    {
        let top = self.entry(entries, 0);
        self.replace(entries, 1, either(is_zero(top), 1, 0))
    }

    /// sub, sl, sr, add and and.
    pub fn combine(self, operation: Pair, entries: &mut [i64; Stack::DEPTH]) -> Stack
        requires { Passes (pair_of operation) entries.old self.height }
        ensures { Operates (pair_of operation) entries.old self.height entries.new result.height }
    {
        let opr2 = self.entry(entries, 0);
        let opr1 = self.entry(entries, 1);
        self.replace(entries, 2, pairs::pushes(operation, opr1, opr2))
    }

    pub fn choose(self, entries: &mut [i64; Stack::DEPTH]) -> Stack
        requires { Passes T.if_else entries.old self.height }
        ensures { Operates T.if_else entries.old self.height entries.new result.height }
    {
        let opr3 = self.entry(entries, 0);
        let opr2 = self.entry(entries, 1);
        let opr1 = self.entry(entries, 2);
        self.replace(entries, 3, either(is_zero(opr1), opr3, opr2))
    }

    // ---- judged

    /// A push: refusal 11 where there is no room.
    pub fn put(self, entries: &mut [i64; Stack::DEPTH], z: i64) -> Result<Stack, Refusal>
        ensures { Judges (cond (ltb depth (suc self.height)) 11 0) (z ∷ tops entries.old self.height) entries.new result }
    {
        // by `ok_or` a record of the stack mix takes three instructions more
        let Some(above) = self.push(entries, z) else {
            return Err(Refusal::StackFull);
        };
        Ok(above)
    }

    /// Refusal 10 on an empty stack, 11 on a full one: what dup takes it leaves.
    pub fn dup(self, entries: &mut [i64; Stack::DEPTH]) -> Result<Stack, Refusal>
        ensures { JudgesOperation T.dup entries.old self.height entries.new result }
    {
        let Some((top, _)) = self.take(entries) else {
            return Err(Refusal::StackEmpty);
        };
        self.put(entries, top)
    }

    pub fn assert(self, entries: &[i64; Stack::DEPTH]) -> Result<Stack, Refusal>
        ensures { JudgesOperation T.assert entries.now self.height entries.now result }
    {
        let Some((top, _)) = self.take(entries) else {
            return Err(Refusal::StackEmpty);
        };
        if is_zero(top) {
            return Err(Refusal::Assertion);
        }
        Ok(self.asserted(entries))
    }

    pub fn not(self, entries: &mut [i64; Stack::DEPTH]) -> Result<Stack, Refusal>
        ensures { JudgesOperation T.not entries.old self.height entries.new result }
    {
        let Some(_) = self.take(entries) else {
            return Err(Refusal::StackEmpty);
        };
        Ok(self.negate(entries))
    }

    /// sub, sl, sr, add and and, which take two.
    pub fn pair(self, operation: Pair, entries: &mut [i64; Stack::DEPTH]) -> Result<Stack, Refusal>
        ensures { JudgesOperation (pair_of operation) entries.old self.height entries.new result }
    {
        let Some((opr2, under)) = self.take(entries) else {
            return Err(Refusal::StackEmpty);
        };
        let Some(_) = under.take(entries) else {
            return Err(Refusal::StackEmpty);
        };
        if pairs::refuses_count(operation, opr2) {
            return Err(Refusal::ShiftCount);
        }
        Ok(self.combine(operation, entries))
    }

    /// if_else, which takes three.
    pub fn if_else(self, entries: &mut [i64; Stack::DEPTH]) -> Result<Stack, Refusal>
        ensures { JudgesOperation T.if_else entries.old self.height entries.new result }
    {
        let Some((_, second)) = self.take(entries) else {
            return Err(Refusal::StackEmpty);
        };
        let Some((_, third)) = second.take(entries) else {
            return Err(Refusal::StackEmpty);
        };
        let Some(_) = third.take(entries) else {
            return Err(Refusal::StackEmpty);
        };
        Ok(self.choose(entries))
    }
}
