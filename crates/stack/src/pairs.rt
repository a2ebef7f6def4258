// What the operations with two operands do with numbers.

ghost use Rattle.std.specs.Prelude.{◌≡◌, ◌<◌, false, cond, pos, nat_abs};
ghost use Rattle.meaning.specs.Stack as M;
ghost use Rattle.meaning.specs.Checks.{not_count, refuses};
ghost use Rattle.stack.specs.Pairs.{pair_of};

/// The operations with two operands. A case each and no closure, since the contracts say by its name what an operation does.
#[derive(Clone, Copy, Debug, PartialEq, Eq)]
pub enum Pair {
    Sub,
    Sl,
    Sr,
    Add,
    And,
}

// Whether a shift count is not 0 to 63. The bits of a number below 0 are far above.
fn not_count(z: i64) -> bool
    ensures { result ≡ not_count 64 z }
{
    numbers::bits(z) > 63
}

fn count(z: i64) -> u32
    requires { not_count 64 z ≡ false }
    ensures { (result ≡ nat_abs z) × (result < 64) }
{
    numbers::bits(z) as u32
}

// Refusal 12: whether an operation is a shift and the entry on top no count.
pub(crate) fn refuses_count(operation: Pair, top: i64) -> bool
    ensures { cond result 12 0 ≡ refuses 64 (pair_of operation) top }
{
    match operation {
        Pair::Sl | Pair::Sr => not_count(top),
        Pair::Sub | Pair::Add | Pair::And => false,
    }
}

// What an operation with two operands pushes.
pub(crate) fn pushes(operation: Pair, opr1: i64, opr2: i64) -> i64
    requires { refuses 64 (pair_of operation) opr2 ≡ 0 }
    ensures { result ≡ M.entry (M.pushes 64 (pair_of operation) opr2 opr1 (pos 0)) 0 }
{
    match operation {
        Pair::Sub => numbers::sub(opr1, opr2),
        Pair::Sl => numbers::shift_left(opr1, count(opr2)),
        Pair::Sr => numbers::shift_right(opr1, count(opr2)),
        Pair::Add => numbers::add(opr1, opr2),
        Pair::And => numbers::and(opr1, opr2),
    }
}
