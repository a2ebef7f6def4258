// One part of a field, shifted and masked into an instruction word and out of it. A word is held in a u64, below 2 ^ 32, so that a part
// as wide as the word needs no path of its own.
// A part's numbers come one by one: the clauses of `extract` and `insert` take a part of no bits, too, which table's Part never is.

#![tactic(auto)]

ghost use Rattle.std.specs.Prelude.{◌≡◌, ◌+◌, ◌-◌, ◌^◌, ◌≤◌, ◌<◌};
ghost use Rattle.meaning.specs.Field.{slice, splice};

// A mask of the n low bits.
fn ones(n: u32) -> u64
    requires { n ≤ 32 }
    ensures { result ≡ 2 ^ n - 1 }
{
    (1u64 << n) - 1
}

// The `many` bits of x from bit `at` up.
#[tactic(auto, using(std::proofs::lemmas::Nat::and_mask, std::proofs::lemmas::Nat::mod_below, std::proofs::lemmas::Nat::pow_pos))]
pub fn extract(x: u64, many: u32, at: u32) -> u64
    requires { (many ≤ 32) × (at < 64) }
    ensures { (result ≡ slice at many x) × (result < 2 ^ many) }
{
    (x >> at) & ones(many)
}

// The word with its `many` bits from bit `at` up replaced by those of the value from bit `low` up.
pub fn insert(word: u64, value: u64, low: u32, many: u32, at: u32) -> u64
    requires { (word < 2 ^ 32) × ((low < 64) × (many + at ≤ 32)) }
    ensures { (result ≡ splice at many (slice low many value) word) × (result < 2 ^ 32) }
{
    let kept = word & !(ones(many) << at);
    kept | (extract(value, many, low) << at)
}
