// The columns of Table 10, by the psABI's names: what an arm of the code hands on for its types.

#![tactic(auto)]

ghost use Rattle.std.specs.Prelude.{◌≡◌, ◌+◌, ◌≤◌, ◌<◌};

/// The values of a symbol.
#[derive(Clone, Copy, Debug, PartialEq, Eq)]
pub enum Value {
    S,
    G,
    Plt,
    T,
    Ie,
    Gd,
}

impl Value {
    ghost use Rattle.meaning.specs.Call.{bit};
    ghost use Rattle.table.specs.Columns.{value_from};

    /// Its bit of a row's mask.
    pub fn bit(self) -> u32
        ensures bit { result ≡ bit (value_from self) }
        ensures of_six { result < 6 }
    {
        self as u32
    }
}

/// A sum: a value alone, with the addend, or with GP.
#[derive(Clone, Copy, Debug, PartialEq, Eq)]
pub enum Sum {
    Only(Value),
    WithA(Value),
    WithGp(Value),
}

impl Sum {
    ghost use Rattle.meaning.specs.Call.{value_of};
    ghost use Rattle.table.specs.Columns.{value_from, sum_from};

    /// The value that it uses.
    pub fn value(self) -> Value
        ensures { value_from result ≡ value_of (sum_from self) }
    {
        match self {
            Sum::Only(value) | Sum::WithA(value) | Sum::WithGp(value) => value,
        }
    }
}

pub const S_PLUS_A: Sum = Sum::WithA(Value::S);

pub const GP_PLUS_G: Sum = Sum::WithGp(Value::G);

pub const GP_PLUS_IE: Sum = Sum::WithGp(Value::Ie);

pub const GP_PLUS_GD: Sum = Sum::WithGp(Value::Gd);

/// A formula: a sum itself, less PC, its upper part less PC's page, or less PC with its low 32 bits cleared.
#[derive(Clone, Copy, Debug, PartialEq, Eq)]
pub enum Formula {
    Whole(Sum),
    LessPc(Sum),
    Pages(Sum),
    Far(Sum),
}

impl Formula {
    ghost use Rattle.meaning.specs.Call.{sum_of};
    ghost use Rattle.table.specs.Columns.{sum_from, formula_from};

    /// The sum that it is made of.
    pub fn sum(self) -> Sum
        ensures { sum_from result ≡ sum_of (formula_from self) }
    {
        match self {
            Formula::Whole(sum) | Formula::LessPc(sum) | Formula::Pages(sum) | Formula::Far(sum) =>
                sum,
        }
    }
}

/// A part of a field: `many` bits, from the value's bit `low` to the word's bit `at`.
#[derive(Clone, Copy)]
pub struct Part {
    pub low: u32,
    pub many: u32,
    pub at: u32,
    pub ghost from_value: { low < 64 },
    pub ghost some: { 1 ≤ many },
    pub ghost to_word: { many + at ≤ 32 },
}

// [31..12] to [24..5], [11..0] to [21..10], [51..32] to [24..5], [63..52] to [21..10]
pub const HI20: Part = Part {
    low: 12,
    many: 20,
    at: 5,
};

pub const LO12: Part = Part {
    low: 0,
    many: 12,
    at: 10,
};

pub const LO20_64: Part = Part {
    low: 32,
    many: 20,
    at: 5,
};

pub const HI12_64: Part = Part {
    low: 52,
    many: 12,
    at: 10,
};

// [4..0] to [14..10], [15..0] to [25..10], [19..0] to [24..5], [31..0] to [31..0]
pub const LOW5: Part = Part {
    low: 0,
    many: 5,
    at: 10,
};

pub const LOW16: Part = Part {
    low: 0,
    many: 16,
    at: 10,
};

pub const LOW20: Part = Part {
    low: 0,
    many: 20,
    at: 5,
};

pub const WORD: Part = Part {
    low: 0,
    many: 32,
    at: 0,
};

// Of multiples of 4: [17..2] to [25..10], and above it [22..18] to [4..0] or [27..18] to [9..0]
pub const MID16: Part = Part {
    low: 2,
    many: 16,
    at: 10,
};

pub const HI5: Part = Part {
    low: 18,
    many: 5,
    at: 0,
};

pub const HI10: Part = Part {
    low: 18,
    many: 10,
    at: 0,
};

/// How the accepted values are taken: as signed numbers, as unsigned ones, or of the signed ones the multiples of 4.
#[derive(Clone, Copy, Debug, PartialEq, Eq)]
pub enum Sign {
    Signed,
    Unsigned,
    MultipleOf4,
}

/// The accepted values: the numbers of so many bits.
#[derive(Clone, Copy)]
pub struct Range {
    pub sign: Sign,
    pub bits: u32,
    pub ghost some: { 1 ≤ bits },
    pub ghost below_top: { bits < 63 },
}

// -16 to 15, -2,048 to 2,047, -32,768 to 32,767, -524,288 to 524,287
pub const SIGNED5: Range = Range {
    sign: Sign::Signed,
    bits: 5,
};

pub const SIGNED12: Range = Range {
    sign: Sign::Signed,
    bits: 12,
};

pub const SIGNED16: Range = Range {
    sign: Sign::Signed,
    bits: 16,
};

pub const SIGNED20: Range = Range {
    sign: Sign::Signed,
    bits: 20,
};

// 0 to 4,095, 0 to 4,294,967,295
pub const UNSIGNED12: Range = Range {
    sign: Sign::Unsigned,
    bits: 12,
};

pub const UNSIGNED32: Range = Range {
    sign: Sign::Unsigned,
    bits: 32,
};

pub const SIGNED18_BY4: Range = Range {
    sign: Sign::MultipleOf4,
    bits: 18,
};

pub const SIGNED23_BY4: Range = Range {
    sign: Sign::MultipleOf4,
    bits: 23,
};

pub const SIGNED28_BY4: Range = Range {
    sign: Sign::MultipleOf4,
    bits: 28,
};
