// Bytes as numbers, little-endian: what a part of a slice holds, and storing a number's low bytes into one.
// Where n is known as the code is compiled, a part of 1, 2, 4 or 8 bytes is one load or one store. n, at most eight, stands beside the part
// since what comes after the first n bytes is promised to stay; it is a literal or a type's own width at each call, and a type for it would
// be made of that there.

#![tactic(auto)]

ghost use Rattle.std.specs.Prelude.{◌≡◌, ◌++◌, ◌≤◌, length, drop};
ghost use Rattle.meaning.specs.Numbers.{bytes_of};
ghost use Rattle.bytes_le.specs.Little.{Little};

// The n bytes copied over zeros: one load where n is known as the code is compiled.
fn copied(part: &[u8], n: usize) -> u64
    requires n_bound { n ≤ 8 }
    requires n_in_bounds { n ≤ length part.now }
    ensures { Little n part.now result }
{
    let mut bytes = [0; 8];
    bytes[..n].copy_from_slice(&part[..n]);
    u64::from_le_bytes(bytes)
}

// The number that the first n bytes hold. A copy of n bytes is a call where n is not known as the code is compiled: eight bytes, and four, are
// one load there too, and the others are taken one by one.
pub fn get(part: &[u8], n: usize) -> u64
    requires n_bound { n ≤ 8 }
    requires n_in_bounds { n ≤ length part.now }
    ensures { Little n part.now result }
{
    match n {
        8 => copied(part, 8),
        4 => copied(part, 4),
        _ => part[..n]
            .iter()
            .rev()
            .fold(0, |number, byte| number << 8 | u64::from(*byte)),
    }
}

// Stores the low n bytes of x in front; what stands after them stays.
#[tactic(auto, using(crate::proofs::Laws::stored))]
pub fn put(part: &mut [u8], n: usize, x: u64)
    requires n_bound { n ≤ 8 }
    requires n_in_bounds { n ≤ length part.old }
    ensures { part.new ≡ bytes_of n x ++ drop n part.old }
{
    part[..n].copy_from_slice(&x.to_le_bytes()[..n]);
}
