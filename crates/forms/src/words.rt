// The binary digits of a 64-bit word.
ghost use Rattle.std.specs.Prelude.{◌≡◌, ℕ, ◌-◌, ◌%◌, ◌^◌, ◌<◌, ◌≤◌, bit_and, nat_le, nat_lt};

// A word whose lowest `count` digits are ones, all of them from 64 up: a mask that takes the lowest digits, and the greatest number that they can be.
#[tactic(auto, using(crate::proofs::Shifts::ones_take, crate::proofs::Shifts::word_take, crate::proofs::Shifts::word_cover))]
pub fn ones(count: u32) -> u64
    ensures value { count ≤ 64 → result ≡ 2 ^ count - 1 }
    ensures takes { (n : ℕ) → n < 2 ^ 64 → bit_and n result ≡ n % 2 ^ count }
    ensures covers { (n : ℕ) → n < 2 ^ 64 → nat_le n result ≡ nat_lt n (2 ^ count) }
{
    if count < 64 {
        (1 << count) - 1
    } else {
        u64::MAX
    }
}

// The lowest digits, so many of them.
pub fn low_digits(bits: u64, count: u32) -> u64
    ensures { result ≡ bits % 2 ^ count }
{
    bits & ones(count)
}

// Whether there is no digit above the lowest `width`.
pub fn fits(bits: u64, width: u32) -> bool
    ensures { result ≡ nat_lt bits (2 ^ width) }
{
    bits <= ones(width)
}
