//! The generator of numbers behind the picks of a serial run and the scripts that a number makes.

ghost use Rattle.std.specs.Prelude.{◌≡◌};
ghost use Rattle.argo_base.specs.Generator as generator;

/// The number after this one: a linear congruential generator modulo 2^64, with the constants of Knuth's MMIX.
pub fn next_number(number: u64) -> u64
    ensures { result ≡ generator.next_number number }
{
    number
        .wrapping_mul(6364136223846793005)
        .wrapping_add(1442695040888963407)
}

/// What a draw gives that leaves the generator at this number: its upper 31 bits.
pub fn drawn(number: u64) -> u64
    ensures { result ≡ generator.drawn number }
{
    number / (1 << 33)
}
