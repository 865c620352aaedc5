// A bit of a number, and the larger of two.
#![tactic(auto)]

ghost use Rattle.std.specs.Prelude.{◌≡◌, max};
ghost use Rattle.notation.specs.Words.{bit};

// The larger of two numbers.
pub fn greatest(a: usize, b: usize) -> usize
    ensures { result ≡ max a b }
{
    a.max(b)
}

// The bit of weight k of a word is set. No bit has weight 0.
pub fn bit(n: u32, k: u32) -> bool
    ensures { result ≡ bit n k }
{
    k != 0 && n / k % 2 == 1
}
