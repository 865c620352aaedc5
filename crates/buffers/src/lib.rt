// Buffers of a fixed length, for programs.
#![tactic(auto)]

ghost use Rattle.std.specs.Prelude.{◌≡◌, ◌<◌, ℕ, length, get_or};

// N zeros.
pub fn zeros<const N: usize>() -> [u8; N]
    ensures len { N ≡ length result }
    ensures all { (k : ℕ) → k < N → get_or result k 1 ≡ 0 }
{
    [0; N]
}
