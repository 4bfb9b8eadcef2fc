//! ZigZag: signed numbers as unsigned ones, small if the number is near 0 (Protocol Buffers, "Encoding", "Signed
//! Integers").

ghost use Rattle.std.specs.Prelude.{◌≡◌, ℤ, FitsSigned};
ghost use Rattle.std.specs.Int.{w64, cast_unsigned, cast_signed};
ghost use Rattle.wire_base.specs.Encoding.{zigzag_of};

/// The ZigZag number of `v`: 0, -1, 1, -2, .. are 0, 1, 2, 3, ..
pub fn zigzag(v: i64) -> u64
    ensures { result ≡ zigzag_of (cast_unsigned w64 v) }
{
    if v < 0 {
        2 * (-(v + 1)).cast_unsigned() + 1
    } else {
        2 * v.cast_unsigned()
    }
}

/// The number whose ZigZag number is `v`.
pub fn unzigzag(v: u64) -> i64
    ensures reads { zigzag_of (cast_unsigned w64 result) ≡ v }
    ensures undoes { (x : ℤ) → FitsSigned w64 x → v ≡ zigzag_of (cast_unsigned w64 x) → result ≡ x }
{
    let half = (v / 2) as i64;
    if v % 2 == 0 { half } else { -half - 1 }
}
