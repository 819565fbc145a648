// What one bid adds to a sum over a list.
ghost use Rattle.std.specs.Prelude.{◌≡◌, pos, ◌≤ℤ◌, ◌*ℤ◌, cond};
ghost use Rattle.mix_num.specs.Ranges.{Lies};

/// The product of a weight and a gain.
pub fn weigh(weight: i64, gain: i64) -> i64
    requires weight { Lies 10000 weight }
    requires gain { (pos 0 ≤ℤ gain) × (gain ≤ℤ pos 5000000) }
    ensures value { result ≡ weight *ℤ gain }
    ensures range { Lies 50000000000 result }
{
    weight * gain
}

/// The weight where the test holds, or 0.
pub fn weight_where(test: bool, weight: i64) -> i64
    requires { Lies 10000 weight }
    ensures value { result ≡ cond test weight (pos 0) }
    ensures range { Lies 10000 result }
{
    if test { weight } else { 0 }
}
