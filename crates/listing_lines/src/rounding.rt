// The nearest whole number to a fraction.
ghost use Rattle.std.specs.Prelude.{◌≡◌, ◌<◌, ◌≤◌};
ghost use Rattle.denial.specs.Rules.{Answers};
ghost use Rattle.listing_lines.specs.Nearest.{NearestWhole, OneNearest, nearest, nearest_rules, nearest_size};

use denial::{Denial, Reason};

// The nearest whole number to a fraction of this size: of two as near, the larger.
fn nearest_size(size: u64, denominator: u64) -> u64
    requires { 0 < denominator }
    ensures value { result ≡ nearest_size size denominator }
    ensures bound { result ≤ size }
{
    let rest = size % denominator;
    size / denominator + u64::from(rest >= denominator - rest)
}

// The nearest whole number to `numerator / denominator`. A half goes away from zero.
pub fn nearest(numerator: i64, denominator: u64) -> Result<i64, Denial>
    ensures { Answers (nearest_rules denominator)
        (λ x. (x ≡ nearest numerator denominator) × NearestWhole numerator denominator x
        × OneNearest numerator denominator) result }
{
    if denominator == 0 {
        return Err(Denial {
            reason: Reason::ZeroDenominator,
            place: 0,
        });
    }
    let size = i128::from(nearest_size(numerator.unsigned_abs(), denominator));
    let signed = if numerator < 0 { -size } else { size };
    Ok(signed as i64)
}
