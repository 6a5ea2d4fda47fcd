// The differences' way: the start values of a span, and one step of three additions.
ghost use Rattle.std.specs.Prelude.{◌≡◌, ◌≤◌, ◌^◌, nat_abs};
ghost use Rattle.curve.specs.Limits.{Inside};
ghost use Rattle.curve.specs.Inner.{widest, Small};
ghost use Rattle.curve.specs.Ways.{deepest, differences, advance};

use crate::{Differences, Four};

impl Differences {
    // The sum at the start of a span of `steps` steps, and its differences there.
    pub fn begin(q: Four, steps: i64) -> Differences
        requires inside { Inside widest q }
        requires steps_bound { nat_abs steps ≤ 2 ^ deepest }
        ensures { result ≡ differences q steps }
    {
        let cubed = q.d - q.a + 3 * (q.b - q.c);
        let squared = 3 * (q.a - 2 * q.b + q.c);
        let single = 3 * (q.b - q.a);
        Differences {
            value: q.a * steps * steps * steps,
            first: (single * steps + squared) * steps + cubed,
            second: 6 * cubed + 2 * squared * steps,
            third: 6 * cubed,
        }
    }

    // One step on.
    pub fn next(self) -> Differences
        requires { Small self }
        ensures { result ≡ advance self }
    {
        Differences {
            value: self.value + self.first,
            first: self.first + self.second,
            second: self.second + self.third,
            third: self.third,
        }
    }
}
