// The halving way: one cut of four scaled controls at the middle of their span, into the controls of its two halves, eight times as large. Each half is written out as its splitting matrix is: one by
// the other, turned round twice, would be no plainer.
ghost use Rattle.std.specs.Prelude.{◌≡◌, ◌^◌};
ghost use Rattle.curve.specs.Limits.{Inside};
ghost use Rattle.curve.specs.Ways.{left_half, right_half};

use crate::Four;

impl Four {
    // The controls of the left half.
    pub fn left_half(self) -> Four
        requires { Inside (2 ^ 59) self }
        ensures { result ≡ left_half self }
    {
        let m = self.a + self.b;
        let n = self.b + self.c;
        let o = self.c + self.d;
        Four {
            a: 8 * self.a,
            b: 4 * m,
            c: 2 * (m + n),
            d: m + n + (n + o),
        }
    }

    // The controls of the right half.
    pub fn right_half(self) -> Four
        requires { Inside (2 ^ 59) self }
        ensures { result ≡ right_half self }
    {
        let m = self.a + self.b;
        let n = self.b + self.c;
        let o = self.c + self.d;
        Four {
            a: m + n + (n + o),
            b: 2 * (n + o),
            c: 4 * o,
            d: 8 * self.d,
        }
    }
}
