// How far a number may lie from zero.
ghost use Rattle.std.specs.Prelude.{◌≡◌, T, nat_abs};
ghost use Rattle.std.specs.Int.Signed.{non_neg};
ghost use Rattle.curve.specs.Limits.{beyond};

// Whether a number is further from zero than `most`, either way.
pub fn is_beyond(z: i32, most: i32) -> bool
    requires { T (non_neg most) }
    ensures { result ≡ beyond (nat_abs most) z }
{
    !(-most..=most).contains(&z)
}
