// A shape that was found sound, with its plan: what the functions inside the project take once its checks have passed.
ghost use Rattle.shape.specs.Inner.{Good, good-prop};

use crate::{Plan, Refusal, Shape, check_shape};

// A shape that no row of 1, 2, 24, 3 refuses, and its plan.
#[derive(Clone, Copy)]
pub struct SoundShape {
    pub shape: Shape,
    pub plan: Plan,
    pub ghost good: { Good shape plan } by { good-prop shape plan },
}

// The checks of a shape in the paper's order: the refusal, or the shape with its plan.
impl TryFrom<Shape> for SoundShape {
    ghost use Rattle.shape.specs.Sound.{Found};

    type Error = Refusal;

    ghost try_from_gives = { Found };

    fn try_from(shape: Shape) -> Result<SoundShape, Refusal> {
        let plan = check_shape(shape)?;
        Ok(SoundShape { shape, plan })
    }
}
