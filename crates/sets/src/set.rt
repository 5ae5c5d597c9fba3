// A parameter set that the engine runs.
ghost use Rattle.sets.specs.Valid.{Valid};

use banquet::Shape;

// Its numbers, which specs/Valid bounds: the code over them is proved for each such set.
#[derive(Clone, Copy)]
pub struct ParameterSet {
    pub shape: Shape,
    ghost valid: { Valid shape },
}
