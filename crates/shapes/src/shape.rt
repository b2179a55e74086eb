// A shape: a fan-out and a height that a table may have.
ghost use Rattle.shapes.specs.Laid.{Shapely};

#[derive(Clone, Copy, PartialEq, Eq, Debug)]
pub struct Shape {
    pub fanout: usize,
    pub height: usize,
    ghost shapely: { Shapely fanout height },
}
