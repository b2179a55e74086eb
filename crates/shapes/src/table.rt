// The common denominator of each shape.
ghost use Rattle.std.specs.Prelude.{◌≡◌};
ghost use Rattle.shapes.specs.Denominator.{Denominator, denominator_of};

use crate::shape::Shape;

// A row for each fan-out from 2 on, an entry for each height from 1 on, as far as there are shapes.
const DENOMINATORS: [&[u64]; 15] = [
    &[
        1,
        3,
        21,
        105,
        3255,
        9765,
        1240155,
        21082635,
        1539032355,
        16929355905,
    ],
    &[1, 4, 52, 520, 62920, 440440],
    &[1, 5, 105, 1785, 608685],
    &[1, 6, 186, 4836, 3776916],
    &[1, 7, 301, 11137],
    &[1, 8, 456, 22800],
    &[1, 9, 657, 42705],
    &[1, 10, 910, 74620],
    &[1, 11, 1221],
    &[1, 12, 1596],
    &[1, 13, 2041],
    &[1, 14, 2562],
    &[1, 15, 3165],
    &[1, 16, 3856],
    &[1, 17, 4641],
];

impl Shape {
    // D, the least common multiple of S_1 to S_L.
    pub fn denominator(self) -> u64
        ensures value { result ≡ denominator_of self.fanout self.height }
        ensures law { Denominator self.fanout self.height result }
    {
        DENOMINATORS[self.fanout - 2][self.height - 1]
    }
}
