// Four extents, one for each body kind.
ghost use Rattle.std.specs.Prelude.{◌≡◌};
ghost use Rattle.extents.specs.Extent.{join_bodies};

use crate::Extent;

// Four extents joined element by element, and handed back.
pub fn join_bodies(a: [Extent; 4], b: [Extent; 4]) -> [Extent; 4]
    ensures { result ≡ join_bodies a b }
{
    [
        a[0].with(b[0]),
        a[1].with(b[1]),
        a[2].with(b[2]),
        a[3].with(b[3]),
    ]
}
