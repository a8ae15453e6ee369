// The width of a guarded value, from its mask and flow.
ghost use Rattle.std.specs.Prelude.{◌≡◌, ◌<◌, get_or};
ghost use Rattle.extents.specs.Extent.{exact_width};
ghost use Rattle.flows.specs.Flow.{absent};
ghost use Rattle.cells.specs.Cell.{guarded_width};

use extents::Extent;
use flows::Flow;
use masks::Mask;
use widths::{Width, scalar_width};

// The size of a value of one kind, a body's from the extent of its kind. No caller here: document 01 asks for it. As in types.rs it serves
// later passes.
pub fn guarded_width(mask: Mask, flow: Flow, float: u32) -> Width
    ensures { result ≡ guarded_width mask flow float }
{
    let folded = mask.kind();
    if mask.one_kind() & folded.has(Mask::BODY) {
        let bodies = flow.bodies;
        let index = (u16::trailing_zeros(folded.bits) - 8) as usize;
        return body_width(bodies, index);
    }
    scalar_width(mask, float)
}

fn body_width(bodies: [Extent; 4], index: usize) -> Width
    requires { index < 4 }
    ensures { result ≡ exact_width (get_or bodies index absent) }
{
    let e = bodies[index];
    e.exact_width()
}
