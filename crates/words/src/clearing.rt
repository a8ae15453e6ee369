// Words set to 0.
ghost use Rattle.std.specs.Prelude.{◌≡◌, ◌≤◌, length};
ghost use Rattle.words.specs.clearing.Clearing.{cleared};

// The first n words are 0, the others stay.
pub fn clear(ws: &mut [u32], n: usize)
    requires { n ≤ length ws.old }
    ensures { ws.new ≡ cleared ws.old n }
{
    ws[..n].fill(0);
}
