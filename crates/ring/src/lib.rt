// A ring of entries in the words from base on, as many as there are.
#![tactic(auto)]

ghost use Rattle.std.specs.Prelude.{◌≡◌, ◌+◌, ◌-◌, ◌<◌, length};
ghost use Rattle.ring.specs.Ring.{wrap_of, pushed, grown, due_of, popped_of, QueueReady};

#[derive(Clone, Copy)]
pub struct Queue {
    pub head: usize,
    pub count: usize,
}

fn wrap(at: usize, cap: usize) -> usize
    ensures { result ≡ wrap_of at cap }
{
    if at < cap { at } else { at - cap }
}

// Puts an entry at the end; the caller has seen that there is room.
pub fn push(ws: &mut [u32], base: usize, q: Queue, entry: u32) -> Queue
    requires queue_ready { QueueReady ws.old base q }
    requires count_in_bounds { q.count < length ws.old - base }
    ensures { (ws.new ≡ pushed ws.old base q entry) × (result ≡ grown q) }
{
    let cap = ws.len() - base;
    let at = wrap(q.head + q.count, cap);
    ws[base + at] = entry;
    Queue {
        head: q.head,
        count: q.count + 1,
    }
}

// The entry due; the caller has seen that there is one.
pub fn peek(ws: &[u32], base: usize, q: Queue) -> u32
    requires { QueueReady ws.now base q }
    ensures { result ≡ due_of ws.now base q }
{
    let head = q.head;
    ws[base + head]
}

// The queue without the entry due.
pub fn popped(ws: &[u32], base: usize, q: Queue) -> Queue
    requires queue_ready { QueueReady ws.now base q }
    requires count_nonzero { 0 < q.count }
    ensures { result ≡ popped_of ws.now base q }
{
    Queue {
        head: wrap(q.head + 1, ws.len() - base),
        count: q.count - 1,
    }
}
