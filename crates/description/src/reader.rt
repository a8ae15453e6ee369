// A reader over a description that remembers how far it has read.
// Few functions take it, and each takes it apart; the work is done on the slice and the place.
ghost use Rattle.std.specs.Prelude.{◌≡◌};
ghost use Rattle.description.specs.reader.Reading.{after};

use le::u16_at;

#[derive(Clone, Copy)]
pub struct Reader<'a> {
    pub src: &'a [u8],
    pub at: usize,
}

// Nothing is read yet.
pub fn start<'a>(src: &'a [u8]) -> Reader<'a>
    ensures { (result.src ≡ src.entry) × (result.at ≡ 0) }
{
    Reader { src, at: 0 }
}

// The place after the field at a place; the end, where it overruns or no field is left.
pub fn place_after(s: &[u8], at: usize) -> usize
    ensures { result ≡ after s.now at }
{
    let n = s.len();
    if at < n {
        let next = at + 3 + (u16_at(s, at + 1) as usize);
        if next <= n {
            return next;
        }
    }
    n
}

// Past the field at its place.
pub fn on<'a>(r: Reader<'a>) -> Reader<'a>
    ensures { (result.src ≡ r.entry.src) × (result.at ≡ after r.entry.src.now r.entry.at) }
{
    let at = place_after(r.src, r.at);
    Reader { src: r.src, at }
}

// How far it has read.
pub fn place<'a>(r: Reader<'a>) -> usize
    ensures { result ≡ r.entry.at }
{
    r.at
}

// For callers that have no reader: where one stands that has read the first field.
pub fn second(s: &[u8]) -> usize
    ensures { result ≡ after s.now 0 }
{
    place(on(start(s)))
}
