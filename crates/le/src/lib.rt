// Numbers in bytes, low byte first. A read past the end gives 0.
#![tactic(auto)]

ghost use Rattle.std.specs.Prelude.{◌≡◌, ◌+◌, ◌<◌, ◌≤◌, ◌^◌, length, [], ◌∷◌};
ghost use Rattle.le.specs.Le.{at8, at16, at32, le16, le32};
ghost use Rattle.le.specs.Wrote.{WroteN};

pub fn u8_at(s: &[u8], at: usize) -> u8
    ensures { result ≡ at8 s.now at }
{
    if at < s.len() { s[at] } else { 0 }
}

pub fn u16_at(s: &[u8], at: usize) -> u16
    requires { at + 1 < 2 ^ 64 }
    ensures { result ≡ at16 s.now at }
{
    u16::from_le_bytes([u8_at(s, at), u8_at(s, at + 1)])
}

pub fn u32_at(s: &[u8], at: usize) -> u32
    requires { at + 3 < 2 ^ 64 }
    ensures { result ≡ at32 s.now at }
{
    u32::from_le_bytes([
        u8_at(s, at),
        u8_at(s, at + 1),
        u8_at(s, at + 2),
        u8_at(s, at + 3),
    ])
}

// The same where all the bytes are there: none is asked about.
pub fn u16_inside(s: &[u8], at: usize) -> u16
    requires { at + 2 ≤ length s.now }
    ensures { result ≡ at16 s.now at }
{
    u16::from_le_bytes([s[at], s[at + 1]])
}

pub fn u32_inside(s: &[u8], at: usize) -> u32
    requires { at + 4 ≤ length s.now }
    ensures { result ≡ at32 s.now at }
{
    u32::from_le_bytes([s[at], s[at + 1], s[at + 2], s[at + 3]])
}

// The bytes from the place on.
fn put<const N: usize>(buf: &mut [u8], at: usize, bytes: &[u8; N]) -> usize
    requires { at + N ≤ length buf.old }
    ensures { WroteN buf.old at N bytes.now buf.new result }
{
    for k in 0..N {
        buf[at + k] = bytes[k];
    }
    at + N
}

// Each write answers the place after it.
pub fn put8(buf: &mut [u8], at: usize, x: u8) -> usize
    requires { at + 1 ≤ length buf.old }
    ensures { WroteN buf.old at 1 (x ∷ []) buf.new result }
{
    buf[at] = x;
    at + 1
}

pub fn put16(buf: &mut [u8], at: usize, x: u16) -> usize
    requires { at + 2 ≤ length buf.old }
    ensures { WroteN buf.old at 2 (le16 x) buf.new result }
{
    put(buf, at, &u16::to_le_bytes(x))
}

pub fn put32(buf: &mut [u8], at: usize, x: u32) -> usize
    requires { at + 4 ≤ length buf.old }
    ensures { WroteN buf.old at 4 (le32 x) buf.new result }
{
    put(buf, at, &u32::to_le_bytes(x))
}
