// The declared shapes of a description: of parameters, results and sites, read at a place.
ghost use Rattle.std.specs.Prelude.{◌≡◌, ◌+◌, ◌<◌, ◌^◌};
ghost use Rattle.description.specs.Fields.{param_of, result_of, shape_of, yielded_of, reply_of};

use crate::{next_at, params_at, params_of};
use le::{u8_at, u32_at};
use widths::Shape;

pub fn param_at(s: &[u8], p: usize, i: usize) -> Shape
    requires { (p < 2 ^ 62) × (i < 2 ^ 32) }
    ensures { result ≡ param_of s.now p i }
{
    shape_at(s, params_at(s, p) + 1 + 7 * i)
}

pub fn declared_result(s: &[u8], p: usize) -> Shape
    requires { p < 2 ^ 62 }
    ensures { result ≡ result_of s.now p }
{
    param_at(s, p, params_of(s, p) as usize)
}

pub fn shape_at(s: &[u8], q: usize) -> Shape
    requires { q < 2 ^ 63 }
    ensures { result ≡ shape_of s.now q }
{
    Shape {
        tag: u8_at(s, q),
        kind: u8_at(s, q + 1),
        width: u8_at(s, q + 2),
        size: u32_at(s, q + 3),
    }
}

pub fn site_yielded(s: &[u8], p: usize) -> Shape
    requires { p < 2 ^ 61 }
    ensures { result ≡ yielded_of s.now p }
{
    shape_at(s, next_at(s, p) + 3)
}

pub fn site_reply(s: &[u8], p: usize) -> Shape
    requires { p < 2 ^ 61 }
    ensures { result ≡ reply_of s.now p }
{
    shape_at(s, next_at(s, p) + 10)
}
