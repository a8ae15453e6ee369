// The rules of a table's entry: the lowest number of a fault, or 0.
ghost use Rattle.std.specs.Prelude.{◌≡◌, ◌<◌, ◌^◌};
ghost use Rattle.definition.specs.Form.{table_fault};

use crate::{low, shape_fine};
use description::shape_at;
use le::u8_at;

// Document 01's largest counts: natives, and fields of each of the tags 6, 7 and 8.
const MOST_NATIVES: u32 = 256;

const MOST_FIELDS: u32 = 1024;

// A field of tags 5 to 8, after so many of its tag.
pub fn table_fault(s: &[u8], p: usize, tag: u8, due: bool, len: u16, count: u32) -> u8
    requires { p < 2 ^ 61 }
    ensures { result ≡ table_fault s.now p tag due len count }
{
    if tag == 5 {
        let shaped = shape_fine(shape_at(s, p + 3));
        let flag = u8_at(s, p + 10);
        return low(
            !due | (len != 8) | !shaped | (1 < flag),
            MOST_NATIVES <= count,
            false,
            false,
        );
    }
    if tag == 6 {
        return low(!due | (len != 1), MOST_FIELDS <= count, false, false);
    }
    if tag == 7 {
        return low(!due | (len != 6), MOST_FIELDS <= count, false, false);
    }
    let place = u8_at(s, p + 3);
    let flag = u8_at(s, p + 4);
    low(
        !due | (len != 2) | (11 < place) | (1 < flag),
        MOST_FIELDS <= count,
        false,
        false,
    )
}
