// The program `factlist`: the facts of a description as text.
#![tactic(auto)]

ghost use Rattle.std.specs.Prelude.{◌≡◌, ◌≤◌, length, replicate};
ghost use Rattle.factlisting.specs.Factlist.{text_room, Listed};

use answers::nowhere;
use facts::check;
use listing::list;
use std::io;
use tally::read_full;

// Room for the report and the words, of zeros.
fn report_room() -> [u8; 16384]
    ensures { (result ≡ replicate 16384 0) × (16384 ≡ length result) }
{
    [0; 16384]
}

fn word_room() -> [u32; 16384]
    ensures { (result ≡ replicate 16384 0) × (16384 ≡ length result) }
{
    [0; 16384]
}

// Lays the whole listing of a description into the text, and answers how many bytes it has.
pub fn list_facts(description: &[u8], text: &mut [u8]) -> usize
    requires { text_room ≤ length text.old }
    ensures { Listed description.now text.old text.new result }
{
    if 16384 < description.len() {
        return list(Err(nowhere(2, 0)), b"", text);
    }
    let mut report = report_room();
    let mut words = word_room();
    let answer = check(description, &mut words, &mut report, 1000000);
    list(answer, &report, text)
}

// Reads a description from standard input, no further than to its byte 16,385, and writes its listing, for which the text has room.
pub fn run(rt: &(impl Input + Print)) -> io::Result<()> {
    let mut description = [0u8; 16385];
    let mut text = [0u8; 65536];
    let n = read_full(&mut rt.reader(), &mut description)?;
    let k = list_facts(&description[..n], &mut text);
    rt.write_all(&text[..k])
}
