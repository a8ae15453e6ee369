// Lists the facts of the description on standard input. It is run on examples/worked.bin; .ci/programs runs it on more inputs, those in
// examples/factlist.
#![tactic(auto)]

use std::io;

fn main(rt: HostRuntime) -> io::Result<()> {
    factlisting::run(&rt)
}
