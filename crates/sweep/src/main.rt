// The sweep program: reads an order and a trace from standard input, line by line, and prints the
// misses of every cache of the order, or the refusal. What it decides is in the crate reading; here are
// only reading and printing.
#![tactic(auto)]

use input::run;
use output::{refused, table};
use reading::{COUNT_ENTRIES, STACK_ENTRIES};
use std::io::Write;

mod input;
mod output;

fn main(rt: HostRuntime) {
    let mut stacks = [0u32; STACK_ENTRIES];
    let mut counts = [0u32; COUNT_ENTRIES];
    let mut chunk = [0u8; 65536];
    let Ok(feeding) = run(&mut rt.stdin(), &mut chunk, &mut stacks, &mut counts) else {
        tell(
            &mut rt.stderr(),
            b"sweep: standard input could not be read, so no table is printed\n",
        );
        return;
    };
    if feeding.answer == 0 {
        if table(&mut rt.stdout(), &feeding.reading, &counts).is_err() {
            tell(
                &mut rt.stderr(),
                b"sweep: standard output could not be written, so the table is not whole\n",
            );
        }
    } else if refused(&mut rt.stdout(), &feeding).is_err() {
        tell(
            &mut rt.stderr(),
            b"sweep: standard output could not be written, so the refusal is not whole\n",
        );
    }
}

// Where standard error cannot be written either, nothing is left to tell.
fn tell<W: Write>(errors: &mut W, words: &[u8]) {
    let _ = errors.write_all(words);
}
