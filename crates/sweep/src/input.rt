// A reader, in chunks, given to the machine up to the end or the first refusal.
ghost use Rattle.std.specs.Prelude.{◌≡◌, ◌<◌, length, IfOk};
ghost use Rattle.reading.specs.Tables.{stack_entries, count_entries};
ghost use Rattle.sweep.specs.Run.{Came, Drawn, Ran, RanOver};

use feeding::Feeding;
use std::io;
use std::io::Read;

// The bytes that came next: the first `len` of the chunk. (No Option: at the end both count, since the last bytes are none, or the LF
// that the last line lacks.)
#[derive(Clone, Copy)]
struct More {
    // The input has no more.
    last: bool,
    len: usize,
}

// Reads once. At the end of the input, a line that has begun gets the LF that it lacks.
fn read_more<R: Read>(input: &mut R, chunk: &mut [u8], begun: bool) -> io::Result<More>
    requires { 0 < length chunk.old }
    ensures came { IfOk result (Came begun chunk.new) }
    ensures drawn { IfOk result (Drawn (R.remaining input.old) (R.remaining input.new) chunk.new) }
{
    let len = input.read(chunk)?;
    if len != 0 {
        return Ok(More { last: false, len });
    }
    if !begun {
        return Ok(More { last: true, len: 0 });
    }
    chunk[0] = b'\n';
    Ok(More { last: true, len: 1 })
}

// All bytes, up to the end or the first refusal; where a read fails, what came before it is not the whole input. It ends: every byte takes
// from those that an input may still have.
pub(crate) fn run<R: Read>(
    input: &mut R,
    chunk: &mut [u8],
    stacks: &mut [u32],
    counts: &mut [u32],
) -> io::Result<Feeding>
    requires { (0 < length chunk.old) × (length stacks.old ≡ stack_entries) × (length counts.old ≡ count_entries) }
    ensures ran { Ran stacks.old counts.old result stacks.new counts.new }
    ensures ran_over { RanOver (R.remaining input.old) stacks.old counts.old result stacks.new counts.new }
{
    let mut feeding = Feeding::start();
    loop {
        let begun = feeding.len != 0;
        let came = read_more(input, chunk, begun)?;
        feeding.feed(&chunk[..came.len], stacks, counts);
        if came.last {
            feeding.ended();
            return Ok(feeding);
        }
        if feeding.answer != 0 {
            return Ok(feeding);
        }
    }
}
