// The table or the refusal, written a line at a time: each goes out in one write, and the first that fails ends it.
use feeding::Feeding;
use printing::{LINE_MOST, Walk, cache_line, head_lines, refusal_line};
use reading::Reading;
use std::io;
use std::io::Write;

// The head, then the line of each cache. A question that is refused would put no line; none is, as `demand_2_program` says.
pub(crate) fn table<W: Write>(output: &mut W, reading: &Reading, counts: &[u32]) -> io::Result<()> {
    let mut out = [0u8; LINE_MOST];
    let opened = &reading.opened;
    let head = head_lines(opened.taken, reading.tally, &mut out);
    output.write_all(&out[..head])?;
    for cache in Walk::over(opened.order) {
        let n = cache_line(cache, opened, counts, &mut out);
        output.write_all(&out[..n])?;
    }
    Ok(())
}

// The number of the refusal, and its line and column.
pub(crate) fn refused<W: Write>(output: &mut W, feeding: &Feeding) -> io::Result<()> {
    let mut out = [0u8; LINE_MOST];
    let reading = &feeding.reading;
    let n = refusal_line(feeding.answer, reading.lines, reading.column, &mut out);
    output.write_all(&out[..n])
}
