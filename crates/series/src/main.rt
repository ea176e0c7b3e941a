// The program of series: the text of a series on standard input, its log, totals and first step with a hit on standard output. It reads and writes,
// and `series_report` does the rest.
#![tactic(auto)]

use meaning::READ_BYTES;
use series_report::SERIES_BYTES;
use streams::{read_text, write_out};

fn main(rt: HostRuntime) {
    // a full buffer is enough for the answer, so that nothing is read for ever
    let mut text = [0u8; READ_BYTES];
    let Ok(count) = read_text(&mut rt.stdin(), &mut text) else {
        let _ = rt
            .stderr()
            .write_all(b"series: standard input could not be read\n");
        return;
    };
    let mut out = [0u8; SERIES_BYTES];
    let length = series_report::series_read(&text, count, &mut out);
    // a part of the lines may have gone out, and it is no answer
    write_out(
        &rt.stdout(),
        &rt.stderr(),
        &out[..length],
        b"series: standard output could not be written\n",
    );
}
