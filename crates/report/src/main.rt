// The report program: a scene text on standard input, its report on standard output. It reads and writes, and `scene_report` does the rest.
#![tactic(auto)]

use meaning::{READ_BYTES, REPORT_BYTES};
use streams::{read_text, write_out};

fn main(rt: HostRuntime) {
    // a full buffer is enough for the report, so that nothing is read for ever
    let mut text = [0u8; READ_BYTES];
    let Ok(count) = read_text(&mut rt.stdin(), &mut text) else {
        let _ = rt
            .stderr()
            .write_all(b"report: standard input could not be read\n");
        return;
    };
    let mut out = [0u8; REPORT_BYTES];
    let length = scene_report::report_read(&text, count, &mut out);
    // a part of a report may have gone out, and it is no report
    write_out(
        &rt.stdout(),
        &rt.stderr(),
        &out[..length],
        b"report: standard output could not be written\n",
    );
}
