// The program `obj`: two OBJ files by name, one for the start and one for the end; the report of the scene that they give on standard output.
#![tactic(auto)]

use meaning::{READ_BYTES, REPORT_BYTES};
use named_files::{read_pair, write_out};

fn main(rt: HostRuntime) {
    // one byte more than a text may have: a full buffer decides refusal 8
    let mut start = [0u8; READ_BYTES];
    let mut end = [0u8; READ_BYTES];
    let Some(lengths) = read_pair(
        &rt,
        &rt.stderr(),
        b"usage: obj START END\n",
        b"obj: the start file could not be read\n",
        b"obj: the end file could not be read\n",
        &mut start,
        &mut end,
    ) else {
        return;
    };
    let mut out = [0u8; REPORT_BYTES];
    let length = obj_report::obj_report_read(&start, lengths.first, &end, lengths.second, &mut out);
    write_out(
        &rt.stdout(),
        &rt.stderr(),
        &out[..length],
        b"obj: the report could not be written\n",
    );
}
