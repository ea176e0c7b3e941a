// The program `import`: two OBJ files by name, one for the start and one for the end; the scene that they give, as scene text, on standard output.
#![tactic(auto)]

use meaning::{READ_BYTES, REPORT_BYTES};
use named_files::{read_pair, write_out};

fn main(rt: HostRuntime) {
    // one byte more than a text may have: a full buffer decides refusal 8
    let mut start = [0u8; READ_BYTES];
    let mut end = [0u8; READ_BYTES];
    let Some(lengths) = read_pair(
        &rt,
        &rt.stderr(),
        b"usage: import START END\n",
        b"import: the start file could not be read\n",
        b"import: the end file could not be read\n",
        &mut start,
        &mut end,
    ) else {
        return;
    };
    let mut out = [0u8; REPORT_BYTES];
    let length = obj_report::import_text_read(
        &start,
        lengths.first,
        &end,
        lengths.second,
        &mut out,
    );
    write_out(
        &rt.stdout(),
        &rt.stderr(),
        &out[..length],
        b"import: the text could not be written\n",
    );
}
