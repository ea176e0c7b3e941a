// The program of contacts: a scene text on standard input, when and where each hit pair touched on standard output. It reads and writes, and
// `contact_report` does the rest.
#![tactic(auto)]

use meaning::{CONTACTS_BYTES, READ_BYTES};
use streams::{read_text, write_out};

fn main(rt: HostRuntime) {
    // a full buffer is enough for the answer, so that nothing is read for ever
    let mut text = [0u8; READ_BYTES];
    let Ok(count) = read_text(&mut rt.stdin(), &mut text) else {
        let _ = rt
            .stderr()
            .write_all(b"contacts: standard input could not be read\n");
        return;
    };
    let mut out = [0u8; CONTACTS_BYTES];
    let length = contact_report::contacts_read(&text, count, &mut out);
    // a part of the contacts may have gone out, and it is no answer
    write_out(
        &rt.stdout(),
        &rt.stderr(),
        &out[..length],
        b"contacts: standard output could not be written\n",
    );
}
