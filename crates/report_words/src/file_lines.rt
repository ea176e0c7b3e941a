// The line of a refusal that is one of two files'.

ghost use Rattle.std.specs.Prelude.{◌+◌, ◌≤◌, length};
ghost use Rattle.sequences.specs.Wrote.{Wrote};
ghost use Rattle.meaning.specs.ObjPrinted.{file_word, file_line};

use crate::words::{put_byte, put_number, put_word};
use meaning::WhichFile;

fn put_file(out: &mut [u8], at: usize, file: WhichFile) -> usize
    requires { at + 5 ≤ length out.old }
    ensures { Wrote out.old at (file_word file) out.new result }
{
    match file {
        WhichFile::Start => put_word(out, at, b"start"),
        WhichFile::End => put_word(out, at, b"end"),
    }
}

// `refused`, the number, the line or 0, and `start` or `end`.
pub fn file_line(out: &mut [u8], at: usize, file: WhichFile, number: u64, line: u64) -> usize
    requires { at + 56 ≤ length out.old }
    ensures { Wrote out.old at (file_line file number line) out.new result }
{
    let mut next = put_word(out, at, b"refused");
    next = put_number(out, next, number);
    next = put_number(out, next, line);
    next = put_byte(out, next, 9);
    next = put_file(out, next, file);
    put_byte(out, next, 10)
}
