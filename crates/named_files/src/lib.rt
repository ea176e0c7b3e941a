// What the programs share that are given two files by name.
#![tactic(auto)]

ghost use Rattle.std.specs.Prelude.{◌≤◌, length, IfSome};
ghost use Rattle.named_files.specs.Files.{BothInto};

use std::env::FillError;
use std::rt::{Env, Files};
use std::{fs, str};
use streams::read_text;
pub use streams::write_out;

// A longer name is no file's.
const NAME_BYTES: usize = 4096;

// The file that an argument names, into a buffer that is one byte longer than a text may be: a full one decides refusal 8. How many of its bytes are in
// front of the buffer, where it can be read.
fn read_file(rt: &(impl Env + Files), place: usize, text: &mut [u8]) -> Option<usize>
    ensures { IfSome result (λ n. n ≤ length text.new) }
{
    let mut name = [0u8; NAME_BYTES];
    let length = rt.arg(place, &mut name).ok()?;
    let path = str::from_utf8(&name[..length]).ok()?;
    let mut file = fs::open(rt, path).ok()?;
    read_text(&mut file, text).ok()
}

// How many bytes of two files are in front of their buffers.
#[derive(Clone, Copy, Debug, PartialEq, Eq)]
pub struct Lengths {
    pub first: usize,
    pub second: usize,
}

// Whether there is such an argument; the name of the program is argument 0.
fn is_given(rt: &impl Env, place: usize) -> bool {
    let mut name = [0u8; NAME_BYTES];
    !matches!(rt.arg(place, &mut name), Err(FillError::NotPresent))
}

// The two files that the arguments name. Where there are not two, or one cannot be read, a line goes to standard error.
pub fn read_pair(
    rt: &(impl Env + Files),
    errors: &impl Print,
    usage: &[u8],
    first_failed: &[u8],
    second_failed: &[u8],
    first: &mut [u8],
    second: &mut [u8],
) -> Option<Lengths>
    ensures { IfSome result (BothInto first.new second.new) }
{
    if !is_given(rt, 2) || is_given(rt, 3) {
        let _ = errors.write_all(usage);
        return None;
    }
    let Some(one) = read_file(rt, 1, first) else {
        let _ = errors.write_all(first_failed);
        return None;
    };
    let Some(two) = read_file(rt, 2, second) else {
        let _ = errors.write_all(second_failed);
        return None;
    };
    Some(Lengths {
        first: one,
        second: two,
    })
}
