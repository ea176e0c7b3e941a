// The program of claims: two files by name, the text of a scene and a text of claims; a line `yes` or `no` for each claim on standard output.
#![tactic(auto)]

use claim_report::ANSWERS_BYTES;
use meaning::{EDGE_NUMBERS, POSITION_NUMBERS, READ_BYTES, SEAM_NUMBERS, TRIANGLE_NUMBERS};
use named_files::{read_pair, write_out};

// Whether the text of the scene is refused by itself.
fn scene_refused(text: &[u8]) -> bool {
    let mut positions = [0i32; POSITION_NUMBERS];
    let mut edges = [0u16; EDGE_NUMBERS];
    let mut triangles = [0u16; TRIANGLE_NUMBERS];
    let mut seams = [0u16; SEAM_NUMBERS];
    let answer = text_scene::read_scene(
        text,
        &mut positions,
        &mut edges,
        &mut triangles,
        &mut seams,
    );
    match answer {
        Ok(_) => false,
        Err(_) => true,
    }
}

// A refusal's line is counted in its own file, and the printed bytes do not tell in which: standard error does.
fn tell_whose(errors: &impl Print, scene: &[u8]) {
    let whose: &[u8] = if scene_refused(scene) {
        b"claims: it is the scene that is refused\n"
    } else {
        b"claims: it is the claims that are refused\n"
    };
    let _ = errors.write_all(whose);
}

fn main(rt: HostRuntime) {
    // one byte more than a text may have: a full buffer decides refusal 8
    let mut scene = [0u8; READ_BYTES];
    let mut claims = [0u8; READ_BYTES];
    let Some(lengths) = read_pair(
        &rt,
        &rt.stderr(),
        b"usage: claims SCENE CLAIMS\n",
        b"claims: the scene could not be read\n",
        b"claims: the claims could not be read\n",
        &mut scene,
        &mut claims,
    ) else {
        return;
    };
    let mut out = [0u8; ANSWERS_BYTES];
    let length = claim_report::answers_read(
        &scene,
        lengths.first,
        &claims,
        lengths.second,
        &mut out,
    );
    write_out(
        &rt.stdout(),
        &rt.stderr(),
        &out[..length],
        b"claims: the answers could not be written\n",
    );
    if out[0] == b'r' {
        tell_whose(&rt.stderr(), &scene[..lengths.first]);
    }
}
