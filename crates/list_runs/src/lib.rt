// Runs of 16 parts by place, each with the joint box of its parts: who misses that box misses all of them.

#![tactic(auto)]

ghost use Rattle.std.specs.Prelude.{◌+◌, ◌*◌, ◌≤◌, ◌<◌, ◌≡◌, length};
ghost use Rattle.meaning.specs.Runs.{runs_of, run_to};
ghost use Rattle.meaning.specs.StoredBoxes.{box_at};
ghost use Rattle.list_boxes.specs.Storing.{BoxStored};
ghost use Rattle.list_runs.specs.Joined.{joint_boxes};
ghost use Rattle.list_runs.specs.Filled.{RunsFilled};

use list_boxes::kept::store_joint_box;

// How many runs so many parts make: the last may have fewer than 16.
pub fn runs_of(parts: usize) -> usize
    requires { parts ≤ 1152921504606846976 }
    ensures { result ≡ runs_of parts }
{
    (parts + 15) / 16
}

// The place behind a run's last part.
pub fn run_to(parts: usize, run: usize) -> usize
    requires { run < 576460752303423488 }
    ensures { result ≡ run_to parts run }
{
    (16 * run + 16).min(parts)
}

// The joint box of the box `at` and of so many boxes behind it, stored under a number behind all of these.
fn store_run(boxes: &mut [i32], at: usize, more: usize, to: usize)
    requires { (at + more < to) × (6 * to + 5 < length boxes.old) }
    ensures { BoxStored boxes.old to (joint_boxes (box_at boxes.old) at more) boxes.new }
{
    store_joint_box(boxes, at, at, to);
    for k in 0..more {
        store_joint_box(boxes, to, at + 1 + k, to);
    }
}

// The runs of so many boxes from `first` on, their joint boxes from the number `to` on.
pub fn fill_runs(boxes: &mut [i32], first: usize, parts: usize, to: usize)
    requires { (first + parts ≤ to) × (parts ≤ 1152921504606846976) × (6 * (to + runs_of parts) ≤ length boxes.old) }
    ensures { RunsFilled boxes.old first parts to boxes.new }
{
    for r in 0..runs_of(parts) {
        let from = 16 * r;
        let more = run_to(parts, r) - from - 1;
        store_run(boxes, first + from, more, to + r);
    }
}
