// One line of a scene text: the record that stands there, and its first fault below the records above it.

#![tactic(auto)]

ghost use Rattle.std.specs.Prelude.{◌≤◌, ◌<◌, length, ◌≡◌};
ghost use Rattle.text_line.specs.Judging.{FaultIs, far_in, Judging};
ghost use Rattle.text_line.specs.Reading.{LineRead};
ghost use Rattle.text_line.specs.Above.{Bounded, counted_by};
ghost use Rattle.text_line.specs.Stepping.{LineStepped};
ghost use Rattle.meaning.specs.Refusals.{outcome_alone};

use meaning::{
    COORDINATE_LIMIT, DIGIT_LIMIT, EDGE_LIMIT, Refusal, SEAM_LIMIT, SceneCounts, TRIANGLE_LIMIT,
    VERTEX_LIMIT,
};
use text_fields::Form;

// The largest size of a coordinate, as sizes are held.
const LARGEST: u64 = COORDINATE_LIMIT as u64;

// The four kinds of record.
#[derive(Clone, Copy, Debug, PartialEq, Eq)]
pub enum Sort {
    Vertex,
    Edge,
    Triangle,
    Seam,
}

// The record that stands in a line, and the place of the next line.
#[derive(Clone, Copy, Debug, PartialEq, Eq)]
struct Line {
    sort: Sort,
    next: usize,
}

// The record at a place of the text, if one stands there. Its numbers are then in front of the buffers.
fn read_line(text: &[u8], at: usize, sizes: &mut [u64], minus: &mut [bool]) -> Option<Line>
    requires at_in_bounds { at < length text.now }
    requires in_bounds { 6 ≤ length sizes.old }
    requires in_bounds_2 { 6 ≤ length minus.old }
    ensures { LineRead text.now at sizes.new minus.new result }
{
    let letter = text[at];
    if letter == b'v' {
        let form = Form {
            separator: b'\t',
            signed: true,
            most: DIGIT_LIMIT,
        };
        let next = text_fields::read_row(text, at + 1, form, 6, sizes, minus)?;
        return Some(Line {
            sort: Sort::Vertex,
            next,
        });
    }
    let form = Form {
        separator: b'\t',
        signed: false,
        most: DIGIT_LIMIT,
    };
    if letter == b'e' {
        let next = text_fields::read_row(text, at + 1, form, 2, sizes, minus)?;
        return Some(Line {
            sort: Sort::Edge,
            next,
        });
    }
    if letter == b't' {
        let next = text_fields::read_row(text, at + 1, form, 3, sizes, minus)?;
        return Some(Line {
            sort: Sort::Triangle,
            next,
        });
    }
    if letter == b'w' {
        let next = text_fields::read_row(text, at + 1, form, 2, sizes, minus)?;
        return Some(Line {
            sort: Sort::Seam,
            next,
        });
    }
    None
}

// The fault that the first check of a record that holds finds, if one holds.
pub fn first_fault(
    late: bool,
    excess: bool,
    far: bool,
    unknown: bool,
    twice: bool,
) -> Result<(), Refusal>
    ensures { FaultIs late excess far unknown twice (outcome_alone result) }
{
    if late {
        return Err(Refusal::LateRecord);
    }
    if excess {
        return Err(Refusal::TooMany);
    }
    if far {
        return Err(Refusal::Coordinate);
    }
    if unknown {
        return Err(Refusal::UnknownVertex);
    }
    if twice {
        return Err(Refusal::RepeatedVertex);
    }
    Ok(())
}

// Whether one of the first six sizes is outside the range of a coordinate.
fn far(sizes: &[u64]) -> bool
    requires { 6 ≤ length sizes.now }
    ensures { result ≡ far_in sizes.now }
{
    (LARGEST < sizes[0])
        | (LARGEST < sizes[1])
        | (LARGEST < sizes[2])
        | (LARGEST < sizes[3])
        | (LARGEST < sizes[4])
        | (LARGEST < sizes[5])
}

// The judgement of a record whose numbers have these sizes, below so many records: of a seam up to 3, for 15 and 4 go by the whole scene.
fn judge(sort: Sort, c: SceneCounts, sizes: &[u64]) -> Result<(), Refusal>
    requires { 6 ≤ length sizes.now }
    ensures { Judging sort c sizes.now (outcome_alone result) }
{
    let n = c.vertices as u64;
    let i = sizes[0];
    let j = sizes[1];
    let k = sizes[2];
    match sort {
        Sort::Vertex => first_fault(
            (0 < c.edges) | (0 < c.triangles) | (0 < c.seams),
            VERTEX_LIMIT <= c.vertices,
            far(sizes),
            false,
            false,
        ),
        Sort::Edge => first_fault(
            (0 < c.triangles) | (0 < c.seams),
            EDGE_LIMIT <= c.edges,
            false,
            (n <= i) | (n <= j),
            i == j,
        ),
        Sort::Triangle => first_fault(
            0 < c.seams,
            TRIANGLE_LIMIT <= c.triangles,
            false,
            (n <= i) | (n <= j) | (n <= k),
            (i == j) | (i == k) | (j == k),
        ),
        Sort::Seam => first_fault(
            false,
            SEAM_LIMIT <= c.seams,
            false,
            (n <= i) | (n <= j),
            false,
        ),
    }
}

// A record that was looked at and is not at fault: its kind, the counts with it, and the place of the next line.
#[derive(Clone, Copy, Debug, PartialEq, Eq)]
pub struct Step {
    pub sort: Sort,
    pub counts: SceneCounts,
    pub next: usize,
}

fn counted(c: SceneCounts, sort: Sort) -> SceneCounts
    requires { Bounded c }
    ensures { result ≡ counted_by c sort }
{
    match sort {
        Sort::Vertex => SceneCounts {
            vertices: c.vertices + 1,
            ..c
        },
        Sort::Edge => SceneCounts {
            edges: c.edges + 1,
            ..c
        },
        Sort::Triangle => SceneCounts {
            triangles: c.triangles + 1,
            ..c
        },
        Sort::Seam => SceneCounts {
            seams: c.seams + 1,
            ..c
        },
    }
}

// One line, below the records of a scene with these counts. A seam that is taken is still to be held to 15 and 4.
pub fn next_line(
    text: &[u8],
    at: usize,
    c: SceneCounts,
    sizes: &mut [u64],
    minus: &mut [bool],
) -> Result<Step, Refusal>
    requires at_in_bounds { at < length text.now }
    requires in_bounds { 6 ≤ length sizes.old }
    requires in_bounds_2 { 6 ≤ length minus.old }
    requires bounded { Bounded c }
    ensures { LineStepped text.now at c sizes.new minus.new result }
{
    let line = read_line(text, at, sizes, minus).ok_or(Refusal::BadLine)?;
    judge(line.sort, c, sizes)?;
    Ok(Step {
        sort: line.sort,
        counts: counted(c, line.sort),
        next: line.next,
    })
}
