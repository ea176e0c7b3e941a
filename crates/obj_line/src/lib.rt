// One line of an OBJ file, without the LF that ends it: what its bytes say.

#![tactic(auto)]

ghost use Rattle.std.specs.Prelude.{◌≤◌, length, ◌≡◌};
ghost use Rattle.meaning.specs.ObjLine.{says, vertex_of, face_of, vertex_with, face_with};
ghost use Rattle.obj_line.specs.Parting.{CutAt, vertex_from, face_from};

use meaning::{Hundredths, ObjLine};
use obj_numbers::{decimal_of, number_of, place_of};

// Where a field ends, and where what stands behind the space begins.
#[derive(Clone, Copy, Debug, PartialEq, Eq)]
struct Cut {
    end: usize,
    next: usize,
}

fn cut_at_space(s: &[u8]) -> Cut
    ensures { CutAt s.now result }
{
    let end = place_of(s, b' ');
    if end < s.len() {
        Cut { end, next: end + 1 }
    } else {
        Cut { end, next: end }
    }
}

#[tactic(auto, unfolding(meaning::specs::ObjLine::vertex_with))]
fn vertex_with(x: Option<Hundredths>, y: Option<Hundredths>, z: Option<Hundredths>) -> ObjLine
    ensures { result ≡ vertex_with x y z }
{
    match (x, y, z) {
        (Some(a), Some(b), Some(c)) => ObjLine::Vertex(a, b, c),
        _ => ObjLine::Bad,
    }
}

#[tactic(auto, unfolding(meaning::specs::ObjLine::face_with))]
fn face_with(x: Option<u64>, y: Option<u64>, z: Option<u64>) -> ObjLine
    ensures { result ≡ face_with x y z }
{
    match (x, y, z) {
        (Some(a), Some(b), Some(c)) => ObjLine::Face(a, b, c),
        _ => ObjLine::Bad,
    }
}

// The second and the third decimal, behind the first.
fn vertex_from(x: Option<Hundredths>, s: &[u8]) -> ObjLine
    ensures { result ≡ vertex_from x s.now }
{
    let parts = cut_at_space(s);
    let end = parts.end;
    let next = parts.next;
    vertex_with(x, decimal_of(&s[..end]), decimal_of(&s[next..]))
}

fn vertex_of(s: &[u8]) -> ObjLine
    ensures { result ≡ vertex_of s.now }
{
    let parts = cut_at_space(s);
    let end = parts.end;
    let next = parts.next;
    vertex_from(decimal_of(&s[..end]), &s[next..])
}

fn face_from(x: Option<u64>, s: &[u8]) -> ObjLine
    ensures { result ≡ face_from x s.now }
{
    let parts = cut_at_space(s);
    let end = parts.end;
    let next = parts.next;
    face_with(x, number_of(&s[..end]), number_of(&s[next..]))
}

fn face_of(s: &[u8]) -> ObjLine
    ensures { result ≡ face_of s.now }
{
    let parts = cut_at_space(s);
    let end = parts.end;
    let next = parts.next;
    face_from(number_of(&s[..end]), &s[next..])
}

// What a line says.
pub fn line_of(s: &[u8]) -> ObjLine
    ensures { result ≡ says s.now }
{
    let a = decimals::byte_at(s, 0);
    let b = decimals::byte_at(s, 1);
    let c = decimals::byte_at(s, 2);
    let texture = (a == b'v') & (b == b't') & (c == b' ');
    let normal = (a == b'v') & (b == b'n') & (c == b' ');
    if (s.len() == 0) | (a == b'#') | texture | normal {
        return ObjLine::Skipped;
    }
    if (a == b'v') & (b == b' ') {
        return vertex_of(&s[2..]);
    }
    if (a == b'f') & (b == b' ') {
        return face_of(&s[2..]);
    }
    ObjLine::Bad
}
