// An entry of a mesh's list is one number of 64 bits: the kind's part, then the two places. Nothing else makes such an entry or takes one apart.

#![tactic(auto)]

ghost use Rattle.std.specs.Prelude.{◌≤◌, ◌<◌, ◌≡◌, length};
ghost use Rattle.meaning.specs.List.{pair};
ghost use Rattle.meaning.specs.MeshRows.{mesh_kind_part, mesh_number};
ghost use Rattle.list_entries.specs.UpTo.{kept};
ghost use Rattle.mesh_entries.specs.Telling.{mesh_kind_of, mesh_first_of, mesh_second_of};

use meaning::Kind;

// A number and no enum, because an entry of a list that C reads is one number.
fn kind_part(kind: Kind) -> u64
    ensures { result ≡ mesh_kind_part kind }
{
    match kind {
        Kind::PointTriangle => 0,
        Kind::EdgeEdge => 9223372036854775808,
    }
}

// The number of a pair. Both places are below 2^30: neither runs into the other, nor into the kind.
pub fn number_of(kind: Kind, first: usize, second: usize) -> u64
    requires { (first < 1073741824) × (second < 1073741824) }
    ensures { result ≡ mesh_number (pair kind first second) }
{
    kind_part(kind) + 4294967296 * (first as u64) + second as u64
}

// The pair is entered at place k where that is below a bound; else the list stays as it is.
pub fn put_below(list: &mut [u64], most: usize, k: usize, kind: Kind, first: usize, second: usize)
    requires { (most ≤ length list.old) × (first < 1073741824) × (second < 1073741824) }
    ensures { list.new ≡ kept most k (mesh_number (pair kind first second)) list.old }
{
    if k < most {
        list[k] = number_of(kind, first, second);
    }
}

// And back: the pair of an entry, its kind and its two places.
pub fn kind_of(entry: u64) -> Kind
    ensures { result ≡ mesh_kind_of entry }
{
    if entry < 9223372036854775808 {
        Kind::PointTriangle
    } else {
        Kind::EdgeEdge
    }
}

pub fn first_of(entry: u64) -> usize
    ensures { result ≡ mesh_first_of entry }
{
    (entry / 4294967296 % 2147483648) as usize
}

pub fn second_of(entry: u64) -> usize
    ensures { result ≡ mesh_second_of entry }
{
    (entry % 4294967296) as usize
}
