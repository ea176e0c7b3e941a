// An entry of the list is one number: the kind's part, then the two places. Nothing else makes an entry or takes one apart.

#![tactic(auto)]

ghost use Rattle.std.specs.Prelude.{◌≤◌, ◌<◌, ◌≡◌, length};
ghost use Rattle.meaning.specs.List.{pair, place_step, kind_part, number, room_of};
ghost use Rattle.list_entries.specs.Entries.{kind_of, first_of, second_of};
ghost use Rattle.list_entries.specs.UpTo.{kept};

use meaning::{KIND_STEP, Kind, PLACE_STEP};

// How many entries a lent buffer has room for.
pub fn room(list: &[u32]) -> usize
    ensures { result ≡ room_of list.now }
{
    list.len()
}

// A number and no enum, because an entry of a list that C reads is one number.
fn kind_part(kind: Kind) -> u32
    ensures { result ≡ kind_part kind }
{
    match kind {
        Kind::PointTriangle => 0,
        Kind::EdgeEdge => KIND_STEP,
    }
}

// The number of a pair. Both places are below the step of a place: neither runs into the other, nor into the kind.
pub fn number_of(kind: Kind, first: usize, second: usize) -> u32
    requires { (first < place_step) × (second < place_step) }
    ensures { result ≡ number (pair kind first second) }
{
    kind_part(kind) + PLACE_STEP * (first as u32) + second as u32
}

// The pair is entered at number k where that is below a bound; else the list stays as it is.
pub fn put_below(list: &mut [u32], most: usize, k: usize, kind: Kind, first: usize, second: usize)
    requires { (most ≤ length list.old) × (first < place_step) × (second < place_step) }
    ensures { list.new ≡ kept most k (number (pair kind first second)) list.old }
{
    if k < most {
        list[k] = number_of(kind, first, second);
    }
}

// And back: the pair of an entry, its kind and its two places.
pub fn kind_of(entry: u32) -> Kind
    ensures { result ≡ kind_of entry }
{
    if entry < KIND_STEP {
        Kind::PointTriangle
    } else {
        Kind::EdgeEdge
    }
}

// The first place, which stands in the middle bits of an entry.
pub fn first_of(entry: u32) -> usize
    ensures { result ≡ first_of entry }
{
    (entry / PLACE_STEP % PLACE_STEP) as usize
}

// The second place, which stands in the lowest bits.
pub fn second_of(entry: u32) -> usize
    ensures { result ≡ second_of entry }
{
    (entry % PLACE_STEP) as usize
}
