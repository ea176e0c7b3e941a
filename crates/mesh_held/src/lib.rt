// Entries of a mesh's list, held in scratch until it is known that there is room for all of them: so a stretch of rows is walked once, and nothing is
// written before that is known. Scratch has numbers of 32 bits, so an entry is held as two of them.

#![tactic(auto)]

ghost use Rattle.std.specs.Prelude.{ℕ, ◌+◌, ◌*◌, ◌≤◌, ◌<◌, ◌/◌, ◌%◌, true, List, ◌≡◌, length, set, take};
ghost use Rattle.sequences.specs.Wrote.{written};
ghost use Rattle.mesh_held.specs.Held.{Holds, HeldMore, HeldOn};

// What a walk counted, and whether all of it is held.
#[derive(Clone, Copy, Debug, PartialEq, Eq)]
pub struct Walked {
    pub count: usize,
    pub held: bool,
}

// The lower half, then the upper: as one number of 64 bits stands in the memory of most processors, so that a compiler makes one store of the two.
fn hold_entry(entry: u64, places: &mut [u32], at: usize)
    requires { at + 1 < length places.old }
    ensures { places.new ≡ set (set places.old at (entry % 4294967296)) (at + 1) (entry / 4294967296) }
{
    places[at] = (entry % 4294967296) as u32;
    places[at + 1] = (entry / 4294967296) as u32;
}

// So many entries, from a place on.
fn hold_entries(entries: &[u64], count: usize, places: &mut [u32], from: usize)
    requires { (count ≤ length entries.now) × (from + 2 * count ≤ length places.old) }
    ensures { HeldMore places.old places.new from entries.now count }
{
    for c in 0..count {
        hold_entry(entries[c], places, from + 2 * c);
    }
}

// Entries that a walk left in front of a list of its own are held from a place on, if all before them are, the list had room for all that were walked,
// and scratch has. Returned is whether they are.
pub fn hold_walked(
    entries: &[u64],
    count: usize,
    held: bool,
    places: &mut [u32],
    from: usize,
) -> bool
    requires { (held ≡ true → from ≤ length places.old) × (count < 4611686018427387904) }
    ensures { HeldOn places.old places.new from entries.now count held result }
{
    if !held {
        return false;
    }
    if entries.len() < count {
        return false;
    }
    if places.len() - from < 2 * count {
        return false;
    }
    hold_entries(entries, count, places, from);
    true
}

fn of_halves(lower: u32, upper: u32) -> u64
    ensures { result ≡ 4294967296 * upper + lower }
{
    4294967296 * (upper as u64) + lower as u64
}

// The entries that are held, in front of a list.
pub fn take_held(places: &[u32], from: usize, count: usize, list: &mut [u64])
    requires { (from + 2 * count ≤ length places.now) × (count ≤ length list.old) }
    ensures { (es : List ℕ) → length es ≡ count → Holds places.now from es → list.new ≡ written es list.old }
{
    for c in 0..count {
        list[c] = of_halves(places[from + 2 * c], places[from + 2 * c + 1]);
    }
}
