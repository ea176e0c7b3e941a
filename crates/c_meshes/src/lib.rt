// What C hears of a call over a mesh: the refusal's number, 0 where there is none; counts and totals go into a lent array.

#![tactic(auto)]

ghost use Rattle.std.specs.Prelude.{◌≤◌, [], ◌∷◌, ◌≡◌, length};
ghost use Rattle.sequences.specs.Wrote.{written};
ghost use Rattle.meaning.specs.Refusals.{number_of, outcome_alone, outcome_of};
ghost use Rattle.meaning.specs.MeshEdges.{edges_say};
ghost use Rattle.meaning.specs.Claims.{answer_byte};
ghost use Rattle.meaning.specs.Numbers.{number_for};
ghost use Rattle.meaning.specs.MeshNumbers.{refusal_of, needed_left, count_left, kept_left, edges_left, wanted_by};

use meaning::{EdgesFound, KeptRows, Refusal, Refused, Wanted};

// The number of a refusal, in 32 bits.
fn small_number(why: Refusal) -> u32
    ensures { result ≡ number_of why }
{
    answers::number_of(why) as u32
}

// Of a mesh that was checked.
pub fn tell_scene(answer: Result<(), Refusal>) -> u32
    ensures { result ≡ refusal_of (outcome_alone answer) }
{
    match answer {
        Ok(()) => 0,
        Err(why) => small_number(why),
    }
}

// 7 leaves the count needed, any other refusal what stood there.
fn put_needed(told: &mut [u64], refused: Refused)
    requires { 1 ≤ length told.old }
    ensures { told.new ≡ needed_left (number_of refused.why) refused.carries told.old }
{
    if answers::number_of(refused.why) == 7 {
        told[0] = refused.carries as u64;
    }
}

fn put_count(told: &mut [u64], count: usize)
    requires { 1 ≤ length told.old }
    ensures { told.new ≡ written (count ∷ []) told.old }
{
    told[0] = count as u64;
}

// Of a stretch that was counted or listed: its count into the lent array.
pub fn tell_count(told: &mut [u64], answer: Result<usize, Refused>) -> u32
    requires { 1 ≤ length told.old }
    ensures { (result ≡ refusal_of (outcome_of answer)) × (told.new ≡ count_left (outcome_of answer) told.old) }
{
    match answer {
        Ok(count) => {
            put_count(told, count);
            0
        }
        Err(refused) => {
            put_needed(told, refused);
            small_number(refused.why)
        }
    }
}

fn put_kept(told: &mut [u64], kept: KeptRows)
    requires { 6 ≤ length told.old }
    ensures { told.new ≡
        written (kept.count ∷ kept.listed ∷ kept.hits ∷ kept.misses ∷ kept.touches ∷ kept.aparts ∷ []) told.old }
{
    told[0] = kept.count as u64;
    told[1] = kept.listed;
    told[2] = kept.hits;
    told[3] = kept.misses;
    told[4] = kept.touches;
    told[5] = kept.aparts;
}

// Of the pairs that were kept: how many, how many there are, and the four totals.
pub fn tell_kept(told: &mut [u64], answer: Result<KeptRows, Refused>) -> u32
    requires { 6 ≤ length told.old }
    ensures { (result ≡ refusal_of (outcome_of answer)) × (told.new ≡ kept_left (outcome_of answer) told.old) }
{
    match answer {
        Ok(kept) => {
            put_kept(told, kept);
            0
        }
        Err(refused) => {
            put_needed(told, refused);
            small_number(refused.why)
        }
    }
}

fn put_two(told: &mut [u64], first: u64, second: usize)
    requires { 2 ≤ length told.old }
    ensures { told.new ≡ written (first ∷ second ∷ []) told.old }
{
    told[0] = first;
    told[1] = second as u64;
}

// Of edges that were looked at: 0 where all is well, 1 with the first side that has not its edge, 2 with the number of the order behind which the
// ends do not rise.
pub fn tell_edges(told: &mut [u64], answer: Result<EdgesFound, Refusal>) -> u32
    requires { 2 ≤ length told.old }
    ensures { (result ≡ refusal_of (edges_say answer)) × (told.new ≡ edges_left (edges_say answer) told.old) }
{
    match answer {
        Ok(EdgesFound::Whole) => {
            put_two(told, 0, 0);
            0
        }
        Ok(EdgesFound::Bare(side)) => {
            put_two(told, 1, side);
            0
        }
        Ok(EdgesFound::Twice(place)) => {
            put_two(told, 2, place);
            0
        }
        Err(why) => small_number(why),
    }
}

// The words asked for: 2 to the power of each word's byte, added up.
pub fn wanted_by(mask: u32) -> Wanted
    ensures { result ≡ wanted_by mask }
{
    Wanted {
        hit: mask % 2 == 1,
        miss: (mask / 2) % 2 == 1,
        touch: (mask / 8) % 2 == 1,
        apart: (mask / 16) % 2 == 1,
    }
}

// Of an edge and a triangle of a scene, as the other calls over a scene tell it: 1 for yes, 0 for no, or the refusal's number times 2^32.
pub fn pierced_number(answer: Result<bool, Refusal>) -> u64
    ensures { result ≡ number_for answer_byte (outcome_alone answer) }
{
    match answer {
        Ok(through) => through as u64,
        Err(why) => c_numbers::refused(why, 0),
    }
}
