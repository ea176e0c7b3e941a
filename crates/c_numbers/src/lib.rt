// An answer as one number, for C and for Rust: 0 or a value in the lower half, a refusal's number in the upper one.

#![tactic(auto)]

ghost use Rattle.std.specs.Prelude.{◌+◌, ◌*◌, ◌<◌, ◌≡◌};
ghost use Rattle.meaning.specs.Refusals.{number_of, outcome_of};
ghost use Rattle.meaning.specs.Numbers.{upper, verdict_number, scene_number, pair_number, settled_number, word_number, count_number};
ghost use Rattle.c_numbers.specs.Small.{told_in};
ghost use Rattle.c_numbers.specs.ImportNumbers.{line_limit, import_line};
ghost use Rattle.meaning.specs.ImportNumbers.{file_bit, import_number, import_counts};

use meaning::{
    ImportRefusal, Refusal, Refused, SceneCounts, Settled, Verdict, WhichFile, WholeContact,
};

// A refusal with the line or the count that it carries.
pub fn refused(why: Refusal, carries: usize) -> u64
    requires { carries < upper }
    ensures { result ≡ number_of why * upper + carries }
{
    answers::number_of(why) * 4294967296 + (carries as u64)
}

// What C hears of a scene that was checked: 0, or the refusal with nothing carried, since no line or count belongs to it.
pub fn scene_number(answer: Result<(), Refusal>) -> u64
    ensures { result ≡ scene_number answer }
{
    match answer {
        Ok(()) => 0,
        Err(why) => refused(why, 0),
    }
}

// The three-case verdict has numbers of its own; list_words::byte_of numbers the four words.
#[tactic(auto, unfolding(meaning::specs::Numbers::verdict_number))]
fn verdict_number(verdict: Verdict) -> u64
    ensures { result ≡ verdict_number verdict }
{
    verdict as u64
}

// What C hears of a pair or a piece that was judged: the verdict's number, or the refusal.
pub fn pair_number(answer: Result<Verdict, Refusal>) -> u64
    ensures { result ≡ pair_number answer }
{
    match answer {
        Ok(verdict) => verdict_number(verdict),
        Err(why) => refused(why, 0),
    }
}

// The same in the four words: the byte that stands for the word in a lent buffer, so that C has one number for it everywhere.
pub fn settled_number(answer: Result<Settled, Refusal>) -> u64
    ensures { result ≡ settled_number answer }
{
    match answer {
        Ok(word) => list_words::byte_of(word) as u64,
        Err(why) => refused(why, 0),
    }
}

// The word of a contact; its numbers stand in a lent array.
pub fn word_number(contact: WholeContact) -> u64
    ensures { result ≡ word_number contact }
{
    list_words::byte_of(contact_entries::rows::settled_of(contact)) as u64
}

// What C hears of a count, of listed pairs, of answered claims or of the bytes of a text: the count, or the refusal with the line or the count
// needed that it carries.
pub fn count_number(answer: Result<usize, Refused>) -> u64
    requires { told_in (outcome_of answer) < upper }
    ensures { result ≡ count_number answer }
{
    match answer {
        Ok(count) => count as u64,
        Err(Refused { why, carries }) => refused(why, carries),
    }
}

// The answer of an import is told as the others are, and which file it is about in two bits of the lower half.

fn file_bit(file: WhichFile) -> usize
    ensures { result ≡ file_bit file }
{
    match file {
        WhichFile::Start => 1073741824,
        WhichFile::End => 2147483648,
    }
}

// What C hears of two OBJ files: 0, since counts go into a lent buffer, or the refusal; one that a file has carries the line and, in a bit above, which file.
pub fn import_number(answer: Result<SceneCounts, ImportRefusal>) -> u64
    requires { import_line answer < line_limit }
    ensures { result ≡ import_number answer }
{
    match answer {
        Ok(_) => 0,
        Err(ImportRefusal::Of(why)) => refused(why, 0),
        Err(ImportRefusal::In(file, fault)) => refused(fault.why, file_bit(file) + fault.carries),
    }
}

// The counts of a scene that was brought in, into the lent array; a refusal leaves it.
pub fn put_counts(counts: &mut [usize; 4], answer: Result<SceneCounts, ImportRefusal>)
    ensures { counts.new ≡ import_counts answer counts.old }
{
    if let Ok(c) = answer {
        *counts = [c.vertices, c.edges, c.triangles, c.seams];
    }
}
