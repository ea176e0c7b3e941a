// The word that a byte of a judged entry stands for. Beside it, in the specs, the tally of words one behind the other.

#![tactic(auto)]

ghost use Rattle.std.specs.Prelude.{◌≡◌};
ghost use Rattle.list_words.specs.Listed.{word_of_byte};

use meaning::Settled;

// The word that a byte stands for; where it stands for none, the last.
pub fn word_in(byte: u8) -> Settled
    ensures { result ≡ word_of_byte byte }
{
    if byte == 0 {
        return Settled::Hit;
    }
    if byte == 1 {
        return Settled::Miss;
    }
    if byte == 3 {
        return Settled::Touch;
    }
    Settled::Apart
}
