// The number of a refusal; the laws of right answers are in specs/.

#![tactic(auto)]

ghost use Rattle.std.specs.Prelude.{◌≡◌};
ghost use Rattle.meaning.specs.Refusals.{number_of};

use meaning::Refusal;

// Document 01's number of a refusal.
pub fn number_of(refusal: Refusal) -> u64
    ensures { result ≡ number_of refusal }
{
    refusal as u64
}
