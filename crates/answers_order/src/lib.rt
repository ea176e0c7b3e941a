// The order of two looks at a scene: what the first refuses stands, and only where it refuses nothing the second decides.

#![tactic(auto)]

ghost use Rattle.std.specs.Prelude.{◌≡◌};
ghost use Rattle.answers_order.specs.InOrder.{first_of, refused_if};

use meaning::Refusal;

// Refused with the first one's number, or what the second says.
pub fn first_of(first: Result<(), Refusal>, second: Result<(), Refusal>) -> Result<(), Refusal>
    ensures { result ≡ first_of first second }
{
    first.and(second)
}

// One check: refused where it holds.
pub fn refused_if(holds: bool, why: Refusal) -> Result<(), Refusal>
    ensures { result ≡ refused_if holds why }
{
    if holds { Err(why) } else { Ok(()) }
}
