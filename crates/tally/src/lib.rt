// How many pairs are listed, and how many of them have each verdict.

#![tactic(auto)]

ghost use Rattle.std.specs.Prelude.{◌≡◌};
ghost use Rattle.tally.specs.Tallied.{one_more, tallied};

use meaning::Settled;

#[derive(Clone, Copy, Debug, PartialEq, Eq)]
pub struct Tally {
    pub listed: u64,
    pub hits: u64,
    pub misses: u64,
    pub touches: u64,
    pub aparts: u64,
}

// One more, but a count at its largest value stays there.
fn one_more(n: u64) -> u64
    ensures { result ≡ one_more n }
{
    n.saturating_add(1)
}

impl Tally {
    // Takes one verdict and hands back the tally after it.
    pub fn add(self, w: Settled) -> Tally
        ensures { result ≡ tallied self w }
    {
        let tally = Tally {
            listed: one_more(self.listed),
            ..self
        };
        match w {
            Settled::Hit => Tally {
                hits: one_more(self.hits),
                ..tally
            },
            Settled::Miss => Tally {
                misses: one_more(self.misses),
                ..tally
            },
            Settled::Touch => Tally {
                touches: one_more(self.touches),
                ..tally
            },
            Settled::Apart => Tally {
                aparts: one_more(self.aparts),
                ..tally
            },
        }
    }
}
