// A tally of steps taken and steps refused, lent by its owner and brought up to date in place.
#![tactic(auto)]

ghost use Rattle.std.specs.Prelude.{◌≡◌};
ghost use Rattle.tally.specs.Tally.{tally_of, counted};

use names::raise;

#[repr(C)]
#[derive(Clone, Copy, Debug, PartialEq, Eq)]
pub struct Tally {
    pub taken: u32,
    pub refused: u32,
}

// The tally of two counts after n more steps taken and m more refused. A count stays at its largest value once there.
#[tactic(auto, unfolding(crate::specs::Tally::counted))]
pub fn counted(taken: u32, refused: u32, n: u32, m: u32) -> Tally
    ensures { result ≡ counted (tally_of taken refused) n m }
{
    Tally {
        taken: raise(taken, n),
        refused: raise(refused, m),
    }
}

impl Tally {
    // So many more steps taken and refused, in place.
    pub fn count(&mut self, taken: u32, refused: u32)
        ensures { self.new ≡ counted self.old taken refused }
    {
        *self = counted(self.taken, self.refused, taken, refused);
    }
}
