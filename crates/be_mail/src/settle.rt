//! What the passes of all seats show together.

ghost use Rattle.std.specs.Prelude.{◌≡◌, map};
ghost use Rattle.be_mail.specs.Passes.{box_of};
ghost use Rattle.be_mail.specs.Settled.{AreAll, AreKept, TakenWerePut, CanJoinAll, AreJoined};

use crate::mail::Mail;
use crate::naming::Post;
use crate::passes::MailPasses;
use crate::rule::{Both, BoxPass, Looks};

impl<S: Post> Mail<S> {
    /// Joins the passes of all seats, in any order. It takes no memory.
    pub fn settle(&self, passes: Vec<MailPasses>)
        requires { AreAll self.now passes.items }
        ensures kept { AreKept S.schema S.seats S.found self.now passes.items }
        ensures taken { TakenWerePut passes.items }
    {
        let boxes = self.boxes.len();
        let mut seats = passes.into_iter();
        let Some(first) = seats.next() else {
            return;
        };
        let mut sum = first.passes;
        for other in seats {
            self.take_in(&mut sum, other.passes);
        }
        for place in 0..boxes {
            self.boxes[place].learn_as::<Looks<S>>(&mut sum[place]);
        }
    }

    // Joins the passes of one more seat.
    fn take_in(&self, sum: &mut Vec<BoxPass>, other: Vec<BoxPass>)
        requires boxes { (map box_of sum.old.items ≡ self.now) × (map box_of other.items ≡ self.now) }
        requires join { CanJoinAll sum.old.items other.items }
        ensures boxes { map box_of sum.new.items ≡ self.now }
        ensures joined { AreJoined sum.old.items other.items sum.new.items }
    {
        let mut place = 0;
        for pass in other {
            self.boxes[place].absorb::<Both>(&mut sum[place], pass);
            place += 1;
        }
    }
}
