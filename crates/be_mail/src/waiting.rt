//! A wait for a letter.

ghost use Rattle.std.specs.Prelude.{◌≡◌, false};
ghost use Rattle.be_mail.specs.Passes.{Held};

use crate::mail::Mail;
use crate::naming::Post;
use crate::passes::MailPasses;
use crate::rule::Fetches;
use be_waiting::Bed;

impl<S: Post> Mail<S> {
    /// Waits until a letter lies in the seat's own mailbox, or so many milliseconds have passed, or the bed is called. It takes no
    /// letter, and no memory. No clause says that it ends then.
    pub fn await_letter<B: Bed>(&self, bed: &B, pass: &mut MailPasses, millis: u64)
        requires passes { pass.old.boxes ≡ self.now }
        ensures { pass.new ≡ pass.old }
    {
        let Some(bell) = self.bells.get(pass.seat as usize) else {
            return;
        };
        let until = bed.now().saturating_add(millis);
        for _ in 0..u64::MAX {
            // Said before the look: so whoever puts what the look doesn't see finds it said.
            bell.announce();
            if self.has_letter(pass) || !bell.sleep(bed, until) {
                return;
            }
        }
    }

    /// Whether a letter lies in the seat's own mailbox. It says that there is none only where the mailbox was empty at the step that
    /// looked. It takes no memory.
    pub fn has_letter(&self, pass: &mut MailPasses) -> bool
        requires passes { pass.old.boxes ≡ self.now }
        ensures same { pass.new ≡ pass.old }
        ensures empty { result ≡ false → Held S.schema S.seats S.found pass.old pass.old.seat 0 }
    {
        let at = pass.seat as usize;
        !self.boxes[at].is_empty_as::<Fetches<S>>(&mut pass.passes[at])
    }
}
