//! The hub.

ghost use Rattle.std.specs.Prelude.{◌≡◌};
ghost use Rattle.std.specs.Arc.{arc_value};

use be_desk::Desk;
use be_mail::{BoxNames, Mail, Post};
use be_model::Schema;
use be_published::{Naming, Sheet};
use be_waiting::Level;
use std::marker::Model;
use std::sync::{Arc, Mutex, MutexGuard, Wait};

/// The desk behind its lock, and the mail, which workers share. Contracts see the names of the mailboxes. It is not `Drop`: end it by
/// `end`, or close it.
pub struct Hub<T: Sheet<J>, J: Naming + BoxNames, S: Post> {
    pub(crate) desk: Mutex<Desk<T, J>>,
    pub(crate) mail: Mail<S>,
    // How many changes are published. It is set under the lock.
    pub(crate) published: Level,
    pub(crate) schema: Arc<Schema>,
}

impl<T: Sheet<J>, J: Naming + BoxNames, S: Post> Model for Hub<T, J, S> {
    ghost use Rattle.std.specs.Prelude.{◌≡◌, List};
    ghost use Rattle.std.specs.Arc.{arc_value};
    ghost use Rattle.atomic_table.specs.Seated.{TableId};

    ghost Value = { List TableId };

    ghost view = { λ h. h.mail };

    ghost invariant = { λ h. (h.mail ≡ J.boxes) × (S.schema ≡ J.schema) × (arc_value h.schema ≡ J.schema) };
}

impl<T: Sheet<J>, J: Naming + BoxNames, S: Post> Hub<T, J, S> {
    // A hub over a desk and the mail of its seats.
    pub(crate) fn over(schema: Arc<Schema>, desk: Desk<T, J>, mail: Mail<S>) -> Hub<T, J, S>
        requires boxes { mail ≡ J.boxes }
        requires events { S.schema ≡ J.schema }
        requires schema { arc_value schema ≡ J.schema }
        ensures { result ≡ mail }
    {
        let published = Level::make(desk.len());
        Hub {
            desk: Mutex::new(desk),
            mail,
            published,
            schema,
        }
    }

    /// Gives it up, with what is held. It may wait for readers.
    pub fn end<R: Wait>(self, rt: &R) {
        let Hub {
            desk,
            mail: _,
            published: _,
            schema: _,
        } = self;
        desk.into_inner().end(rt);
    }

    // Leaves the desk, and wakes those who wait for a change that it has published. They are woken behind the lock, which a wake would
    // hold some microseconds longer.
    pub(crate) fn leave_desk(&self, guard: MutexGuard<'_, Desk<T, J>>) {
        self.published.set(guard.len());
        MutexGuard::unlock(guard);
        self.published.wake();
    }
}
