//! What the types of one mail agree on. The traits are for proofs alone.

use std::marker::Brand;

/// The schema of a mail's events, the number of its seats, and the receipts. It is chosen before the mail is made.
pub trait Post {
    ghost use Rattle.std.specs.Prelude.{ℕ};
    ghost use Rattle.be_model.specs.Schemas.{Attributes};
    ghost use Rattle.be_mail.specs.Mailbox.{BoxId, Mailbox};

    ghost schema: { Attributes };

    ghost seats: { ℕ };

    /// A receipt: this mailbox was found in this state. `make_mail` is given all receipts and shuts them into the rule of
    /// the queues. So code that is proved for every `Post` has one only from a step at a queue, for the state that it found.
    ghost found: { BoxId → Mailbox → Type 0 };
}

impl Post for Brand {
    ghost use Rattle.be_mail.specs.Names.{no_attributes, always_found};

    ghost schema = { no_attributes };

    ghost seats = { 1 };

    ghost found = { always_found };
}

/// One mailbox. It is chosen once its queue is made, and gets into the queue's rule by the first step.
pub trait ThisBox {
    ghost use Rattle.be_mail.specs.Mailbox.{BoxId};

    ghost mailbox: { BoxId };
}

impl ThisBox for Brand {
    ghost use Rattle.be_mail.specs.Rule.{no_box};

    ghost mailbox = { no_box };
}

/// The mailboxes of one mail. It is chosen once they are made, and says of what shares a mail and its passes that they
/// belong together.
pub trait BoxNames {
    ghost use Rattle.std.specs.Prelude.{List};
    ghost use Rattle.atomic_table.specs.Seated.{TableId};

    ghost boxes: { List TableId };
}

impl BoxNames for Brand {
    ghost use Rattle.be_mail.specs.Names.{no_boxes};

    ghost boxes = { no_boxes };
}
