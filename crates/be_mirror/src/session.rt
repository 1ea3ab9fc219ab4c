//! A session of reads: a reply for each line, until a QUIT, the end of the input or a fault.

ghost use Rattle.std.specs.Prelude.{◌≡◌, ◌↔◌, true, length, max, None, OnOk, IfErr};
ghost use Rattle.std.specs.Arc.{arc_value};
ghost use Rattle.be_base.specs.Lists.{BeginsWith};
ghost use Rattle.be_io.specs.Lines as line;
ghost use Rattle.be_io.specs.Outside.{link_state, sink_state};
ghost use Rattle.be_change.specs.Sound.{Sound};
ghost use Rattle.be_protocol.specs.Conduct.{GivesReply};
ghost use Rattle.be_protocol.specs.Conversation.{TakesWithin, KeepsBeside};
ghost use Rattle.be_protocol.specs.Short.{plain_reply, short_of};
ghost use Rattle.be_published.specs.Reads.{Learns, IsBeyond};
ghost use Rattle.be_session.specs.Saying.{Says, SaysText};
ghost use Rattle.be_mirror.specs.Asked.{plain_mirror_ask, mirror_ask_lies};
ghost use Rattle.be_mirror.specs.Reading.{MirrorSessionEnds};
ghost use Rattle.be_mirror.specs.Sessions.{mirror_conduct};

use crate::asking::{Ask, read_ask};
use crate::reads::{cost, dumped, hits, length, tail};
use be_base::{NoMemory, NoRead};
use be_io::{Gate, Link, Sink, write_all};
use be_model::Schema;
use be_protocol::{Refusal, Replier, SessionEnd, Short, Turn, converse, say};
use be_published::{Beyond, Glass, Naming, Shade, Sheet, Told};
use be_session::Room;
use std::alloc::Global;
use std::marker::Model;
use std::sync::Arc;

/// Answers lines from a glass. No call of it takes a lock, or waits for a change. Contracts see the glass.
#[derive(Drop)]
pub struct Session<T: Sheet<J>, J: Naming> {
    alloc: Global,
    schema: Arc<Schema>,
    glass: Glass<T, J>,
    room: Room,
}

impl<T: Sheet<J>, J: Naming> Model for Session<T, J> {
    ghost use Rattle.std.specs.Prelude.{◌≡◌};
    ghost use Rattle.std.specs.Arc.{arc_value};
    ghost use Rattle.be_published.specs.States.{GlassState};

    ghost Value = { GlassState };

    ghost view = { λ s. s.glass };

    ghost invariant = { λ s. arc_value s.schema ≡ J.schema };
}

impl<T: Sheet<J>, J: Naming> Session<T, J> {
    /// It takes no memory.
    pub fn over(alloc: Global, schema: Arc<Schema>, glass: Glass<T, J>) -> Session<T, J>
        requires { arc_value schema ≡ J.schema }
        ensures { result ≡ glass }
    {
        Session {
            alloc,
            schema,
            glass,
            room: Room::make(alloc),
        }
    }

    /// The greatest length that was told.
    pub fn front(&self) -> u64
        ensures front { result ≡ length self.now.known }
        ensures sound { Sound J.schema self.now.known }
    {
        self.glass.front()
    }

    /// Takes in what was published when it was told.
    pub fn learn(&mut self, told: Told<J>)
        ensures learns { Learns self.old.known told self.new.known }
        ensures longer { length self.new.known ≡ max (length self.old.known) (length told) }
        ensures shuts { self.new.shuts ≡ self.old.shuts }
    {
        self.glass.learn(told);
    }

    /// Whether it knows no more than what was published when it was told; else the two lengths.
    pub fn within(&self, told: &Told<J>) -> Result<(), Beyond>
        ensures within { OnOk result (BeginsWith told.now self.now.known) }
        ensures beyond { IfErr result (IsBeyond self.now.known told.now) }
    {
        self.glass.within(told)
    }

    /// What shows that an entry was refused, where one was.
    pub fn shade(&self) -> Option<Shade>
        ensures { (result ≡ None) ↔ (self.now.shuts ≡ 0) }
    {
        self.glass.shade()
    }

    /// Answers the lines of a link until a QUIT, the end of the input or a fault. It takes no lock, and waits for no change. Replies
    /// are handed on before a read that may wait, and at the end. The gate is called by the worker's number before and after each
    /// line.
    pub fn serve<L: Link, G: Gate>(&mut self, link: &mut L, gate: &G, worker: u32) -> SessionEnd
        // Each end with its cause, with what was read and written, and with the lists that bear the replies out.
        ensures ends { MirrorSessionEnds ((link.new ≡ link.old) × (self.new ≡ self.old)) J.schema
            (link_state L.Source L.Sink link.old) (link_state L.Source L.Sink link.new) self.old self.new result }
        ensures grows { BeginsWith self.new.known self.old.known }
        ensures within { TakesWithin (L.taken link.old) (L.taken link.new) }
        // All bytes that the link gives from first to last, and the objects that it borrows, are the same ones.
        ensures beside { KeepsBeside (L.kept_by_read link.old) (L.kept_by_read link.new) }
    {
        converse(self.alloc, self, link, gate, worker)
    }

    // Answers a line of text.
    fn answer_text<K: Sink>(&mut self, text: &[u8], out: &mut K) -> Turn
        ensures gives { let m = mirror_conduct J.schema in
            GivesReply m (m.asks (line.text text.now)) self.old self.new
            (sink_state K.Sink out.old) (sink_state K.Sink out.new) result.by result.written }
        ensures beside { K.kept_by_write out.new ≡ K.kept_by_write out.old }
    {
        match read_ask(self.alloc, &self.schema, text) {
            Ok(ask) => self.reply(ask, out),
            Err(NoMemory) => tell(out, Short::NoMemory, None),
        }
    }

    // Answers what was asked.
    fn reply<K: Sink>(&mut self, ask: Ask, out: &mut K) -> Turn
        requires { mirror_ask_lies J.schema ask ≡ true }
        ensures gives { GivesReply (mirror_conduct J.schema) (plain_mirror_ask ask) self.old self.new
            (sink_state K.Sink out.old) (sink_state K.Sink out.new) result.by result.written }
        ensures beside { K.kept_by_write out.new ≡ K.kept_by_write out.old }
    {
        match ask {
            Ask::Publish(event) => {
                let built = hits(&mut self.glass, &mut self.room, &event);
                tell_built(out, &self.room, built)
            }
            Ask::Costing(event) => tell(out, cost(&mut self.glass, &event), None),
            Ask::Dumping => {
                let built = dumped(&self.schema, &mut self.glass, &mut self.room);
                tell_built(out, &self.room, built)
            }
            Ask::Tailing { place, max } => {
                let built = tail(&self.schema, &mut self.glass, &mut self.room, place, max);
                tell_built(out, &self.room, built)
            }
            Ask::Quit => {
                let n = length(&mut self.glass);
                tell(out, Short::Bye { n }, Some(SessionEnd::Quit))
            }
            Ask::Refused(refusal) => tell(out, Short::Refused(refusal), None),
        }
    }
}

impl<T: Sheet<J>, J: Naming> Replier for Session<T, J> {
    ghost use Rattle.std.specs.Prelude.{[]};
    ghost use Rattle.be_published.specs.States.{GlassState};
    ghost use Rattle.be_mirror.specs.Sessions.{mirror_conduct};

    ghost State = { GlassState };

    ghost state = { λ g. g };

    ghost kept = { λ g. record { schema = J.schema; references = [] } };

    ghost conduct = { mirror_conduct };

    ghost IsReady = { λ g. Unit {0} };

    fn answer<K: Sink>(&mut self, text: &[u8], _ahead: bool, out: &mut K) -> Turn {
        let turn = self.answer_text(text, out);
        self.room.let_go(self.alloc);
        turn
    }

    fn refuse_long<K: Sink>(&mut self, out: &mut K) -> Turn {
        tell(out, Short::Refused(Refusal::Long), None)
    }

    fn tend(&mut self) {}

    fn leave(&mut self) {}
}

// Writes a reply that takes no room, and ends the session so or doesn't.
fn tell<K: Sink>(out: &mut K, reply: Short, by: Option<SessionEnd>) -> Turn
    ensures says { Says by (plain_reply reply) (sink_state K.Sink out.old) (sink_state K.Sink out.new) result }
    ensures beside { K.kept_by_write out.new ≡ K.kept_by_write out.old }
{
    Turn {
        by,
        written: say(out, reply),
    }
}

// Writes the reply that was built, or says why there is none.
fn tell_built<K: Sink>(out: &mut K, room: &Room, built: Result<(), NoRead>) -> Turn
    ensures built { OnOk built (SaysText None room.now.reply.items (sink_state K.Sink out.old) (sink_state K.Sink out.new) result) }
    ensures refused { IfErr built (λ no. Says None (plain_reply (short_of no)) (sink_state K.Sink out.old) (sink_state K.Sink out.new) result) }
    ensures beside { K.kept_by_write out.new ≡ K.kept_by_write out.old }
{
    match built {
        Ok(()) => Turn {
            by: None,
            written: write_all(out, room.reply.as_slice()),
        },
        Err(no) => tell(out, Short::from(no), None),
    }
}
