//! The script, drawn and written line by line.

ghost use Rattle.std.specs.Prelude.{◌≡◌, ℕ, ◌<◌, ◌++◌, decimal, IfOk, OnOk};
ghost use Rattle.be_workload.specs.Drawing.{draw, put, put_value, between, in_set, compared, predicate, expression, subscription, subscriptions, put_item, item, items, put_event, event, events, event_text, gap};
ghost use Rattle.be_workload.specs.Workload.{start};

use be_base::NoMemory;
use itoa::Buffer;
use rand_core::SeedableRng;
use rand_core::utils::NextWord;
use rand_xoshiro::SplitMix64;
use std::alloc::Global;
use std::marker::Model;

// Attributes of the schema, and values of each.
const ATTRIBUTES: u64 = 10;

const VALUES: u64 = 1000;

/// The script so far.
#[derive(Drop)]
pub struct Script {
    dice: SplitMix64,
    text: Vec<u8>,
    /// The items of the event that is being drawn.
    event: Vec<u8>,
}

impl Model for Script {
    ghost use Rattle.be_workload.specs.Drawing.{Script};

    ghost Value = { Script };

    ghost view = { λ s. record { state = s.dice; text = s.text.items; event = s.event.items } };
}

impl Script {
    /// An empty script. The generator's state is the number that its eight bytes are, the least first.
    pub fn start(alloc: Global, number: u64) -> Script
        ensures { result ≡ start number }
    {
        Script {
            dice: SplitMix64::seed_from_u64(number),
            text: Vec::new(alloc),
            event: Vec::new(alloc),
        }
    }

    /// What was written.
    pub fn into_text(self) -> Vec<u8>
        ensures { result.items ≡ self.text }
    {
        self.text
    }

    // The next word modulo this number.
    #[tactic(auto, unfolding(crate::specs::Drawing::draw))]
    fn draw(&mut self, below: u64) -> u64
        requires { 0 < below }
        ensures drawn { (result, self.new) ≡ draw below self.old }
        ensures below { result < below }
    {
        self.dice.next_word() % below
    }

    fn put(&mut self, text: &[u8]) -> Result<(), NoMemory>
        ensures { OnOk result (self.new ≡ put text.now self.old) }
    {
        self.text.extend_from_slice(text)?;
        Ok(())
    }

    // A number behind this text.
    fn put_number(&mut self, front: &[u8], number: u64) -> Result<(), NoMemory>
        ensures { OnOk result (self.new ≡ put (front.now ++ decimal number) self.old) }
    {
        self.text.extend_from_slice(front)?;
        let mut buffer = Buffer::new();
        self.text
            .extend_from_slice(buffer.format(number).as_bytes())?;
        Ok(())
    }

    // A drawn value of an attribute, behind this text.
    fn put_value(&mut self, front: &[u8]) -> Result<(), NoMemory>
        ensures { OnOk result (self.new ≡ put_value front.now self.old) }
    {
        let value = self.draw(VALUES);
        self.put_number(front, value)
    }

    #[tactic(auto, unfolding(crate::specs::Drawing::between))]
    fn between(&mut self) -> Result<(), NoMemory>
        ensures { OnOk result (self.new ≡ between self.old) }
    {
        let x = self.draw(VALUES);
        let more = self.draw(50);
        self.put_number(b" between ", x)?;
        self.put_number(b" and ", (x + more).min(VALUES - 1))
    }

    // Three values as drawn: doubles stay.
    #[tactic(auto, unfolding(crate::specs::Drawing::in_set))]
    fn in_set(&mut self) -> Result<(), NoMemory>
        ensures { OnOk result (self.new ≡ in_set self.old) }
    {
        self.put_value(b" in {")?;
        self.put_value(b",")?;
        self.put_value(b",")?;
        self.put(b"}")
    }

    // A comparison of this kind.
    fn compared(&mut self, kind: u64) -> Result<(), NoMemory>
        ensures { OnOk result (self.new ≡ compared kind self.old) }
    {
        match kind {
            0 => self.put_value(b" = "),
            1 => self.between(),
            2 => self.put_value(b" <= "),
            3 => self.put_value(b" >= "),
            _ => self.in_set(),
        }
    }

    #[tactic(auto, unfolding(crate::specs::Drawing::predicate))]
    fn predicate(&mut self) -> Result<(), NoMemory>
        ensures { OnOk result (self.new ≡ predicate self.old) }
    {
        let attr = self.draw(ATTRIBUTES);
        self.put_number(b"a", attr)?;
        let kind = self.draw(5);
        self.compared(kind)
    }

    // One to four predicates.
    #[tactic(auto, unfolding(crate::specs::Drawing::expression))]
    fn expression(&mut self) -> Result<(), NoMemory>
        ensures { OnOk result (self.new ≡ expression self.old) }
    {
        let more = self.draw(4);
        self.predicate()?;
        for _next in 0..more {
            self.put(b" and ")?;
            self.predicate()?;
        }
        Ok(())
    }

    #[tactic(auto, unfolding(crate::specs::Drawing::subscription))]
    fn subscription(&mut self, number: u64) -> Result<(), NoMemory>
        ensures { OnOk result (self.new ≡ subscription number self.old) }
    {
        self.put_number(b"SUB s", number)?;
        self.put(b" ")?;
        self.expression()?;
        self.put(b"\n")
    }

    /// The lines of so many subscriptions.
    pub fn subscriptions(&mut self, count: u64) -> Result<(), NoMemory>
        ensures { OnOk result (self.new ≡ subscriptions count self.old) }
    {
        for number in 0..count {
            self.subscription(number)?;
        }
        Ok(())
    }

    fn put_item(&mut self, attr: u64, value: u64) -> Result<(), NoMemory>
        ensures { OnOk result (self.new ≡ put_item attr value self.old) }
    {
        let gap: &[u8] = if self.event.is_empty() { b"" } else { b" " };
        self.event.extend_from_slice(gap)?;
        self.event.extend_from_slice(b"a")?;
        let mut buffer = Buffer::new();
        self.event
            .extend_from_slice(buffer.format(attr).as_bytes())?;
        self.event.extend_from_slice(b"=")?;
        self.event
            .extend_from_slice(buffer.format(value).as_bytes())?;
        Ok(())
    }

    // Eight times in ten the event assigns the attribute.
    #[tactic(auto, unfolding(crate::specs::Drawing::item))]
    fn item(&mut self, attr: u64) -> Result<(), NoMemory>
        ensures { OnOk result (self.new ≡ item attr self.old) }
    {
        if self.draw(10) < 8 {
            let value = self.draw(VALUES);
            self.put_item(attr, value)?;
        }
        Ok(())
    }

    fn put_event(&mut self) -> Result<(), NoMemory>
        ensures { OnOk result (self.new ≡ put_event self.old) }
    {
        let event = event_text(self.event.as_slice());
        self.text.extend_from_slice(b"PUB ")?;
        self.text.extend_from_slice(event)?;
        self.text.extend_from_slice(b"\nCOST ")?;
        self.text.extend_from_slice(event)?;
        self.text.extend_from_slice(b"\n")?;
        Ok(())
    }

    #[tactic(auto, unfolding(crate::specs::Drawing::event))]
    fn event(&mut self) -> Result<(), NoMemory>
        ensures { OnOk result (self.new ≡ event self.old) }
    {
        self.event.clear();
        for attr in 0..ATTRIBUTES {
            self.item(attr)?;
        }
        self.put_event()
    }

    /// The lines of so many events.
    pub fn events(&mut self, count: u64) -> Result<(), NoMemory>
        ensures { OnOk result (self.new ≡ events count self.old) }
    {
        for _done in 0..count {
            self.event()?;
        }
        Ok(())
    }
}

// An event's canonical text, of its items.
fn event_text(items: &[u8]) -> &[u8]
    ensures { result.now ≡ event_text items.now }
{
    if items.is_empty() { b"-" } else { items }
}
