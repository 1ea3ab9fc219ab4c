//! Values and names of a schema as texts.

ghost use Rattle.std.specs.Prelude.{◌≡◌, ◌<◌, ◌++◌, ◌∷◌, [], true, length, Some, OnOk, OnErr};
ghost use Rattle.be_base.specs.Text.{IsName, IsWord};
ghost use Rattle.be_model.specs.Domains.{bounds_of, is_within, value_of_word};
ghost use Rattle.be_model.specs.Schemas.{is_domain, attribute_named, value_at};
ghost use Rattle.be_model.specs.Lies.{item_lies};
ghost use Rattle.be_model.specs.Texts.{value_text, value_text_at, name_at};

use crate::schemas::{Domain, Schema};
use be_base::{AttrNo, NoMemory};
use itoa::Buffer;

impl Domain {
    /// Puts the text of a value last.
    pub fn write_value(&self, v: i64, text: &mut Vec<u8>) -> Result<(), NoMemory>
        requires valid { is_domain self.now ≡ true }
        requires within { is_within (bounds_of self.now) v ≡ true }
        ensures written { OnOk result (text.new.items ≡ text.old.items ++ value_text self.now v) }
        ensures refused { OnErr result (text.new.items ≡ text.old.items) }
        ensures word { IsWord (value_text self.now v) }
        ensures read { value_of_word self.now (value_text self.now v) ≡ Some v }
    {
        match self {
            Domain::Int { .. } => {
                let mut number = Buffer::new();
                text.extend_from_slice(number.format(v).as_bytes())?;
            }
            Domain::Sym { words } => {
                text.extend_from_slice(words.as_slice()[v as usize].bytes())?;
            }
        }
        Ok(())
    }
}

impl Schema {
    /// Puts the text of an attribute's value last.
    pub fn write_value(&self, a: AttrNo, v: i64, text: &mut Vec<u8>) -> Result<(), NoMemory>
        requires { item_lies self.now (a, v ∷ []) ≡ true }
        ensures written { OnOk result (text.new.items ≡ text.old.items ++ value_text_at self.now a v) }
        ensures refused { OnErr result (text.new.items ≡ text.old.items) }
        ensures word { IsWord (value_text_at self.now a v) }
        ensures read { value_at self.now a (value_text_at self.now a v) ≡ Some v }
    {
        self.attribute(a).domain.write_value(v, text)
    }

    /// Puts the name of an attribute last.
    pub fn write_name(&self, a: AttrNo, text: &mut Vec<u8>) -> Result<(), NoMemory>
        requires { a.0 < length self.now }
        ensures written { OnOk result (text.new.items ≡ text.old.items ++ name_at self.now a) }
        ensures refused { OnErr result (text.new.items ≡ text.old.items) }
        ensures name { IsName (name_at self.now a) }
        ensures found { attribute_named self.now (name_at self.now a) ≡ Some a }
    {
        text.extend_from_slice(self.attribute(a).name.bytes())?;
        Ok(())
    }
}
