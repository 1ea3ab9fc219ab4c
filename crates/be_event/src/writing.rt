//! Writing events in their one canonical form.

ghost use Rattle.std.specs.Prelude.{◌≡◌, ◌++◌, true, All, Ok, IfOk, OnOk};
ghost use Rattle.be_model.specs.Lies.{item_lies, event_lies};
ghost use Rattle.be_event.specs.Events.{event};
ghost use Rattle.be_event.specs.Writing.{item_text, event_text, IsSpelled};

use be_base::{AttrNo, NoMemory};
use be_model::{Event, Schema, Values};
use std::alloc::Global;

/// The canonical text of an event.
pub fn write_event(alloc: Global, schema: &Schema, e: &Event) -> Result<Vec<u8>, NoMemory>
    requires { event_lies schema.now e.now ≡ true }
    ensures written { IfOk result (λ text. text.items ≡ event_text schema.now e.now) }
    // Reading the text gives the event back.
    ensures read { IfOk result (λ text. event schema.now text.items ≡ Ok e.now) }
{
    // The count tells that the schema has the form of one.
    let _ = schema.count();
    let mut text = Vec::new(alloc);
    put_items(schema, e.items(), &mut text)?;
    Ok(text)
}

fn put_items(
    schema: &Schema,
    items: &[(AttrNo, Values)],
    text: &mut Vec<u8>,
) -> Result<(), NoMemory>
    requires { event_lies schema.now items.now ≡ true }
    ensures written { OnOk result (text.new.items ≡ text.old.items ++ event_text schema.now items.now) }
    ensures spelled { OnOk result (All (IsSpelled schema.now) items.now) }
{
    let Some((first, rest)) = items.split_first() else {
        text.extend_from_slice(b"-")?;
        return Ok(());
    };
    put_item(schema, first, text)?;
    for item in rest {
        text.extend_from_slice(b" ")?;
        put_item(schema, item, text)?;
    }
    Ok(())
}

fn put_item(schema: &Schema, item: &(AttrNo, Values), text: &mut Vec<u8>) -> Result<(), NoMemory>
    requires { item_lies schema.now item.now ≡ true }
    ensures written { OnOk result (text.new.items ≡ text.old.items ++ item_text schema.now item.now) }
    ensures spelled { OnOk result (IsSpelled schema.now item.now) }
{
    let (attr, values) = item;
    schema.write_name(*attr, text)?;
    match values.as_slice() {
        [value] => schema.write_behind(b"=", *attr, value, text),
        values => {
            text.extend_from_slice(b"=")?;
            schema.write_set(*attr, values, text)
        }
    }
}
