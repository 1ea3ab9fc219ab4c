//! Tests of trees that grow, as rows: it grows trees by the lines of its input, and answers what is asked of them. `stdin` has
//! a command and a text a line, and `stdout` the answers. Those of small trees were walked by hand; those of three thousand
//! random conditions are of the script `tools/worked-trees`, a filter over a plain list in Python.
#![tactic(auto)]

mod looks;
mod rows;
mod scores;

use be_base::NoMemory;
use be_event::read_schema;
use be_model::Schema;
use std::alloc::Global;
use std::fmt::Debug;
use std::io;
use std::sync::Arc;
use worked_help::Grown;

const SCHEMA: &[u8] = b"int price 0 1000\nint qty -5 5\nsym side buy sell hold\nint one 7 7\n";

fn schema_of(alloc: Global) -> Option<Arc<Schema>> {
    Arc::new(alloc, read_schema(alloc, SCHEMA).ok()?).ok()
}

fn told<T: Debug + Drop>(alloc: Global, answer: T) -> Result<String, NoMemory> {
    Ok(format!(in alloc; "{answer:?}")?)
}

fn renew(alloc: Global, grown: &mut Grown) -> Result<String, NoMemory> {
    let schema = Arc::try_clone(&grown.tree.schema)?;
    *grown = Grown::make(alloc, schema);
    Ok(String::new(alloc))
}

// A row that stands in the tree says nothing.
fn asked(alloc: Global, grown: &mut Grown, command: &str, text: &str) -> Result<String, NoMemory> {
    let bytes = text.as_bytes();
    match command {
        "row" if rows::put(alloc, grown, bytes) => Ok(String::new(alloc)),
        "tree" => renew(alloc, grown),
        "find" => told(alloc, looks::find(alloc, &grown.tree, bytes)),
        "cost" => told(alloc, looks::cost(alloc, &grown.tree, bytes)),
        "root" => told(alloc, looks::at_root(alloc, &grown.tree, bytes)),
        "at" => told(alloc, looks::at(alloc, &grown.tree, bytes)),
        "columns" => told(alloc, looks::columns(alloc, &grown.tree, bytes)),
        "look" => told(alloc, looks::looked(alloc, &grown.tree)),
        "pick" => told(alloc, scores::pick(alloc, &grown.tree.schema, text)),
        "weight" => told(alloc, scores::weighed(alloc, &grown.tree.schema, text)),
        "leaf" => told(alloc, scores::leaf(alloc, &grown.tree.schema)),
        _ => Ok(String::from_str(alloc, "refused")?),
    }
}

// What is printed for a line.
fn printed(alloc: Global, grown: &mut Grown, line: &str) -> Result<String, NoMemory> {
    let (command, text) = line.split_once(' ').unwrap_or((line, ""));
    let answer = asked(alloc, grown, command, text)?;
    if answer.is_empty() {
        return Ok(answer);
    }
    Ok(format!(in alloc; "{line} -> {answer}\n")?)
}

fn answer(alloc: Global, grown: &mut Grown, line: &str) -> String {
    match printed(alloc, grown, line) {
        Ok(text) => text,
        Err(_) => String::new(alloc),
    }
}

fn main(rt: HostRuntime) -> io::Result<()> {
    let alloc = rt.alloc();
    let Some(schema) = schema_of(alloc) else {
        return Ok(());
    };
    let mut grown = Grown::make(alloc, schema);
    for line in rt.lines(alloc) {
        let text = answer(alloc, &mut grown, line?.as_str());
        rt.print(text.as_str())?;
    }
    Ok(())
}
