//! The texts of schemas.

ghost use Rattle.std.specs.Prelude.{◌≡◌, ◌<◌, ◌∷◌, Some, Ok, true, length, option_map, is_some, IfOk};
ghost use Rattle.std.specs.List.{list_any};
ghost use Rattle.be_base.specs.Text.{same_text};
ghost use Rattle.be_model.specs.declared.schemas.Domain.TheVariants.{Int};
ghost use Rattle.be_model.specs.Schemas.{Attributes, attribute_of, is_among_texts, all_differ};
ghost use Rattle.be_event.specs.SchemaTexts.{words, is_remark, int_domain, sym_domain, domain_of, schema_of, ReadsSchema};
ghost use Rattle.be_event.specs.Declarations.{kind_name, names_declared, JudgesWords, Checks, flaws_of, flawed, declared_on};

use crate::words::{are_different, are_names, count_words, next_word};
use arrayvec::ArrayVec;
use be_base::{ATTRIBUTES, Name, NoMemory, SYMBOLS, read_int};
use be_io::first_line;
use be_model::{Domain, Names, Schema, is_reserved};
use std::alloc::Global;
use std::fmt;
use thiserror::Error;

/// What is wrong with a line of a schema.
#[derive(Clone, Copy, Debug, PartialEq, Eq)]
pub enum SchemaKind {
    /// It has neither of the two forms, `int` with a name and two bounds or `sym` with a name and its words.
    Form,
    /// Its name is a reserved word.
    Reserved,
    /// Its name or a symbol stands twice.
    Twice,
    /// Its bounds are turned or out of range.
    Range,
    /// There are too many attributes or symbols.
    Many,
}

impl SchemaKind {
    fn name(self) -> &'static str
        ensures { result.now ≡ kind_name self }
    {
        match self {
            SchemaKind::Form => "Form",
            SchemaKind::Reserved => "Reserved",
            SchemaKind::Twice => "Twice",
            SchemaKind::Range => "Range",
            SchemaKind::Many => "Many",
        }
    }
}

impl fmt::Display for SchemaKind {
    ghost output = { λ kind. Some (kind_name kind) };

    fn fmt<W: fmt::Write>(&self, f: &mut fmt::Formatter<W>) -> fmt::Result {
        f.pad(self.name())
    }
}

/// Why a text is no schema.
#[derive(Clone, Copy, Debug, PartialEq, Eq, Error)]
pub enum SchemaFault {
    /// The number of the first faulty line, from 1.
    #[error("line {line} {kind}")]
    Line { line: u64, kind: SchemaKind },
    #[error("out of memory")]
    NoMemory,
}

/// Reads a whole text as a schema. Want of memory is answered only where the text has no fault.
pub fn read_schema(alloc: Global, text: &[u8]) -> Result<Schema, SchemaFault>
    ensures { ReadsSchema result (schema_of text.now) }
{
    if let Err(fault) = check(alloc, text) {
        return Err(SchemaFault::Line {
            line: fault.line,
            kind: fault.kind,
        });
    }
    match schema_with(alloc, text) {
        Ok(schema) => Ok(schema),
        Err(_) => Err(SchemaFault::NoMemory),
    }
}

// The first faulty line of a text, and its first kind.
#[derive(Clone, Copy)]
struct LineFault {
    line: u64,
    kind: SchemaKind,
}

// Finds the first fault of a text.
fn check(alloc: Global, text: &[u8]) -> Result<(), LineFault>
    ensures { Checks result (schema_of text.now) }
{
    let mut names = ArrayVec::<Declared, ATTRIBUTES>::new();
    let mut number = 0;
    let mut rest = text;
    while !rest.is_empty() {
        let (line, after) = first_line(rest);
        number += 1;
        match judge(alloc, names.as_slice(), line) {
            Judged::Nothing => {}
            Judged::Fault(kind) => return Err(LineFault { line: number, kind }),
            Judged::Declares(name) => names.push(Declared(name)),
        }
        rest = after;
    }
    Ok(())
}

// The schema of a text without a fault.
fn schema_with(alloc: Global, text: &[u8]) -> Result<Schema, NoMemory>
    requires { (s : Attributes) × (schema_of text.now ≡ Ok s) }
    ensures { IfOk result (λ s. schema_of text.now ≡ Ok s) }
{
    let mut schema = Schema::make(alloc);
    let mut rest = text;
    while !rest.is_empty() {
        let (line, after) = first_line(rest);
        if let Some(attribute) = attribute_on(alloc, line)? {
            schema.push(attribute)?;
        }
        rest = after;
    }
    Ok(schema)
}

// The name of an attribute that was declared.
#[derive(Clone, Copy)]
struct Declared(Name);

// It stands in the unused places of a table, where nothing reads it.
impl Default for Declared {
    fn default() -> Declared {
        Declared(Name::read(b"-").unwrap())
    }
}

// What a line is after these names.
enum Judged {
    // It means nothing.
    Nothing,
    // Its first fault.
    Fault(SchemaKind),
    // It declares an attribute of this name.
    Declares(Name),
}

fn judge(alloc: Global, names: &[Declared], line: &[u8]) -> Judged
    ensures { JudgesWords (names_declared names.now) (words line.now) result }
{
    let Some((kind, rest)) = next_word(line) else {
        return Judged::Nothing;
    };
    if is_remark(kind) {
        return Judged::Nothing;
    }
    let Some((name, rest)) = next_word(rest) else {
        return Judged::Fault(SchemaKind::Form);
    };
    let Ok(name) = Name::read(name) else {
        return Judged::Fault(SchemaKind::Form);
    };
    let Some(flaws) = domain_flaws(alloc, kind, rest) else {
        return Judged::Fault(SchemaKind::Form);
    };
    match kind_of(names, &name, flaws) {
        Some(kind) => Judged::Fault(kind),
        None => Judged::Declares(name),
    }
}

// The first kind of fault of an attribute that comes after these names.
#[tactic(auto, using(crate::proofs::SchemaForms::count_declared))]
fn kind_of(names: &[Declared], name: &Name, flaws: Flaws) -> Option<SchemaKind>
    ensures { result ≡ flawed (names_declared names.now) name.now flaws }
{
    if is_reserved(name) {
        return Some(SchemaKind::Reserved);
    }
    if flaws.repeats || is_declared(names, name) {
        return Some(SchemaKind::Twice);
    }
    if flaws.range {
        return Some(SchemaKind::Range);
    }
    if flaws.many || ATTRIBUTES <= names.len() {
        return Some(SchemaKind::Many);
    }
    None
}

// What is wrong with a domain.
#[derive(Clone, Copy)]
struct Flaws {
    // A word stands twice.
    repeats: bool,
    // The bounds are turned, or beyond 32 bits.
    range: bool,
    // There are too many words.
    many: bool,
}

// The flaws of the domain that the text says, if it says one.
fn domain_flaws(alloc: Global, kind: &[u8], text: &[u8]) -> Option<Flaws>
    ensures { result ≡ option_map flaws_of (domain_of kind.now (words text.now)) }
{
    if kind == b"int".as_slice() {
        let (lo, hi) = bounds(text)?;
        let range = !(Domain::Int { lo, hi }).is_valid();
        return Some(Flaws {
            repeats: false,
            range,
            many: false,
        });
    }
    if kind == b"sym".as_slice() && are_symbols(text) {
        let repeats = !symbols_differ(alloc, text);
        let many = SYMBOLS < count_words(text);
        return Some(Flaws {
            repeats,
            range: false,
            many,
        });
    }
    None
}

// Whether no two symbols are the same. Memory makes it quick: where there is none, each is compared with each.
fn symbols_differ(alloc: Global, text: &[u8]) -> bool
    requires { is_some (sym_domain (words text.now)) ≡ true }
    ensures { result ≡ all_differ (words text.now) }
{
    match names_in(alloc, text) {
        Ok(names) => names.are_different(),
        Err(_) => are_different(text),
    }
}

// Whether there is a word, and each is a name.
fn are_symbols(text: &[u8]) -> bool
    ensures { result ≡ is_some (sym_domain (words text.now)) }
{
    next_word(text).is_some() && are_names(text)
}

fn is_remark(word: &[u8]) -> bool
    ensures { result ≡ is_remark word.now }
{
    match word.split_first() {
        Some((first, _)) => *first == b'#',
        None => false,
    }
}

#[tactic(auto, using(crate::proofs::SchemaForms::name_declared))]
fn is_declared(declared: &[Declared], name: &Name) -> bool
    ensures { result ≡ is_among_texts name.now (names_declared declared.now) }
{
    has_name(declared, name)
}

fn has_name(declared: &[Declared], name: &Name) -> bool
    ensures { result ≡ list_any (λ x. same_text x.0 name.now) declared.now }
{
    declared.iter().any(|other| other.0.same(name))
}

// The two numbers that the text is.
fn bounds(text: &[u8]) -> Option<(i64, i64)>
    ensures { option_map (λ r. Int r.0 r.1) result ≡ int_domain (words text.now) }
{
    let (lo, rest) = next_word(text)?;
    let (hi, rest) = next_word(rest)?;
    match next_word(rest) {
        Some(_) => None,
        None => Some((read_int(lo)?, read_int(hi)?)),
    }
}

// What a line of a schema declares.
fn attribute_on(alloc: Global, line: &[u8]) -> Result<Option<(Name, Domain)>, NoMemory>
    ensures { IfOk result (λ r. option_map (λ a. attribute_of a.0 a.1) r ≡ declared_on (words line.now)) }
{
    let Some((kind, rest)) = next_word(line) else {
        return Ok(None);
    };
    if is_remark(kind) {
        return Ok(None);
    }
    let Some((name, rest)) = next_word(rest) else {
        return Ok(None);
    };
    let Ok(name) = Name::read(name) else {
        return Ok(None);
    };
    match domain_on(alloc, kind, rest)? {
        Some(domain) => Ok(Some((name, domain))),
        None => Ok(None),
    }
}

// The domain that the text says.
fn domain_on(alloc: Global, kind: &[u8], text: &[u8]) -> Result<Option<Domain>, NoMemory>
    ensures { IfOk result (λ r. r ≡ domain_of kind.now (words text.now)) }
{
    if kind == b"int".as_slice() {
        return match bounds(text) {
            Some((lo, hi)) => Ok(Some(Domain::Int { lo, hi })),
            None => Ok(None),
        };
    }
    if kind == b"sym".as_slice() && are_symbols(text) {
        let words = names_in(alloc, text)?;
        return Ok(Some(Domain::Sym { words }));
    }
    Ok(None)
}

// The words of a text of names.
fn names_in(alloc: Global, text: &[u8]) -> Result<Names, NoMemory>
    requires { is_some (sym_domain (words text.now)) ≡ true }
    ensures { IfOk result (λ names. names ≡ words text.now) }
{
    let mut names = Names::make(alloc);
    let mut rest = text;
    while let Some((word, after)) = next_word(rest) {
        if let Ok(name) = Name::read(word) {
            names.push(name)?;
        }
        rest = after;
    }
    Ok(names)
}
