//! The counts of one session.

ghost use Rattle.std.specs.Prelude.{◌≡◌, ◌+◌, ◌<◌, ◌≤◌, length, true, OnOk, IfOk};
ghost use Rattle.be_base.specs.declared.limits.TheConstants.{FILE_BYTES, LINE_BYTES};
ghost use Rattle.be_change.specs.Requests as asked;
ghost use Rattle.be_heat.specs.Seats.{IsOf, new_seat};
ghost use Rattle.be_io.specs.Lines.{read_line};
ghost use Rattle.be_protocol.specs.Requests.{Reads, plain_request, plain_refusal};
ghost use Rattle.be_protocol.specs.Readings.{reading};
ghost use Rattle.be_demand.specs.Counts.{RaisedWhere, AreAtMost, HaveWords, HasWords, HasCounted, adds_to, is_asked};
ghost use Rattle.be_demand.specs.Demand.{IsOver};
ghost use Rattle.be_demand.specs.Texts.{HasLines};

use crate::cutting::{Cut, cut_line};
use crate::replies::tell_reply;
use be_base::{LINE_BYTES, NoMemory};
use be_heat::{Heat, HeatSeat};
use be_io::without_cr;
use be_model::{Event, Schema};
use be_protocol::{Refusal, Request, read_line};
use std::alloc::Global;

/// Goes through a file's lines and the replies to them side by side, and counts at a seat that has counted nothing yet.
pub(crate) fn count_session(
    alloc: Global,
    schema: &Schema,
    heat: &Heat,
    seat: &mut HeatSeat,
    file: &[u8],
    transcript: &[u8],
) -> Result<(), NoMemory>
    requires words { heat.now.words ≡ 1 + length schema.now }
    requires new { seat.old ≡ new_seat heat.now.of heat.now.words }
    requires short { length file.now ≤ FILE_BYTES }
    ensures of { IsOf heat.now seat.new }
    ensures counted { OnOk result ((ps : _) → IsOver schema.now file.now transcript.now ps → HasCounted heat.now.words seat.new.own ps) }
{
    let mut lines = file;
    let mut replies = transcript;
    while !lines.is_empty() && !replies.is_empty() {
        let cut = cut_line(lines);
        let told = tell_reply(replies);
        let request = read_request(alloc, schema, &cut)?;
        if told.is_hit {
            add_hit(heat, seat, &request);
        }
        drop(request);
        lines = cut.rest;
        replies = told.rest;
    }
    Ok(())
}

// What a line asks for. A refusal tells no name with an LF, and the attributes of an event are the schema's.
fn read_request(alloc: Global, schema: &Schema, cut: &Cut) -> Result<Request, NoMemory>
    ensures read { Reads result (reading schema.now (read_line LINE_BYTES cut.now.ended cut.now.line.now)) }
    ensures words { IfOk result (λ request. HasWords (1 + length schema.now) (plain_request request)) }
    ensures named { IfOk result (λ request. (t : _) → plain_request request ≡ asked.refused t → HasLines schema.now (asked.refusal t)) }
{
    if cut.line.len() > LINE_BYTES {
        return Ok(Request::Refused(Refusal::Long));
    }
    let text = if cut.ended {
        cut.line
    } else {
        without_cr(cut.line)
    };
    let request = read_line(alloc, schema, text)?;
    show_name(&request);
    Ok(request)
}

// Called for what the type of a refused name keeps.
fn show_name(request: &Request)
    ensures { (s : _) (t : _) → plain_request request.now ≡ asked.refused t → HasLines s (asked.refusal t) }
{
    if let Request::Refused(refusal) = request {
        show_refused(refusal);
    }
}

fn show_refused(refusal: &Refusal)
    ensures { (s : _) → HasLines s (asked.refusal (plain_refusal refusal.now)) }
{
    match refusal {
        Refusal::Attr { name } => {
            let _ = name.bytes();
        }
        Refusal::Dom { name } => {
            let _ = name.bytes();
        }
        Refusal::Twice { name } => {
            let _ = name.bytes();
        }
        Refusal::Bad => {}
        Refusal::Long => {}
        Refusal::Many { .. } => {}
    }
}

// Counts a HIT, and each attribute that its event assigns.
fn add_hit(heat: &Heat, seat: &mut HeatSeat, request: &Request)
    requires of { IsOf heat.now seat.old }
    requires long { length seat.old.own ≡ heat.now.words }
    requires some { 0 < heat.now.words }
    requires few { AreAtMost FILE_BYTES heat.now.words seat.old.own }
    requires words { HasWords heat.now.words (plain_request request.now) }
    ensures of { IsOf heat.now seat.new }
    ensures long { length seat.new.own ≡ heat.now.words }
    ensures added { RaisedWhere (λ word. adds_to word (plain_request request.now)) heat.now.words seat.old.own seat.new.own }
{
    heat.add(seat, 0);
    match request {
        Request::Publish(event) => add_attributes(heat, seat, event),
        _ => {}
    }
}

// Counts each attribute of an event once.
fn add_attributes(heat: &Heat, seat: &mut HeatSeat, event: &Event)
    requires of { IsOf heat.now seat.old }
    requires long { length seat.old.own ≡ heat.now.words }
    requires few { AreAtMost (FILE_BYTES + 1) heat.now.words seat.old.own }
    requires words { HaveWords heat.now.words event.now }
    ensures of { IsOf heat.now seat.new }
    ensures long { length seat.new.own ≡ heat.now.words }
    ensures added { RaisedWhere (λ word. is_asked word event.now) heat.now.words seat.old.own seat.new.own }
{
    for item in event.items() {
        heat.add(seat, 1 + u32::from(item.0.0));
    }
}
