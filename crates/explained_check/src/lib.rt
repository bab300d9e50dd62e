// The whole call with a message buffer: a single check that hands over what a defect says.
#![tactic(auto)]

ghost use Rattle.std.specs.Prelude.{◌≡◌};
ghost use Rattle.single_check.specs.Answers.{Narrow};
ghost use Rattle.message.specs.Explaining.{MeetsExplained};
ghost use Rattle.explained_check.specs.Runs.{explained_run_of};
ghost use Rattle.explained_check.specs.Saying.{SaidOf};

use constants::mark_constants;
use defect_message::explain::lay_message;
use definition::limits::MARK_BYTES;
use schema::read::read_schema;
use scope::binder::{Scope, unbound};
use single_check::outcome::{Outcome, Report, refused};
use single_check::settings::{refused_settings, settle};
use single_check::sheets::{Takes, check_sheet};
use walk::answer::Reader;

// 39 where the message has no room, else 0, and how many bytes the message has.
#[derive(Clone, Copy)]
pub struct Said {
    pub refusal: u32,
    pub size: u32,
}

// What is answered: the report of a check with a mark list, and what was said.
#[derive(Clone, Copy)]
pub struct Explained {
    pub report: Report,
    pub refusal: u32,
    pub size: u32,
}

// Messages are short.
fn narrow(n: usize) -> u32
    ensures { Narrow n result }
{
    if n < 4294967296 { n as u32 } else { 0 }
}

fn unsaid(outcome: Outcome, marks: u32) -> Explained
    ensures { result ≡ record { report = record { outcome = outcome; marks = marks }; refusal = 0; size = 0 } }
{
    Explained {
        report: Report { outcome, marks },
        refusal: 0,
        size: 0,
    }
}

// A defect's message, measured before it is written.
fn say(
    message: &mut [u8],
    schema: &[u8],
    rule: &[u8],
    words: &[u32],
    scope: Scope,
    kind: u32,
    o: Outcome,
) -> Said
    ensures { SaidOf schema.now rule.now words.now scope kind o message.old message.new result }
{
    let size = lay_message(
        &mut message[0..0],
        0,
        schema,
        rule,
        words,
        scope,
        kind,
        o.number,
        o.detail,
        o.place,
    );
    if message.len() < size {
        return Said {
            refusal: 39,
            size: narrow(size),
        };
    }
    let end = lay_message(
        message, 0, schema, rule, words, scope, kind, o.number, o.detail, o.place,
    );
    Said {
        refusal: 0,
        size: narrow(end),
    }
}

// Checks a rule or template, whichever `takes` lets in, under a name table; writes the marks of one that is accepted, and the message of a defect.
pub fn validate_explained(
    takes: Takes,
    kind: u32,
    semantics: u32,
    label: &[u8],
    table: &[u8],
    schema: &[u8],
    rule: &[u8],
    path: &mut [u8],
    marks: &mut [u8],
    message: &mut [u8],
    scratch: &mut [u32],
) -> Explained
    ensures { MeetsExplained (explained_run_of takes kind semantics label.now table.now schema.now rule.now path.old marks.old message.old scratch.old result path.new marks.new message.new scratch.new) }
{
    let number = refused_settings(kind, semantics, label, path.len(), scratch.len());
    if number != 0 {
        return unsaid(refused(number), 0);
    }
    if marks.len() < MARK_BYTES {
        return unsaid(refused(35), 0);
    }
    match settle(kind, semantics, table) {
        Err(number) => unsaid(refused(number), 0),
        Ok(setting) => {
            let read = read_schema(schema, scratch);
            let o = check_sheet(takes, setting, label, schema, read, rule, path, scratch);
            if o.number == 0 {
                let count = mark_constants(rule, scratch, marks);
                return unsaid(o, count as u32);
            }
            let Some(s) = read else {
                return unsaid(o, 0);
            };
            if o.number < 11 {
                return unsaid(o, 0);
            }
            let scope = unbound(setting.row, setting.service, Reader::Kernel, s);
            let said = say(message, schema, rule, scratch, scope, kind, o);
            Explained {
                report: Report {
                    outcome: o,
                    marks: 0,
                },
                refusal: said.refusal,
                size: said.size,
            }
        }
    }
}
