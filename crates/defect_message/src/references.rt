// What is said of a reference that cannot be read.
ghost use Rattle.std.specs.Prelude.{List, ◌++◌, ℕ, drop};
ghost use Rattle.text.specs.Ascii.{ascii};
ghost use Rattle.buffer.specs.Laid.{Laid};
ghost use Rattle.scope.specs.Names.{name_is};
ghost use Rattle.reference.specs.Path.{split};
ghost use Rattle.message.specs.Words.{in_quotes, noun_of};
ghost use Rattle.message.specs.Tell.{not_available, no_reference, unknown_root};
ghost use Rattle.defect_message.specs.References.{UnknownLaid, TellingLaid, ReferenceLaid};

use crate::refusal::lay_refusal;
use crate::words::{lay_may_read, lay_noun, lay_quoted};
use buffer::lay::{lay, lay_byte};
use defect_walk::telling::{Telling, reference_telling};
use scope::binder::Scope;
use scope::name::Name;
use walk::path::first_end;

fn lay_not_available(out: &mut [u8], o: usize, kind: u32, text: &[u8]) -> usize
    ensures { Laid out.old out.new o (not_available kind text.now) result }
{
    let a = lay_quoted(out, o, text);
    let b = lay(out, a, b" is not available here");
    lay_may_read(out, b, kind)
}

fn lay_no_reference(out: &mut [u8], o: usize, kind: u32, text: &[u8]) -> usize
    ensures { Laid out.old out.new o (no_reference kind text.now) result }
{
    let a = lay_quoted(out, o, text);
    let b = lay(out, a, b" is not a reference available here");
    lay_may_read(out, b, kind)
}

// What every sentence about a path begins with.
fn lay_unresolved(out: &mut [u8], o: usize, text: &[u8]) -> usize
    ensures { Laid out.old out.new o (in_quotes text.now ++ ascii " cannot resolve: ") result }
{
    let a = lay_quoted(out, o, text);
    lay(out, a, b" cannot resolve: ")
}

// The segment at `at` is no member of the root.
fn lay_unknown_root(out: &mut [u8], o: usize, text: &[u8], name: Name, at: usize) -> usize
    ensures { UnknownLaid text.now name at out.old out.new o result }
{
    if text.len() < at {
        return o;
    }
    let path = &text[at..];
    let end = first_end(path);
    let a = lay(out, o, b"unknown ");
    let b = lay_noun(out, a, name);
    let c = lay_byte(out, b, b' ');
    lay_quoted(out, c, &path[..end])
}

fn lay_telling(
    out: &mut [u8],
    o: usize,
    schema: &[u8],
    words: &[u32],
    kind: u32,
    text: &[u8],
    telling: Telling,
) -> usize
    ensures { TellingLaid schema.now words.now kind text.now telling out.old out.new o result }
{
    match telling {
        Telling::Nothing => o,
        Telling::NotAvailable => lay_not_available(out, o, kind, text),
        Telling::NoReference => lay_no_reference(out, o, kind, text),
        Telling::EmptyPath => {
            let next = lay_unresolved(out, o, text);
            lay(out, next, b"the path is empty")
        }
        Telling::UnknownRoot(name, at) => {
            let next = lay_unresolved(out, o, text);
            lay_unknown_root(out, next, text, name, at)
        }
        Telling::Refused(fault, from, at, slot) => {
            let next = lay_unresolved(out, o, text);
            lay_refusal(out, next, schema, words, text, fault, from, at, slot)
        }
    }
}

// `text` is the whole reference, with its `$`.
pub fn lay_reference(
    out: &mut [u8],
    o: usize,
    schema: &[u8],
    rule: &[u8],
    words: &[u32],
    scope: Scope,
    kind: u32,
    text: &[u8],
) -> usize
    ensures { ReferenceLaid schema.now rule.now words.now scope kind text.now out.old out.new o result }
{
    if text.len() == 0 {
        return o;
    }
    let telling = reference_telling(schema, rule, words, scope, &text[1..]);
    lay_telling(out, o, schema, words, kind, text, telling)
}
