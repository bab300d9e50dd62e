// Words that messages are made of, as validation.rs and definition.rs spell them, laid at a place of a lent buffer.
ghost use Rattle.std.specs.Prelude.{List, ◌++◌, ℕ, ◌≤◌, ◌<◌};
ghost use Rattle.buffer.specs.Laid.{Laid};
ghost use Rattle.sheet.specs.FieldKinds.{kind_name};
ghost use Rattle.message.specs.Words.{in_quotes, what, allowed, noun_of};
ghost use Rattle.message.specs.Tell.{may_read};
ghost use Rattle.scope.specs.Names.{name_is};

use buffer::lay::{lay, lay_byte};
use scope::name::Name;

pub fn lay_quoted(out: &mut [u8], o: usize, text: &[u8]) -> usize
    ensures { Laid out.old out.new o (in_quotes text.now) result }
{
    let start = lay_byte(out, o, b'\'');
    let end = lay(out, start, text);
    lay_byte(out, end, b'\'')
}

// Two texts in quotes, each with words after it.
pub fn lay_both(
    out: &mut [u8],
    o: usize,
    one: &[u8],
    between: &[u8],
    other: &[u8],
    behind: &[u8],
) -> usize
    ensures { Laid out.old out.new o (in_quotes one.now ++ (between.now ++ (in_quotes other.now ++ behind.now))) result }
{
    let first = lay_quoted(out, o, one);
    let next = lay(out, first, between);
    let second = lay_quoted(out, next, other);
    lay(out, second, behind)
}

// 1 string to 6 array.
fn lay_simple_kind(out: &mut [u8], o: usize, kind: usize) -> usize
    requires { (1 ≤ kind) × (kind < 7) }
    ensures { Laid out.old out.new o (kind_name kind) result }
{
    match kind {
        1 => lay(out, o, b"string"),
        2 => lay(out, o, b"integer"),
        3 => lay(out, o, b"number"),
        4 => lay(out, o, b"boolean"),
        5 => lay(out, o, b"enum"),
        _ => lay(out, o, b"array"),
    }
}

// 7 object to 12 binary64; there are no others.
fn lay_other_kind(out: &mut [u8], o: usize, kind: usize) -> usize
    requires { 1 ≤ kind → 7 ≤ kind }
    ensures { Laid out.old out.new o (kind_name kind) result }
{
    match kind {
        7 => lay(out, o, b"object"),
        8 => lay(out, o, b"json"),
        9 => lay(out, o, b"ref"),
        10 => lay(out, o, b"map"),
        11 => lay(out, o, b"union"),
        _ => lay(out, o, b"binary64"),
    }
}

// `FieldKind::as_str`.
pub fn lay_kind(out: &mut [u8], o: usize, kind: usize) -> usize
    ensures { Laid out.old out.new o (kind_name kind) result }
{
    if 7 <= kind {
        return lay_other_kind(out, o, kind);
    }
    if 1 <= kind {
        return lay_simple_kind(out, o, kind);
    }
    lay_other_kind(out, o, kind)
}

// `ScopeKind::what`.
fn lay_what(out: &mut [u8], o: usize, kind: u32) -> usize
    ensures { Laid out.old out.new o (what kind) result }
{
    match kind {
        1 => lay(out, o, b"an entity invariant"),
        2 => lay(out, o, b"an operation precondition"),
        3 => lay(out, o, b"a creation event payload"),
        4 => lay(out, o, b"an operation template"),
        5 => lay(out, o, b"an outcome selector"),
        6 => lay(out, o, b"a creation outcome selector"),
        7 => lay(out, o, b"a creation outcome assignment"),
        _ => lay(out, o, b"a creation outcome template"),
    }
}

// `ScopeKind::allowed`: the stock table's names, under any table.
fn lay_allowed(out: &mut [u8], o: usize, kind: u32) -> usize
    ensures { Laid out.old out.new o (allowed kind) result }
{
    match kind {
        1 => lay(
            out,
            o,
            b"$id, $entity, $version, $state, $fields, $fields.<path>",
        ),
        2 => lay(
            out,
            o,
            b"$id, $entity, $version, $from_state, $to_state, $args, $args.<path>, $fields, $fields.<path>, $old_fields, $old_fields.<path>",
        ),
        3 => lay(
            out,
            o,
            b"$id, $entity, $version, $state, $to_state, $fields, $fields.<path>",
        ),
        4 => lay(
            out,
            o,
            b"$id, $entity, $version, $state, $from_state, $to_state, $args, $args.<path>, $fields, $fields.<path>, $old_fields, $old_fields.<path>",
        ),
        5 => lay(
            out,
            o,
            b"$id, $entity, $version, $from_state, $args, $args.<path>, $fields, $fields.<path>",
        ),
        6 => lay(out, o, b"$id, $entity, $version, $args, $args.<path>"),
        7 => lay(
            out,
            o,
            b"$id, $entity, $version, $state, $to_state, $args, $args.<path>",
        ),
        _ => lay(
            out,
            o,
            b"$id, $entity, $version, $state, $to_state, $args, $args.<path>, $fields, $fields.<path>",
        ),
    }
}

// Who may read what.
pub fn lay_may_read(out: &mut [u8], o: usize, kind: u32) -> usize
    ensures { (t : List ℕ) → Laid out.old out.new o (may_read kind t) result }
{
    let a = lay(out, o, b"; ");
    let b = lay_what(out, a, kind);
    let c = lay(out, b, b" may read ");
    lay_allowed(out, c, kind)
}

// What the members of a root are called.
pub fn lay_noun(out: &mut [u8], o: usize, name: Name) -> usize
    ensures { Laid out.old out.new o (noun_of (name_is name)) result }
{
    match name {
        Name::Id => o,
        Name::Entity => o,
        Name::Version => o,
        Name::Fields => lay(out, o, b"field"),
        Name::State => o,
        Name::ToState => o,
        Name::FromState => o,
        Name::Args => lay(out, o, b"argument"),
        Name::OldFields => lay(out, o, b"field"),
    }
}
