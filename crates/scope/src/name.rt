// The nine names, and which kinds of rules and templates may read them.
ghost use Rattle.std.specs.Prelude.{◌≡◌};
ghost use Rattle.reference.specs.Setting.{one_of};
ghost use Rattle.reference.specs.Table.{stock_row};
ghost use Rattle.scope.specs.Names.{name_is, row_by, may_read_by, NamedIs, OtherIs};

use text::order::same_bytes;

#[derive(Clone, Copy)]
pub enum Name {
    Id,
    Entity,
    Version,
    Fields,
    State,
    ToState,
    FromState,
    Args,
    OldFields,
}

// One of the names but `fields`.
fn other_name(text: &[u8]) -> Option<Name>
    ensures { OtherIs text.now result }
{
    if same_bytes(b"id", text) {
        return Some(Name::Id);
    }
    if same_bytes(b"entity", text) {
        return Some(Name::Entity);
    }
    if same_bytes(b"version", text) {
        return Some(Name::Version);
    }
    if same_bytes(b"state", text) {
        return Some(Name::State);
    }
    if same_bytes(b"to_state", text) {
        return Some(Name::ToState);
    }
    if same_bytes(b"from_state", text) {
        return Some(Name::FromState);
    }
    if same_bytes(b"args", text) {
        return Some(Name::Args);
    }
    if same_bytes(b"old_fields", text) {
        return Some(Name::OldFields);
    }
    None
}

// The name that is spelled so, after the `$`. Most references begin with `fields`: that name is found without a call.
pub fn name_of(text: &[u8]) -> Option<Name>
    ensures { NamedIs text.now result }
{
    if same_bytes(b"fields", text) {
        return Some(Name::Fields);
    }
    other_name(text)
}

pub fn one_of(kind: usize, kinds: &[usize]) -> bool
    ensures { result ≡ one_of kind kinds.now }
{
    for &other in kinds {
        if kind == other {
            return true;
        }
    }
    false
}

// Which of the nine names may be read.
#[derive(Clone, Copy)]
pub struct Row {
    pub id: bool,
    pub entity: bool,
    pub version: bool,
    pub fields: bool,
    pub state: bool,
    // `to_state`
    pub target: bool,
    // `from_state`
    pub source: bool,
    pub args: bool,
    // `old_fields`
    pub old: bool,
}

// The stock table's row for a kind of rule or template.
pub fn stock_row(kind: usize) -> Row
    ensures { row_by result ≡ stock_row kind }
{
    Row {
        id: true,
        entity: true,
        version: true,
        fields: !one_of(kind, &[6, 7]),
        state: !one_of(kind, &[2, 5, 6]),
        target: !one_of(kind, &[1, 5, 6]),
        source: one_of(kind, &[2, 4, 5]),
        args: one_of(kind, &[2, 4, 5, 6, 7, 8]),
        old: one_of(kind, &[2, 4]),
    }
}

// Whether the name may be read where that row holds.
pub fn may_read(row: Row, name: Name) -> bool
    ensures { result ≡ may_read_by row (name_is name) }
{
    match name {
        Name::Id => row.id,
        Name::Entity => row.entity,
        Name::Version => row.version,
        Name::Fields => row.fields,
        Name::State => row.state,
        Name::ToState => row.target,
        Name::FromState => row.source,
        Name::Args => row.args,
        Name::OldFields => row.old,
    }
}
