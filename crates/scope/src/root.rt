// What the three names with a path lead into.
ghost use Rattle.scope.specs.Roots.{RootIs};

use crate::name::Name;
use schema::index::Holder;
use schema::read::Schema;

#[derive(Clone, Copy)]
pub enum Root {
    // The name has no path.
    Nothing,
    // There are no arguments.
    Missing,
    // The holder, with the place that a refusal names: 1 for the record, 0 for the arguments.
    At(usize, Holder),
}

pub fn root_of(schema: Schema, name: Name) -> Root
    ensures { RootIs schema name result }
{
    let fields = schema.fields;
    match name {
        Name::Fields => Root::At(1, fields),
        Name::OldFields => Root::At(1, fields),
        Name::Args => {
            let arguments = schema.arguments;
            let Some(holder) = arguments else {
                return Root::Missing;
            };
            Root::At(0, holder)
        }
        Name::Id => Root::Nothing,
        Name::Entity => Root::Nothing,
        Name::Version => Root::Nothing,
        Name::State => Root::Nothing,
        Name::ToState => Root::Nothing,
        Name::FromState => Root::Nothing,
    }
}
