// Two schemas as a whole. The head of a sheet, entry 1, has the marks of the record and of the arguments.
ghost use Rattle.std.specs.Prelude.{◌≤◌, length};
ghost use Rattle.definition.specs.Limits.{max_sheet_bytes};
ghost use Rattle.schema_change.specs.Answers.{Goes};
ghost use Rattle.schema_change.specs.Places.{Within};
ghost use Rattle.schema_change.specs.Schemas.{arguments_head_marks, ArgumentsGo, SchemasGo};

use crate::answer::{Change, Reason, grow, refute, refute_if};
use crate::entry::mark_closes;
use crate::field::{Going, compare_members};
use crate::place::Place;
use definition::limits::MAX_FIELD_NESTING;
use sheet::schema_heads::{HolderHead, schema_head};

fn compare_arguments_marks(x: Option<HolderHead>, y: Option<HolderHead>, found: Change) -> Change
    ensures { Goes found (arguments_head_marks x y) result }
{
    match x {
        Some(h) => match y {
            Some(g) => refute_if(
                found,
                mark_closes(h.opened, g.opened),
                Reason::MarkCloses,
                1,
                1,
            ),
            None => refute(found, Reason::ArgumentsGo, 1, 0),
        },
        None => match y {
            Some(_) => grow(found),
            None => found,
        },
    }
}

fn compare_arguments(
    first: &[u8],
    x: Option<HolderHead>,
    second: &[u8],
    y: Option<HolderHead>,
    from: Going,
) -> Change
    requires { Within first.now from.x × Within second.now from.y }
    ensures { ArgumentsGo first.now x second.now y from result }
{
    let found = from.found;
    let Some(h) = x else {
        return found;
    };
    let Some(g) = y else {
        return found;
    };
    let going = compare_members(first, h, second, g, MAX_FIELD_NESTING, from);
    going.found
}

pub fn compare_schemas(first: &[u8], second: &[u8]) -> Change
    requires { (length first.now ≤ max_sheet_bytes) × (length second.now ≤ max_sheet_bytes) }
    ensures { SchemasGo first.now second.now result }
{
    let start = Change::Marks;
    let Some((g, at)) = schema_head(first, 0) else {
        return start;
    };
    let Some((h, next)) = schema_head(second, 0) else {
        return start;
    };
    let xs = g.fields;
    let ys = h.fields;
    let xa = g.arguments;
    let ya = h.arguments;
    let mark = refute_if(
        start,
        mark_closes(xs.opened, ys.opened),
        Reason::MarkCloses,
        1,
        1,
    );
    let found = compare_arguments_marks(xa, ya, mark);
    let x = Place { entry: 2, at };
    let y = Place { entry: 2, at: next };
    let fields = compare_members(
        first,
        xs,
        second,
        ys,
        MAX_FIELD_NESTING,
        Going { found, x, y },
    );
    compare_arguments(first, xa, second, ya, fields)
}
