// What a walk answers.

// Which walk a path is for.
#[derive(Clone, Copy)]
pub enum Reader {
    Kernel,
    // A projection reads its keys, and texts have no count there.
    Projection,
}

// Why a reference cannot be read; docs/FORMAT.md, "Details", number 18, in its order.
#[derive(Clone, Copy)]
pub enum ReferenceFault {
    EmptyPath,
    UnknownRoot,
    UnknownProperty,
    ArrayMember,
    MapMember,
    AfterCount,
    AfterTag,
    UnionMember,
    NoCount,
    NoMember,
    RootNotAvailable,
    NoSuchReference,
    TextCount,
}

// Why a value names no collection; docs/FORMAT.md, "Details", number 22, in its order.
#[derive(Clone, Copy)]
pub enum CollectionFault {
    NotAString,
    UnknownProperty,
    NoMember,
    NotACollection,
    NoName,
}

// Where one segment of a reference leads.
#[derive(Clone, Copy)]
pub enum WalkStep {
    Refuse(ReferenceFault),
    // Fine as the last segment, else refused.
    Leaf(ReferenceFault),
    // Whatever follows is fine.
    Free,
    // To the field of that slot.
    Into(usize),
}

// Whether a reference can be read, or why not: the fault, and the entry of the field that refused, 1 for the record, 0 for the arguments or no field.
pub type Readable = Result<(), (ReferenceFault, usize)>;

// Where one segment of an `in` path leads: to the field of that slot, or to what the schema does not declare; or why it is refused.
pub type FieldStep = Result<Option<usize>, CollectionFault>;

// What a path of `in` reaches, or the collection's element: the field of that slot, or what the schema does not declare; or the fault, and the entry
// of the field that refused, as in `Readable`.
pub type Collected = Result<Option<usize>, (CollectionFault, usize)>;
