// The kinds of steps, and what each takes.
#![tactic(auto)]

ghost use Rattle.std.specs.Prelude.{◌≡◌};
ghost use Rattle.step_kinds.specs.Kinds.{shape_of, takes_list};

// The five steps.
#[derive(Clone, Copy, PartialEq, Eq)]
pub enum Kind {
    New,
    Set,
    Get,
    Async,
    End,
}

// What stands behind the word of a step: one number, two, or two and a list.
#[derive(Clone, Copy, PartialEq, Eq)]
pub enum Shape {
    One,
    Two,
    List,
}

// What a step of the kind takes.
#[tactic(auto, unfolding(crate::specs::Kinds::shape_of))]
pub fn shape_of(kind: Kind) -> Shape
    ensures { result ≡ shape_of kind }
{
    match kind {
        Kind::New | Kind::Set | Kind::Get => Shape::Two,
        Kind::Async => Shape::List,
        Kind::End => Shape::One,
    }
}

// Whether it takes a list.
#[tactic(auto, unfolding(crate::specs::Kinds::takes_list))]
pub fn takes_list(kind: Kind) -> bool
    ensures { result ≡ takes_list (shape_of kind) }
{
    matches!(shape_of(kind), Shape::List)
}
