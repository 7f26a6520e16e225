//! The laws of shapes, as contracts.
ghost use Rattle.walrus_base.specs.ShapeLaws.{KeepsShapes, GroupHasShape, ShapesEnd};

/// A type that has a shape keeps it where types are added behind the others (Structure > Types > Recursive Types).
pub fn adding_keeps_shapes()
    ensures { KeepsShapes }
{}

/// Where the other types that the members of a group name have shapes, each member has the shape of the group at its position, once the group is added.
pub fn groups_have_their_shapes()
    ensures { GroupHasShape }
{}

/// Where groups name only their own members and types before them, each type has a shape.
pub fn shapes_end()
    ensures { ShapesEnd }
{}
