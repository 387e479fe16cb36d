// What the tables are of the rows.

ghost use Rattle.layer_builder.specs.Cuboids.{BaseIsCuboid, RegroupedIsCuboid};
ghost use Rattle.layer_builder.specs.Meanings.{CuboidMeansRows};

/// A base cuboid is the aggregate of its rows by all rowkey columns, and what is regrouped from an aggregate of rows is the
/// aggregate of the same rows by the smaller set. So each cuboid that is made from the base, at once or by way of
/// others, is an aggregate of the rows that the base was made of.
pub fn cuboids_of_rows()
    ensures base { BaseIsCuboid }
    ensures regrouped { RegroupedIsCuboid }
{}

/// Read over its dictionaries, a cuboid is the aggregate of its rows in values: each key is the values that the rows of its
/// group have in its dimensions, in the order of values, and each set of different numbers is the different values. It holds
/// where each value that counts is in its dictionary; a value outside would count as the next greater one.
pub fn values_of_cuboids()
    ensures { CuboidMeansRows }
{}
