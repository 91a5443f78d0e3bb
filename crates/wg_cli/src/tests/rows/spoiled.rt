//! Rows that are not so: they show that one is found.

pub const SPOILED: &str = r"
case spoiled
use copied g
run show g 2
prints 2 0|
holds g.offsets
statos 0
each read 1 to 1 refuses 5 wg: read failed: g.properties|
";

/// What is reported of them.
pub const WRONG: &str = r"spoiled: prints 2 0|
status 0, printed:
2
reported:

spoiled: holds g.offsets
status 0, printed:
2
reported:

spoiled: statos 0
status 0, printed:
2
reported:

spoiled: each read 1 to 1 refuses 5 wg: read failed: g.properties|
status 4, printed:
reported:
wg: read failed: g.properties

";
