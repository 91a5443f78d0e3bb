/// What the name of an archive's properties ends in, after the name of the archive.
pub const PROPERTIES: &str = ".properties";

/// What the name of an archive's records ends in.
pub const GRAPH: &str = ".graph";

/// What the name of an archive's offsets ends in.
pub const OFFSETS: &str = ".offsets";
