/// What a job writes: the three files of an archive, a certificate, and the standard output.
#[derive(Clone, Copy, Debug, PartialEq, Eq)]
pub enum Output {
    /// The properties text of an archive.
    Properties,
    /// Its records.
    Graph,
    /// Its offsets file.
    Offsets,
    /// A certificate of lower bounds.
    Certificate,
    /// The standard output.
    Out,
}
