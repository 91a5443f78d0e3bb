//! What the contract of a job rests on.
ghost use Rattle.std.specs.Prelude.{ℕ};
ghost use Rattle.wg_laws.specs.Built.{BuildsAreAccepted, BuiltAreAccepted, ConversionsAreAccepted, ImportsAreAccepted};
ghost use Rattle.wg_laws.specs.Certificates.{AcceptedAreProven, WrittenAreAccepted};
ghost use Rattle.wg_outcomes.specs.Readings.{Readings, ReadingsAreOne};
ghost use Rattle.wg_outcomes.specs.Ranked.{RankingIsProven};
ghost use Rattle.wg_laws.specs.Judgements.{JudgementsAreOne};
ghost use Rattle.wg_laws.specs.Quotients.{QuotientsAreAccepted};
ghost use Rattle.wg_laws.specs.Rounds.{MoreRoundsNarrow};
ghost use Rattle.wg_laws.specs.Spotted.{SpotsAreShown};
ghost use Rattle.wg_laws.specs.Unions.{UnionsAreAccepted};

/// There are functions that give for all parameters and all bytes the graph or the places that they stand for or their
/// first fault, for all pages what they are by their chain of references alone, for all bounds their ranking, and for
/// all arc lists and all ASCIIGraph texts their graph or their first faulty line; within the limits of the parameters
/// there is only one of each, and a job comes to the same by any two such six. So a clause about each six speaks of one
/// status, one output and one set of files, and is never empty.
pub fn readings()
    ensures some { Readings }
    ensures one { ReadingsAreOne }
    ensures outcome { JudgementsAreOne }
{}

/// What is proved of every ranking: its intervals enclose each exact iterate from its rounds on, within the stated
/// width; and what `rank` prints of the same files after more rounds has intervals inside these.
pub fn rankings()
    ensures proven { (r : Readings) (rounds damping : ℕ) → RankingIsProven r rounds damping }
    ensures narrower { (r : Readings) → MoreRoundsNarrow r }
{}

/// Of an archive that `check` accepts, `spot` prints the line that `show` prints of the page, or refuses the page as
/// `show` does, although it validates the records of one chain alone.
pub fn spotted_pages()
    ensures { (r : Readings) → SpotsAreShown r }
{}

/// What is built is accepted. Of the archive of any graph within the limits, `check` prints the pages, the arcs and the
/// bits of the records, `arcs` the arcs of the graph, `ascii` its ASCIIGraph text, `offsets` the places of the records
/// that were written, `show` the successors that pages have in the graph, and `rank` the ranking of the graph. And
/// whatever arc list `build` took, with pages and a layout within the limits, `check` accepts the three files that it
/// wrote, and prints the very line that it printed.
pub fn built_archives()
    ensures accepted { (r : Readings) → BuiltAreAccepted r }
    ensures builds { (r : Readings) → BuildsAreAccepted r }
{}

/// What is imported is accepted, whatever ASCIIGraph text was read, with a layout within the limits: `check` prints of
/// the three files the very line that was printed, and `ascii` a text of the same words, line by line. And to import
/// what `ascii` prints of an archive, if a file may be so long, is to recode the archive.
pub fn imported_archives()
    ensures { (r : Readings) → ImportsAreAccepted r }
{}

/// What `quotient` writes is accepted, whatever archive and whatever map were read, with classes and a layout within
/// the limits: `check` prints of the three files the very line that was printed, and their graph, whose arcs `arcs`
/// prints, has an arc from class to class exactly if one leads from some page of the one to some page of the other.
pub fn quotients()
    ensures { (r : Readings) → QuotientsAreAccepted r }
{}

/// What is recoded or transposed is accepted, whatever archive was read, with a layout within the limits: `check`
/// prints of the three files the very line that was printed. The graph of a recoded archive is the graph that was read,
/// with its pages, and `arcs` prints of it what it prints of the one that was read. The graph of a transposed one, whose
/// arcs `arcs` prints, has an arc exactly if the graph that was read has it the other way round, and to transpose an
/// archive twice is to recode it.
pub fn converted_archives()
    ensures { (r : Readings) → ConversionsAreAccepted r }
{}

/// What is joined is accepted, whatever two archives were read, with a layout within the limits: `check` prints of the
/// three files the very line that was printed, and their graph, whose arcs `arcs` prints, is the union of the graphs of
/// both archives: it has the pages and the arcs of either.
pub fn joined_archives()
    ensures { (r : Readings) → UnionsAreAccepted r }
{}

/// What `verify` accepts holds, whoever made the certificate: each stationary vector of the graph lies between the
/// bounds and those with the gap that is printed more, page by page, with teleport by the weights that were read or to
/// each page alike. And it accepts each certificate that `rank` wrote over the same graph and the same weights.
pub fn certificates()
    ensures proven { (r : Readings) → AcceptedAreProven r }
    ensures accepted { (r : Readings) → WrittenAreAccepted r }
{}
