ghost use Rattle.wg_greedy.specs.Laws.{ChosenIsCandidate, ChosenIsShortest, ChosenIsShort, FilesHoldTheBits, CanonicalIsProper, GreedyIsAccepted};

/// The record that is written of a page is the shortest of its candidates, by the smallest reference.
pub fn chosen_reference()
    ensures candidate { ChosenIsCandidate }
    ensures shortest { ChosenIsShortest }
{}

/// It has few bits for each successor.
pub fn short_records()
    ensures { ChosenIsShort }
{}

/// The bytes of the files of a graph are their bits.
pub fn files()
    ensures { FilesHoldTheBits }
{}

/// The canonical record of a list is a proper record of it, by each reference that may be taken.
pub fn canonical_records()
    ensures { CanonicalIsProper }
{}

/// The greedy archive of a graph is accepted: its graph file stands for the lists of this graph, its offsets file
/// stores the places of the records, and both are as short as a file may be.
pub fn greedy_archives()
    ensures { GreedyIsAccepted }
{}
