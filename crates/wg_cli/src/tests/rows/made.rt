//! Archives that are made of archives.

/// What `recode`, `transpose`, `quotient` and `union` write, and what they refuse.
pub const MADE: &str = r"
case an arc in the plainest codes
use one-arc g
run recode g h --window 0 --interval 0 --residuals gamma
prints ok nodes=2 arcs=1 bits=7|
stands plain-arc h
stands one-arc g
run check h
prints ok nodes=2 arcs=1 bits=7|
run arcs h
prints 0 1|

case an arc in the usual codes again
use plain-arc g
run recode g h
prints ok nodes=2 arcs=1 bits=10|
stands one-arc h
stands plain-arc g
run check h
prints ok nodes=2 arcs=1 bits=10|
run arcs h
prints 0 1|

case an archive without offsets is recoded
use default g nodes=3|arcs=4
bits g.graph 011 1 1 1011 100  011 01 1  1
run recode g h --offsets delta
prints ok nodes=3 arcs=4 bits=19|
stands copied-delta h
lacks g.offsets
run check h
prints ok nodes=3 arcs=4 bits=19|
run arcs h
prints 0 1|0 2|1 1|1 2|

case each arc the other way round, and back
use copied g
run transpose g h
prints ok nodes=3 arcs=4 bits=19|
stands reversed h
stands copied g
run check h
prints ok nodes=3 arcs=4 bits=19|
run arcs h
prints 1 0|1 1|2 0|2 1|
run transpose h k
prints ok nodes=3 arcs=4 bits=19|
stands copied k
run check k
prints ok nodes=3 arcs=4 bits=19|
run arcs k
prints 0 1|0 2|1 1|1 2|

case an archive in other codes and without offsets is transposed
use default g nodes=3|arcs=4|compressionflags=OFFSETS_DELTA
bits g.graph 011 1 1 1011 100  011 01 1  1
run transpose g h
prints ok nodes=3 arcs=4 bits=19|
stands reversed h
lacks g.offsets

case a graph that can't be read is not recoded
use copied g
text g.graph
run recode g h
refuses 9 wg: g.graph: page 0 bit 0 outdegree cut|
use none h
run transpose g h
refuses 9 wg: g.graph: page 0 bit 0 outdegree cut|
use none h
bits g.graph 1  1  1
run transpose g h
refuses 9 wg: g.graph: arcs 0 of 4|
use none h

case an archive is not made of itself
use copied g
use no-job recode g g
use no-job transpose g g
use no-job union g h g
use no-job union g h h
use no-job transpose g h --window 65536
use misses h.properties recode h k
stands copied g
use none h
use none k

case two classes
use copied g
text m 0|0|1|
run quotient g m h --classes 2
prints ok nodes=2 arcs=2 bits=12|
holds-bits h.graph 011 1 1 100 100  1
holds-bits h.offsets 1 0001100 010
run check h
prints ok nodes=2 arcs=2 bits=12|
run arcs h
prints 0 0|0 1|

case the first of three classes is empty
use copied g
text m # the first class is empty|1| 1%0D|2
run quotient g m h --classes 3
prints ok nodes=3 arcs=2 bits=13|
holds-bits h.graph 1  011 1 1 100 100  1
holds-bits h.offsets 1 010 0001100 010
run check h
prints ok nodes=3 arcs=2 bits=13|
run arcs h
prints 1 1|1 2|

case the second of three classes is empty
use copied g
text m 0|0|2|
run quotient g m h --classes 3
prints ok nodes=3 arcs=2 bits=14|
holds-bits h.graph 011 1 1 100 1010  1  1
holds-bits h.offsets 1 0001101 010 010
run check h
prints ok nodes=3 arcs=2 bits=14|
run arcs h
prints 0 0|0 2|

case the last of three classes is empty
use copied g
text m 0|0|1|
run quotient g m h --classes 3
prints ok nodes=3 arcs=2 bits=13|
holds-bits h.graph 011 1 1 100 100  1  1
holds-bits h.offsets 1 0001100 010 010
run check h
prints ok nodes=3 arcs=2 bits=13|
run arcs h
prints 0 0|0 1|

case all pages in one class
use copied g
text m 0|0|0|
run quotient g m h --classes 1
prints ok nodes=1 arcs=1 bits=8|
stands loop h
run check h
prints ok nodes=1 arcs=1 bits=8|
run arcs h
prints 0 0|

case each page in its own class
use copied g
text m 0|1|2|
run quotient g m h --classes 3
prints ok nodes=3 arcs=4 bits=19|
stands copied h
run check h
prints ok nodes=3 arcs=4 bits=19|
run arcs h
prints 0 1|0 2|1 1|1 2|

case two classes without pages
use no-pages g
text m |# no number|
run quotient g m h --classes 2
prints ok nodes=2 arcs=0 bits=2|
holds-bits h.graph 1  1
holds-bits h.offsets 1 010 010
run check h
prints ok nodes=2 arcs=0 bits=2|
run arcs h
prints

case maps that are refused
use copied g
text m 0|0|2|
run quotient g m h --classes 2
refuses 15 wg: m: line 3: range|
text m 0|0 1|1|
run quotient g m h --classes 2
refuses 15 wg: m: line 2: shape|
text m 0|0||1|1|
run quotient g m h --classes 2
refuses 15 wg: m: line 5: too many|
text m 0|0
run quotient g m h --classes 2
refuses 15 wg: m: count 2 of 3|
text m 0|0|1|
run quotient g m h --classes 0
refuses 15 wg: m: line 1: range|
use misses n quotient g n h --classes 2
use no-job quotient g h.graph h --classes 2
use none h

case a graph comes before a map
use copied g
text g.graph
text m x
run quotient g m h --classes 2
refuses 9 wg: g.graph: page 0 bit 0 outdegree cut|
use none h

case a union of two archives
use copied g
use reversed h
run union g h k
begins ok nodes=3 arcs=7 bits=
save p
run check k
prints-file p
run arcs k
prints 0 1|0 2|1 0|1 1|1 2|2 0|2 1|

case a union with fewer pages
use blocks g
use loop h
run union g h k --window 0
begins ok nodes=8 arcs=8 bits=
save p
run check k
prints-file p
run arcs k
prints 0 0|0 1|0 3|0 5|0 7|1 1|1 5|1 7|

case a union with more pages
use loop g
use blocks h
run union g h k --offsets delta
begins ok nodes=8 arcs=8 bits=
save p
run check k
prints-file p
run arcs k
prints 0 0|0 1|0 3|0 5|0 7|1 1|1 5|1 7|

case a union without pages
use no-pages g
use no-pages h
run union g h k
prints ok nodes=0 arcs=0 bits=0|
stands no-pages k

case a union of an archive with itself
use copied g
run union g g k
prints ok nodes=3 arcs=4 bits=19|
stands copied k
run check k
prints ok nodes=3 arcs=4 bits=19|
run arcs k
prints 0 1|0 2|1 1|1 2|

case a first archive comes before all of a second
use copied g
bits g.offsets 1 010 0001101 00111
run union g h k
refuses 9 wg: g.offsets: page 0 length 12 stored 1|
use default h nodes=3|arcs=4|compressionflags=GAMMA
bits g.graph 1  1  1
run union g h k
refuses 9 wg: g.graph: arcs 0 of 4|
use none k

case a second archive is judged file by file
use copied g
use misses h.properties union g h k
use default h nodes=3|arcs=4|compressionflags=GAMMA
run union g h k
refuses 8 wg: h.properties: flag 1|
use default h nodes=3|arcs=4
use misses h.graph union g h k
text h.graph
run union g h k
refuses 9 wg: h.graph: page 0 bit 0 outdegree cut|
bits h.graph 1  1  1
run union g h k
refuses 9 wg: h.graph: arcs 0 of 4|
bits h.graph 011 1 1 1011 100  011 01 1  1
use misses h.offsets union g h k
bits h.offsets 1 010 0001101 00111
run union g h k
refuses 9 wg: h.offsets: page 0 length 12 stored 1|
use none k

case classes in another order
use copied g
text m 2|0|0|
run quotient g m h --classes 3
status 0
run arcs h
prints 0 0|2 0|
text m 2|1|0|
run quotient g m h --classes 3
prints ok nodes=3 arcs=4 bits=19|
stands reversed h

case a union of graphs with other numbers of pages
text a 0 1|
run build a g --nodes 2
status 0
text a 0 0|2 2|
run build a h --nodes 3
status 0
run union g h k
status 0
run arcs k
prints 0 0|0 1|2 2|
use no-pages e
run union h e k
status 0
run check k
begins ok nodes=3 arcs=2 bits=
run arcs k
prints 0 0|2 2|

case pages without arcs the other way round
use no-pages g
run transpose g h
status 0
stands no-pages h
text a
run build a g --nodes 3
status 0
run transpose g h
prints ok nodes=3 arcs=0 bits=3|

case four pages the other way round and back
text a 0 3|1 0|1 3|2 2|3 0|3 1|3 2|3 3|
run build a g --nodes 4
status 0
run transpose g h
status 0
run arcs h
prints 0 1|0 3|1 3|2 2|2 3|3 0|3 1|3 3|
run transpose h k
status 0
run arcs k
prints-file a
";
