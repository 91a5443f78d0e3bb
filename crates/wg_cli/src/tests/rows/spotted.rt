//! Single pages of archives that are not checked.

/// What `spot` prints of a page, and what it refuses: faults of the offsets, and of the page's chain alone.
pub const SPOTTED: &str = r"
case a page before a record that is cut
use copied g
bits g.graph 011 1 1 1011 100  011 01 1  000000
run spot g 1
prints 1 1 2|
run spot g 2
refuses 9 wg: g.graph: page 2 bit 18 outdegree cut|
run spot g 3
refuses 10 wg: no page 3|
use misses h.properties spot h 3

case arcs that are promised are not counted
use default g nodes=3|arcs=9|maxrefcount=-1
bits g.graph 011 1 1 1011 100  011 01 1  1
bits g.offsets 1 0001101 00111 010
run spot g 2
prints 2|

case a record that is longer than its offsets say
use one-arc g
bits g.offsets 1 0001001 010
run spot g 1
prints 1|
run spot g 0
refuses 9 wg: g.offsets: page 0 length 9 stored 8|

case a page that alone has more arcs than are promised
use default g nodes=2|arcs=1|maxrefcount=-1
bits g.graph 011 1 1 100 100  011 01 1
bits g.offsets 1 0001100 00111
run spot g 1
refuses 9 wg: g.graph: page 1 bit 11 outdegree total|

case a copied page that stands again, in a record of another length
use default g nodes=3|arcs=5|maxrefcount=-1
bits g.graph 011 1 1 100 100  00100 01 1 1 100  1
bits g.offsets 1 0001100 00111 010
run spot g 1
refuses 9 wg: g.graph: page 1 bit 11 record twice|

case a page that may not refer
use default g nodes=2|arcs=4|maxrefcount=0
bits g.graph 011 1 1 100 100  011 01 1
bits g.offsets 1 0001100 00111
run spot g 1
refuses 9 wg: g.graph: page 1 bit 14 reference chain|

case offsets come before a page that is not there
use one-page g
bits g.offsets 1
run spot g 68719476736
refuses 9 wg: g.offsets: word 1 cut|
bits g.offsets 1 *8 00000000
run spot g 68719476736
refuses 9 wg: g.offsets: word 1 noword|
bits g.offsets 010 1
run spot g 68719476736
refuses 9 wg: g.offsets: first word|
bits g.offsets 1 *6 00000000*1 0 1 *5 00000000*1 00000001 0
run spot g 68719476736
refuses 9 wg: g.offsets: word 1 too far|
bits g.offsets 1 010  0001
run spot g 68719476736
refuses 9 wg: g.offsets: tail bit 7|

case no word is found
use default g nodes=1|arcs=0|maxrefcount=-1
bits g.graph 00000000000000000000000000000000 00000000000000000000000000000000 11111111
bits g.offsets 1 1
run spot g 0
refuses 9 wg: g.graph: page 0 bit 0 outdegree noword|

case a page before the first is named
use default g nodes=2|arcs=1|maxrefcount=-1
bits g.graph 1  010 001
bits g.offsets 1 010 00111
run spot g 1
refuses 9 wg: g.graph: page 1 bit 4 reference range|

case more is copied than there is
use default g nodes=2|arcs=3|maxrefcount=-1
bits g.graph 011 1 1 100 100  010 01 1
bits g.offsets 1 0001100 00111
run spot g 1
refuses 9 wg: g.graph: page 1 bit 17 copied copied|

case a bit stands between the records
use default g nodes=2|arcs=3|maxrefcount=-1
bits g.graph 011 1 1 100 100  1  010 01 1
bits g.offsets 1 0001101 00111
run spot g 1
refuses 9 wg: g.offsets: page 0 length 11 stored 12|

case the record begins past the last bit
use default g nodes=2|arcs=0|maxrefcount=-1
bits g.graph 1
bits g.offsets 1 0001010 010
run spot g 1
refuses 9 wg: g.graph: page 1 bit 9 outdegree cut|
";
