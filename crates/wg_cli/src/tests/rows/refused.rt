//! Archives that are refused.

/// What is said of a fault in a graph or its offsets, bit by bit. A graph goes up to the fault and a word or two after
/// it.
pub const REFUSED: &str = r"
case a one in the first byte's rest
use plain g nodes=2|arcs=1|compressionflags=RESIDUALS_GAMMA
bits g.graph 010 011  1  1
use bad-graph g tail bit 7

case a residual that is not there
use plain g nodes=1|arcs=1|compressionflags=RESIDUALS_GAMMA
bits g.graph 010
use bad-graph g page 0 bit 3 residual cut

case a residual past the last page
use plain g nodes=2|arcs=1|compressionflags=RESIDUALS_GAMMA
bits g.graph 010 00101
use bad-graph g page 0 bit 3 residual range

case an arc where none is promised
use plain g nodes=2|arcs=0|compressionflags=RESIDUALS_GAMMA
bits g.graph 010 011  1
use bad-graph g page 0 bit 0 outdegree total

case an arc where two are promised
use plain g nodes=2|arcs=2|compressionflags=RESIDUALS_GAMMA
bits g.graph 010 011  1
use bad-graph g arcs 1 of 2

case an outdegree that is cut, in the plainest archive
use plain g nodes=1|arcs=0|compressionflags=RESIDUALS_GAMMA
bits g.graph 0
use bad-graph g page 0 bit 0 outdegree cut

case too many zeros for gamma
use plain g nodes=1|arcs=0|compressionflags=RESIDUALS_GAMMA
bits g.graph *8 00000000*1 11111111
use bad-graph g page 0 bit 0 outdegree noword

case too many zeros for gamma, where intervals may be
use default g nodes=1|arcs=0
bits g.graph *8 00000000*1 11111111
use bad-graph g page 0 bit 0 outdegree noword

case too many zeros for nibble
use plain g nodes=2|arcs=1|compressionflags=RESIDUALS_NIBBLE
bits g.graph 010 0000  0 10000000
use bad-graph g page 0 bit 3 residual noword

case a reference where none may be, without intervals
use default g nodes=3|arcs=4|minintervallength=0|maxrefcount=0
bits g.graph 011 1 1011 100  011 01 1  1
use bad-graph g page 1 bit 14 reference chain

case a block past the copied list, without intervals
use default g nodes=3|arcs=4|minintervallength=0
bits g.graph 011 1 1011 100  011 01 010 00100
use bad-graph g page 1 bit 19 block range

case a residual that is copied too, without intervals
use default g nodes=3|arcs=5|minintervallength=0
bits g.graph 011 1 1011 100  00100 01 1 100  1
use bad-graph g page 1 bit 11 record twice

case an outdegree that is cut
use default g nodes=1|arcs=0
bits g.graph 0
use bad-graph g page 0 bit 0 outdegree cut

case a reference that is cut
use default g nodes=1|arcs=1
bits g.graph 010
use bad-graph g page 0 bit 3 reference cut

case a block past the copied list
use default g nodes=3|arcs=4
bits g.graph 011 1 1 1011 100  011 01 010 00100 1
use bad-graph g page 1 bit 20 block range

case a residual that is copied too
use default g nodes=3|arcs=5
bits g.graph 011 1 1 1011 100  00100 01 1 1 100  1
use bad-graph g page 1 bit 12 record twice

case a one after the records
use default g nodes=2|arcs=1
bits g.graph 010 1 1 1011  1  000001
use bad-graph g tail bit 15

case 128 bits after the records
use default g nodes=2|arcs=1
bits g.graph 010 1 1 1011  1  *16 00000000*1 000000
use bad-graph g tail bit 137

case fewer arcs than are promised
use default g nodes=2|arcs=2
bits g.graph 010 1 1 1011  1
use bad-graph g arcs 1 of 2

case more arcs than are promised
use default g nodes=3|arcs=3
bits g.graph 011 1 1 1011 100  011 01 1  1
use bad-graph g page 1 bit 12 outdegree total

case a reference where none may be
use default g nodes=4|arcs=6|maxrefcount=0
bits g.graph 1  011 1 1 1010 1010  011 01 1  011 001 1
use bad-graph g page 2 bit 17 reference chain

case more copied than the page has
use default g nodes=3|arcs=3
bits g.graph 011 1 1 1011 100  010 01 1  1
use bad-graph g page 1 bit 18 copied copied

case more successors than pages
use default g nodes=1|arcs=0
bits g.graph *7 00000000*1 00000010*8 00000000
use bad-graph g page 0 bit 0 outdegree range

case a reference before the first page
use default g nodes=1|arcs=1
bits g.graph 010 01
use bad-graph g page 0 bit 3 reference range

case more blocks than the copied list has pages
use default g nodes=3|arcs=4
bits g.graph 011 1 1 1011 100  011 01 00101
use bad-graph g page 1 bit 17 blockcount range

case more intervals than fit
use default g nodes=5|arcs=4
bits g.graph 00101 1 011
use bad-graph g page 0 bit 6 intervalcount range

case an interval that begins before the first page
use default g nodes=5|arcs=4
bits g.graph 00101 1 010 010
use bad-graph g page 0 bit 9 left range

case an interval that is too long
use default g nodes=5|arcs=4
bits g.graph 00101 1 010 00101 1
use bad-graph g page 0 bit 14 length range

case two to the 31 pages, of which none is there
use default g nodes=2147483648|arcs=0
text g.graph
use bad-graph g page 0 bit 0 outdegree cut

case as many pages as may be, of which none is there
use default g nodes=68719476735|arcs=0
text g.graph
use bad-graph g page 0 bit 0 outdegree cut

case a graph comes before its offsets
use default g nodes=1|arcs=0
text g.graph
text g.offsets
use bad-graph g page 0 bit 0 outdegree cut

case offsets that do not begin at 0
use one-page g
bits g.offsets 010 1
use bad-offsets g first word

case offsets without their last word
use one-page g
bits g.offsets 1
use bad-offsets g word 1 cut

case offsets with too many zeros
use one-page g
bits g.offsets 1 *8 00000000
use bad-offsets g word 1 noword

case offsets that go too far
use one-page g
bits g.offsets 1 *6 00000000*1 0 1 *5 00000000*1 00000001 0
use bad-offsets g word 1 too far

case a one after the offsets
use one-page g
bits g.offsets 1 010  0001
use bad-offsets g tail bit 7

case a first record that is longer than its offsets say
use one-arc g
bits g.offsets 1 0001001 010
use bad-offsets g page 0 length 9 stored 8

case a last record that is longer than its offsets say
use copied g
bits g.offsets 1 0001101 00111 1
use bad-offsets g page 2 length 1 stored 0

case offsets in gamma where delta is promised
use copied-delta g
bits g.offsets 1 0001101 00111 010
use bad-offsets g word 1 cut
case an outdegree takes no memory before its successors come
use default g nodes=68719476735|arcs=1099511627776|windowsize=0|minintervallength=0
bits g.graph 000000000000000000000000000000000000 1000000000000000000000000000000000000 100
bits g.offsets
run check g
refuses 9 wg: g.graph: page 0 bit 76 residual cut|

case the last place that an offset may have
use default g nodes=1|arcs=0
bits g.graph 1
bits g.offsets 1 0000000000000000000000000000000000000000000000000 10000000000000000000000000000000000000000000000001
run check g
refuses 9 wg: g.offsets: page 0 length 1 stored 562949953421312|

case no word of offsets
use no-pages g
text g.offsets
run check g
refuses 9 wg: g.offsets: word 0 cut|

";

/// What is said of properties, and if files are not there or too long.
pub const UNREAD: &str = r"
case properties in another spelling
text g.properties graphclass = class it.unimi.dsi.webgraph.BVGraph%0D|version=0%0D|nodes=9%0D|# Thu Nov 26%0D|\
    nodes: 3%0D|arcs 4%0D|windowsize=7%0D|maxrefcount=3%0D|minintervallength=4%0D|avgref=0.5%0D|\
    successoravglogdelta=0.5%0D|compressionflags=%0D|
bits g.graph 011 1 1 1011 100  011 01 1  1
bits g.offsets 1 0001101 00111 010
run check g
prints ok nodes=3 arcs=4 bits=19|

case the plainest properties in another spelling
text g.properties graphclass=class it.unimi.dsi.webgraph.BVGraph%0D|version=0%0D|nodes=9%0D|# Thu Nov 26%0D|\
    nodes: 2%0D|arcs 1%0D|windowsize=0%0D|maxrefcount=3%0D|minintervallength=0%0D|avgref=0.5%0D|\
    compressionflags=RESIDUALS_GAMMA%0D|
run check g
refuses 6 wg: missing: g.graph|
bits g.graph 010 011  1
run check g
refuses 6 wg: missing: g.offsets|
run arcs g
prints 0 1|
bits g.offsets 1 00111 010
run check g
prints ok nodes=2 arcs=1 bits=7|

case no properties
text g.properties
use bad-properties g missing graphclass

case a continued line
text g.properties nodes=1|version=0\|
use bad-properties g line 2

case one page too many
use default g nodes=68719476736|arcs=0
use bad-properties g range nodes

case an unknown code
use plain g nodes=2|arcs=1|compressionflags=RESIDUALS_GOLOMB
use bad-properties g flag 1

case an unknown code where all may be used
use copied g
use default g nodes=3|arcs=4|compressionflags=RESIDUALS_GOLOMB
use bad-properties g flag 1

case no files
run check g
refuses 6 wg: missing: g.properties|
run
refuses 2 wg: bad command line|
run check --help
refuses 2 wg: bad command line|

case an archive of another name
use copied g
run check h
refuses 6 wg: missing: h.properties|

case files that are too long
run-zeros g.properties 70368744177665 check g
refuses 11 wg: too long: g.properties|
run-zeros a 70368744177665 build a g --nodes 1
refuses 11 wg: too long: a|
run-zeros t 70368744177665 import t g
refuses 11 wg: too long: t|
run-zeros h.properties 70368744177665 check g
refuses 6 wg: missing: g.properties|
";
