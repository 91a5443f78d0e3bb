//! Archives that are in order.

/// What `check`, `arcs`, `ascii`, `offsets` and `show` print of the shortest that there are, and pages that are asked
/// for.
pub const ARCHIVES: &str = r"
case one arc, residuals in gamma
use plain-arc g
run check g
prints ok nodes=2 arcs=1 bits=7|
run arcs g
prints 0 1|
save l
use opened g
run ascii g
prints 2|1||
run offsets g
prints 0|6|7|
run show g 0 1
prints 0 1|1|

case one arc, residuals in zeta
use plain g nodes=2|arcs=1
bits g.graph 010 1011  1
bits g.offsets 1 0001000 010
run check g
prints ok nodes=2 arcs=1 bits=8|
run arcs g
prints 0 1|
save l
use opened g
run ascii g
prints 2|1||
run offsets g
prints 0|7|8|
run show g 0 1
prints 0 1|1|

case one arc, residuals in nibble
use plain g nodes=2|arcs=1|compressionflags=RESIDUALS_NIBBLE
bits g.graph 010 1010  1
bits g.offsets 1 0001000 010
run check g
prints ok nodes=2 arcs=1 bits=8|
run arcs g
prints 0 1|
save l
use opened g
run ascii g
prints 2|1||
run offsets g
prints 0|7|8|
run show g 0 1
prints 0 1|1|

case one arc, outdegrees and residuals in delta
use plain g nodes=2|arcs=1|compressionflags=OUTDEGREES_DELTA %7C RESIDUALS_DELTA
bits g.graph 0100 0101  1
bits g.offsets 1 0001001 010
run check g
prints ok nodes=2 arcs=1 bits=9|
run arcs g
prints 0 1|
save l
use opened g
run ascii g
prints 2|1||
run offsets g
prints 0|8|9|
run show g 0 1
prints 0 1|1|

case a copied list without intervals
use default g nodes=3|arcs=4|minintervallength=0
bits g.graph 011 1 1011 100  011 01 1  1
bits g.offsets 1 0001100 00111 010
run check g
prints ok nodes=3 arcs=4 bits=18|
run arcs g
prints 0 1|0 2|1 1|1 2|
save l
use opened g
run ascii g
prints 3|1 2|1 2||
run offsets g
prints 0|11|17|18|
run show g 0 1 2
prints 0 1 2|1 1 2|2|

case no pages
use no-pages g
run check g
prints ok nodes=0 arcs=0 bits=0|
run arcs g
prints
save l
use opened g
run ascii g
prints 0|
run offsets g
prints 0|

case one page
use one-page g
run check g
prints ok nodes=1 arcs=0 bits=1|
run arcs g
prints
save l
use opened g
run ascii g
prints 1||
run offsets g
prints 0|1|
run show g 0
prints 0|

case one page and one arc
use loop g
run check g
prints ok nodes=1 arcs=1 bits=8|
run arcs g
prints 0 0|
save l
use opened g
run ascii g
prints 1|0|
run offsets g
prints 0|8|
run show g 0
prints 0 0|

case one arc
use one-arc g
run check g
prints ok nodes=2 arcs=1 bits=10|
run arcs g
prints 0 1|
save l
use opened g
run ascii g
prints 2|1||
run offsets g
prints 0|9|10|
run show g 0 1
prints 0 1|1|

case one arc, and bytes of zeros
use default g nodes=2|arcs=1
bits g.graph 010 1 1 1011  1  *8 00000000*1 000000
bits g.offsets 1 0001010 010  *14 00000000*1 00000
run check g
prints ok nodes=2 arcs=1 bits=10|
run arcs g
prints 0 1|
save l
use opened g
run ascii g
prints 2|1||
run offsets g
prints 0|9|10|
run show g 0 1
prints 0 1|1|

case a copied list
use copied g
run check g
prints ok nodes=3 arcs=4 bits=19|
run arcs g
prints 0 1|0 2|1 1|1 2|
save l
use opened g
run ascii g
prints 3|1 2|1 2||
run offsets g
prints 0|12|18|19|
run show g 0 1 2
prints 0 1 2|1 1 2|2|

case a copied list, offsets in delta
use copied-delta g
run check g
prints ok nodes=3 arcs=4 bits=19|
run arcs g
prints 0 1|0 2|1 1|1 2|
save l
use opened g
run ascii g
prints 3|1 2|1 2||
run offsets g
prints 0|12|18|19|
run show g 0 1 2
prints 0 1 2|1 1 2|2|

case two intervals
use intervals g
run check g
prints ok nodes=6 arcs=4 bits=20|
run arcs g
prints 0 1|0 2|0 4|0 5|
save l
use opened g
run ascii g
prints 6|1 2 4 5||||||
run offsets g
prints 0|15|16|17|18|19|20|
run show g 0 1 2 3 4 5
prints 0 1 2 4 5|1|2|3|4|5|

case a list copied in part
use blocks g
run check g
prints ok nodes=8 arcs=7 bits=43|
run arcs g
prints 0 1|0 3|0 5|0 7|1 1|1 5|1 7|
save l
use opened g
run ascii g
prints 8|1 3 5 7|1 5 7|||||||
run offsets g
prints 0|23|37|38|39|40|41|42|43|
run show g 0 1 2 3 4 5 6 7
prints 0 1 3 5 7|1 1 5 7|2|3|4|5|6|7|

case a list copied twice
# A chain of one reference: page 3 refers to page 1, and not to page 2.
use chain g
run check g
prints ok nodes=4 arcs=6 bits=27|
run arcs g
prints 1 0|1 2|2 0|2 2|3 0|3 2|
save l
use opened g
run ascii g
prints 4||0 2|0 2|0 2|
run offsets g
prints 0|1|14|20|27|
run show g 0 1 2 3
prints 0|1 0 2|2 0 2|3 0 2|

case a copied list after a page without successors
use reversed g
run check g
prints ok nodes=3 arcs=4 bits=19|
run arcs g
prints 1 0|1 1|2 0|2 1|
save l
use opened g
run ascii g
prints 3||0 1|0 1|
run offsets g
prints 0|1|13|19|
run show g 0 1 2
prints 0|1 0 1|2 0 1|

case pages with all pages as successors
use default g nodes=2|arcs=4|maxrefcount=-1
bits g.graph 011 1 1 100 100  011 01 1
bits g.offsets 1 0001100 00111
run check g
prints ok nodes=2 arcs=4 bits=17|
run show g 1 0
prints 1 0 1|0 0 1|

case a record with all fields
use default g nodes=21|arcs=12
bits g.graph 00101 1 1 1011 1010 1010 1010  0001001 01 011 010 1 010 000010011 1 01 100111 *19 1
bits g.offsets 1 000011000 00000100110 *19 010
run check g
prints ok nodes=21 arcs=12 bits=79|
run arcs g
prints 0 1|0 3|0 5|0 7|1 1|1 5|1 7|1 10|1 11|1 12|1 13|1 20|
use no-pages e
run union g e k
status 0
run show k 1
prints 1 1 5 7 10 11 12 13 20|

case pages in another order, and a page twice
use copied g
run show g 1 2
prints 1 1 2|2|
run show g 2 0 -- 0
prints 2|0 1 2|0 1 2|

case pages that are not there
use copied g
run show g 1 5
refuses 10 wg: no page 5|
run show g 3 0 5
refuses 10 wg: no page 3|
run show g 18446744073709551615
refuses 10 wg: no page 18446744073709551615|
run show g 18446744073709551616
refuses 2 wg: bad command line|
run show h 5
refuses 6 wg: missing: h.properties|

# Page 0 has the successors 0 and 1, and each later page refers to the one before and copies both.
case a chain of 256 references
use plain g nodes=257|arcs=514|windowsize=1|maxrefcount=-1|compressionflags=RESIDUALS_GAMMA
bits g.graph 011 1 1 1*256 011 01 1
bits g.offsets 1 00111*256 00111
run check g
prints ok nodes=257 arcs=514 bits=1542|
run show g 0 256 255
prints 0 0 1|256 0 1|255 0 1|
use plain g nodes=257|arcs=514|windowsize=1|maxrefcount=256|compressionflags=RESIDUALS_GAMMA
run check g
prints ok nodes=257 arcs=514 bits=1542|
use plain g nodes=257|arcs=514|windowsize=1|maxrefcount=255|compressionflags=RESIDUALS_GAMMA
run check g
refuses 9 wg: g.graph: page 256 bit 1539 reference chain|
";
