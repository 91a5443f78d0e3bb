//! Archives that are built of arc lists and of plain texts.

/// What `build` and `import` write, and the lists and texts that they refuse.
pub const BUILT: &str = r"
case one page is built
text a
run build a g --nodes 1
prints ok nodes=1 arcs=0 bits=1|
stands one-page g
run check g
prints ok nodes=1 arcs=0 bits=1|
run arcs g
prints

case one arc is built
text a 0 1|
run build a g --nodes 2
prints ok nodes=2 arcs=1 bits=10|
stands one-arc g
run check g
prints ok nodes=2 arcs=1 bits=10|
run arcs g
prints-file a

case a copied list is built
text a 0 1|0 2|1 1|1 2|
run build a g --nodes 3
prints ok nodes=3 arcs=4 bits=19|
stands copied g
run check g
prints ok nodes=3 arcs=4 bits=19|
run arcs g
prints-file a

case intervals of the least length are built
text a 0 1|0 2|0 4|0 5|
run build --interval 2 a g --nodes 6
prints ok nodes=6 arcs=4 bits=20|
stands intervals g
run check g
prints ok nodes=6 arcs=4 bits=20|
run arcs g
prints-file a

case a page with itself as its one successor is built
text a 0 0|
run build a g --nodes 1
prints ok nodes=1 arcs=1 bits=8|
stands loop g
run check g
prints ok nodes=1 arcs=1 bits=8|
run arcs g
prints-file a

case no pages are built
text a
run build a g --nodes 0
prints ok nodes=0 arcs=0 bits=0|
stands no-pages g
run check g
prints ok nodes=0 arcs=0 bits=0|
run arcs g
prints
run rank g
prints

case chains of one reference are built
text a 1 0|1 2|2 0|2 2|3 0|3 2|
run build --chain 1 a g --nodes 4
prints ok nodes=4 arcs=6 bits=27|
stands chain g
run check g
prints ok nodes=4 arcs=6 bits=27|
run arcs g
prints-file a

case an arc is built in the plainest way
text a 0 1|
run build a g --nodes 2 --window 0 --interval 0 --residuals gamma
prints ok nodes=2 arcs=1 bits=7|
stands plain-arc g
run check g
prints ok nodes=2 arcs=1 bits=7|
run arcs g
prints-file a

case a list that is copied in part is built
text a 0 1|0 3|0 5|0 7|1 1|1 5|1 7|
run build a g --nodes 8
prints ok nodes=8 arcs=7 bits=43|
stands blocks g
run check g
prints ok nodes=8 arcs=7 bits=43|
run arcs g
prints-file a

case offsets in delta are built
text a 0 1|0 2|1 1|1 2|
run build a g --nodes 3 --offsets delta
prints ok nodes=3 arcs=4 bits=19|
stands copied-delta g
run check g
prints ok nodes=3 arcs=4 bits=19|
run arcs g
prints-file a

case an arc list with an arc twice
text a 0 1|0 1|
run build a g --nodes 2
refuses 7 wg: a: line 2: order|
use none g

case an arc list with a page that is named again after another
text a 0 1|1 0|0 2|
run build a g --nodes 3
refuses 7 wg: a: line 3: order|
use none g

case an arc list whose last line has no end
text a 0 1|1 0
run build a g --nodes 2
status 0
run arcs g
prints 0 1|1 0|

case an arc past the last page, after a comment
text a # arcs|0 2|
run build a g --nodes 2
refuses 7 wg: a: line 2: range|
use none g

case a line of one number, after a line that ends in a blank
text a 0 1 |1|
run build a g --nodes 2
refuses 7 wg: a: line 2: shape|
use none g

case no memory is taken by a number of pages
text a 0 x|
run build a g --nodes 68719476735
refuses 7 wg: a: line 1: shape|
use none g

case an arc list that is not there
text a 0 1|
run build b g --nodes 2
refuses 6 wg: missing: b|
use none g

case numbers of pages that are none
text a 0 1|
use no-job build a g --nodes x
use no-job build a g
use no-job import a g --nodes 0
use none g

case a text under a name of the archive
text g.graph 0 1|
use no-job build g.graph g --nodes 1
holds g.graph 0 1|
text g.offsets 0|
use no-job import g.offsets g
holds g.offsets 0|
lacks g.properties

case a printed text is imported
use copied g
run ascii g
prints 3|1 2|1 2||
save t
run import t h
prints ok nodes=3 arcs=4 bits=19|
stands copied h
run check h
prints ok nodes=3 arcs=4 bits=19|
run arcs h
prints 0 1|0 2|1 1|1 2|

case a text in another spelling is imported
text o  3%0D|1%092 |  1 2%0D| ||
run import o h
prints ok nodes=3 arcs=4 bits=19|
stands copied h
run check h
prints ok nodes=3 arcs=4 bits=19|
run arcs h
prints 0 1|0 2|1 1|1 2|

case an empty text
text a
run import a g
refuses 13 wg: a: line 1: missing|
use none g

case a text without its last page
text a 2|1|
run import a g
refuses 13 wg: a: line 3: missing|
use none g

case a successor twice
text a 1|0 0|
run import a g
refuses 13 wg: a: line 2: order|
use none g

case two numbers of pages
text a 2 0|
run import a g
refuses 13 wg: a: line 1: shape|
use none g

case a text of one page too many
text a 68719476736|
run import a g
refuses 13 wg: a: line 1: range|
use none g

case no memory is taken by a number of pages that a text claims
text a 68719476735|
run import a g
refuses 13 wg: a: line 2: missing|
use none g

case a line past the last page
text a 1|||0|
run import a g
refuses 13 wg: a: line 4: extra|
use none g

case a text that is not there
text a 0|
run import b g
refuses 6 wg: missing: b|
use none g
";
