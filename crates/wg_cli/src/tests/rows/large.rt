//! Archives that are larger, and go through once alone.

/// Long lists, a deep page, and a graph that is generated.
pub const LARGE: &str = r"
case a long list is printed again
pieces 4096
lists a 1000 100 10 7
run build a g --nodes 1000
begins ok nodes=1000 arcs=100000 bits=
save p
run check g
prints-file p
run arcs g
prints-file a
run show g 900
save s
run spot g 900
prints-file s

# The place of each 1024th page is kept, and the others are found from it.
case single pages before and behind those whose places are kept
pieces 4096
lists a 2500 3 400 401
let page run show g $
let page save s
let page run spot g $
let page prints-file s
run build a g --nodes 2500
status 0
use page 1023
use page 1024
use page 1025
use page 2047
use page 2048
use page 2499

# The tenth digit of page 0 becomes a 9.
case a certificate of a thousand pages
pieces 4096
lists a 1000 100 10 7
run build a g --nodes 1000
status 0
run rank g --certificate c
status 0
run verify g c
begins ok pages=1000 damping=850 gap=0.0000
change c 34 9
run verify g c
refuses 16 wg: c: page 0 falls|

# Page 256 lies 256 references from page 0, more than a page is opened through.
case a page that is too deep to be opened is shown and joined
pieces 4096
lists a 257 2 1 1
run build a g --nodes 257 --chain none
prints ok nodes=257 arcs=514 bits=1547|
run check g
prints ok nodes=257 arcs=514 bits=1547|
run show g 256
prints 256 0 1|
run spot g 256
prints 256 0 1|
text b 0 2|
run build b h --nodes 3
status 0
run union g h k
status 0
run show k 0 256
prints 0 0 1 2|256 0 1|

case words that a piece cuts
pieces 4096
lists a 100 100 10 7
let cut status 0
let cut run arcs g
let cut prints-file a
run build a g --nodes 1000 --window 0 --interval 0 --residuals gamma --outdegrees delta
use cut g
run build a g --nodes 1000 --window 0 --interval 0 --residuals delta
use cut g
run build a g --nodes 1000 --window 0 --interval 0 --residuals nibble
use cut g
run build a g --nodes 1000 --references gamma --blockcounts delta --blocks delta
use cut g

case a generated graph is the same each time
pieces 4096
run bulk 1 20000
begins nodes 20000|arcs
save p
run bulk 1 20000
prints-file p
";
