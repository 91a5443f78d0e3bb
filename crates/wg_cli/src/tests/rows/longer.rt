//! Archives that are legal, and longer than they have to be, as other tools may write them.

/// What `check`, `arcs`, `ascii`, `offsets` and `show` print of them.
pub const LONGER: &str = r"
case a reference to a page without successors
# Without the reference one bit less would do.
use default g nodes=2|arcs=1
bits g.graph 1  010 01 1 1 1010
bits g.offsets 1 010 0001100
run check g
prints ok nodes=2 arcs=1 bits=12|
run arcs g
prints 1 0|
save l
use opened g
run ascii g
prints 2||0|
run offsets g
prints 0|1|12|
run show g 0 1
prints 0|1 0|

case an interval as residuals
# The successors 0 to 3 would be one interval of the least length. They are residuals: 0, folded to 0, and three times
# the next number, stored as 0.
use default g nodes=4|arcs=4
bits g.graph 00101 1 1 100 100 100 100  1  1  1
bits g.offsets 1 000010100 010 010 010
run check g
prints ok nodes=4 arcs=4 bits=22|
run arcs g
prints 0 0|0 1|0 2|0 3|
save l
use opened g
run ascii g
prints 4|0 1 2 3||||
run offsets g
prints 0|19|20|21|22|
run show g 0 1 2 3
prints 0 0 1 2 3|1|2|3|

case blocks that end early
# One block of 1 copies the first successor alone, and the second, one page on, folded to 2, is a residual.
use default g nodes=3|arcs=4
bits g.graph 011 1 1 1011 100  011 01 010 010 1 1011  1
bits g.offsets 1 0001101 000010001 010
run check g
prints ok nodes=3 arcs=4 bits=29|
run arcs g
prints 0 1|0 2|1 1|1 2|
save l
use opened g
run ascii g
prints 3|1 2|1 2||
run offsets g
prints 0|12|28|29|
run show g 0 1 2
prints 0 1 2|1 1 2|2|

case the last run as a block
# The last run is written, though it is the rest: one block of 2, where no block copies the same.
use default g nodes=3|arcs=4
bits g.graph 011 1 1 1011 100  011 01 010 011  1
bits g.offsets 1 0001101 0001100 010
run check g
prints ok nodes=3 arcs=4 bits=24|
run arcs g
prints 0 1|0 2|1 1|1 2|
save l
use opened g
run ascii g
prints 3|1 2|1 2||
run offsets g
prints 0|12|23|24|
run show g 0 1 2
prints 0 1 2|1 1 2|2|

case an interval that ends early
# Of the successors 0 to 4 the interval has 0 to 3, and 4, folded to 8, is a residual.
use default g nodes=5|arcs=5
bits g.graph 00110 1 010 1 1 0100001  1  1  1  1
bits g.offsets 1 000010011 010 010 010 010
run check g
prints ok nodes=5 arcs=5 bits=22|
run arcs g
prints 0 0|0 1|0 2|0 3|0 4|
save l
use opened g
run ascii g
prints 5|0 1 2 3 4|||||
run offsets g
prints 0|18|19|20|21|22|
run show g 0 1 2 3 4
prints 0 0 1 2 3 4|1|2|3|4|

case a reference that copies nothing
# One block of 0, and all is skipped after it; then 0, one page back, folded to 1.
use default g nodes=3|arcs=3
bits g.graph 011 1 1 1011 100  010 01 010 1 1 1010  1
bits g.offsets 1 0001101 0001111 010
run check g
prints ok nodes=3 arcs=3 bits=27|
run arcs g
prints 0 1|0 2|1 0|
save l
use opened g
run ascii g
prints 3|1 2|0||
run offsets g
prints 0|12|26|27|
run show g 0 1 2
prints 0 1 2|1 0|2|
";
