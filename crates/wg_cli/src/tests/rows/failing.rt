//! Reads and writes that fail, each once.

/// Reads: which file is reported, and that no other file is touched. A file takes three: one at the limit, one of all
/// its bytes, and one at its end.
pub const READS: &str = r"
# Files that stood there before, and stand there after each of so many reads that fails.
let old text h.properties old properties|
let old text h.graph old records|
let old text h.offsets old offsets|
let stays each read 1 to $ holds h.properties old properties|
let stays each read 1 to $ holds h.graph old records|
let stays each read 1 to $ holds h.offsets old offsets|

case each read of check fails once
pieces 4096
use copied g
run check g
each read 1 to 3 refuses 4 wg: read failed: g.properties|
each read 4 to 6 refuses 4 wg: read failed: g.offsets|
each read 7 to 9 refuses 4 wg: read failed: g.graph|
failing read 10
prints ok nodes=3 arcs=4 bits=19|

case a check whose second read or first write fails
use one-arc g
run check g
failing read 2
refuses 4 wg: read failed: g.properties|
failing write 1
refuses 5 wg: write failed: -|
failing write 1000
prints ok nodes=2 arcs=1 bits=10|

case each read of arcs fails once
pieces 4096
use copied g
run arcs g
each read 1 to 3 refuses 4 wg: read failed: g.properties|
each read 4 to 9 refuses 4 wg: read failed: g.graph|
failing read 10
prints 0 1|0 2|1 1|1 2|

case each read of ascii fails once
pieces 4096
use copied g
run ascii g
each read 1 to 3 refuses 4 wg: read failed: g.properties|
each read 4 to 9 refuses 4 wg: read failed: g.graph|
failing read 10
prints 3|1 2|1 2||

case each read of offsets fails once
pieces 4096
use copied g
run offsets g
each read 1 to 3 refuses 4 wg: read failed: g.properties|
each read 4 to 9 refuses 4 wg: read failed: g.graph|
failing read 10
prints 0|12|18|19|

case each read of show fails once
pieces 4096
use copied g
run show g 0
each read 1 to 3 refuses 4 wg: read failed: g.properties|
each read 4 to 6 refuses 4 wg: read failed: g.graph|
each read 7 to 9 refuses 4 wg: read failed: g.offsets|
failing read 10
prints 0 1 2|

case each read of spot fails once
pieces 4096
use copied g
run spot g 0
each read 1 to 3 refuses 4 wg: read failed: g.properties|
each read 4 to 4 refuses 4 wg: read failed: g.graph|
each read 5 to 7 refuses 4 wg: read failed: g.offsets|
each read 8 to 9 refuses 4 wg: read failed: g.graph|
failing read 10
prints 0 1 2|

case each read of rank fails once
pieces 4096
use copied g
text w 1|1|1|
run rank g --weights w
each read 1 to 3 refuses 4 wg: read failed: g.properties|
each read 4 to 6 refuses 4 wg: read failed: g.graph|
each read 7 to 9 refuses 4 wg: read failed: w|
failing read 10
status 0
reports

case each read of verify fails once
pieces 4096
use one-arc g
text w 1|1|
text c damping 850|pages 2|0.075000000000000000000000|0.075000000000000000000000|
run verify g c --weights w
each read 1 to 3 refuses 4 wg: read failed: g.properties|
each read 4 to 6 refuses 4 wg: read failed: g.graph|
each read 7 to 9 refuses 4 wg: read failed: w|
each read 10 to 12 refuses 4 wg: read failed: c|
failing read 13
prints ok pages=2 damping=850 gap=0.850000000000000000000000|

case each read of build fails once
pieces 4096
use old
text a 0 1|0 2|1 1|1 2|
run build a h --nodes 3
each read 1 to 3 refuses 4 wg: read failed: a|
use stays 3
failing read 4
prints ok nodes=3 arcs=4 bits=19|

case each read of import fails once
pieces 4096
use old
text t 3|1 2|1 2||
run import t h
each read 1 to 3 refuses 4 wg: read failed: t|
use stays 3
failing read 4
prints ok nodes=3 arcs=4 bits=19|

case each read of quotient fails once
pieces 4096
use old
use copied g
text m 0|1|2|
run quotient g m h --classes 3
each read 1 to 3 refuses 4 wg: read failed: g.properties|
each read 4 to 6 refuses 4 wg: read failed: g.graph|
each read 7 to 9 refuses 4 wg: read failed: m|
use stays 9
failing read 10
prints ok nodes=3 arcs=4 bits=19|

case each read of union fails once
pieces 4096
use old
use copied g
use copied k
run union g k h
each read 1 to 3 refuses 4 wg: read failed: g.properties|
each read 4 to 6 refuses 4 wg: read failed: g.graph|
each read 7 to 9 refuses 4 wg: read failed: g.offsets|
each read 10 to 12 refuses 4 wg: read failed: k.properties|
each read 13 to 15 refuses 4 wg: read failed: k.graph|
each read 16 to 18 refuses 4 wg: read failed: k.offsets|
use stays 18
failing read 19
prints ok nodes=3 arcs=4 bits=19|

case each read of transpose fails once
pieces 4096
use old
use reversed g
run transpose g h
each read 1 to 3 refuses 4 wg: read failed: g.properties|
each read 4 to 6 refuses 4 wg: read failed: g.graph|
use stays 6
failing read 7
prints ok nodes=3 arcs=4 bits=19|

case each read of recode fails once
pieces 4096
use old
use copied g
run recode g h
each read 1 to 3 refuses 4 wg: read failed: g.properties|
each read 4 to 6 refuses 4 wg: read failed: g.graph|
use stays 6
failing read 7
prints ok nodes=3 arcs=4 bits=19|
";

/// Writes: what went out before, a byte at a time.
pub const WRITES: &str = r"
let stops-before each write 1 to $ status 5
let stops-before each write 1 to $ reports wg: write failed: -|

case each write of check fails once
pieces 1
use copied g
run check g
use stops-before 26
each write 1 to 26 prints-only $ ok nodes=3 arcs=4 bits=19|
failing write 27
prints ok nodes=3 arcs=4 bits=19|

case each write of arcs fails once
pieces 1
use copied g
run arcs g
use stops-before 16
each write 1 to 16 prints-only $ 0 1|0 2|1 1|1 2|
failing write 17
prints 0 1|0 2|1 1|1 2|

case each write of ascii fails once
pieces 1
use copied g
run ascii g
use stops-before 11
each write 1 to 11 prints-only $ 3|1 2|1 2||
failing write 12
prints 3|1 2|1 2||

case each write of offsets fails once
pieces 1
use copied g
run offsets g
use stops-before 11
each write 1 to 11 prints-only $ 0|12|18|19|
failing write 12
prints 0|12|18|19|

case each write of show fails once
pieces 1
use copied g
run show g 1 2
use stops-before 8
each write 1 to 8 prints-only $ 1 1 2|2|
failing write 9
prints 1 1 2|2|

case each write of spot fails once
pieces 1
use copied g
run spot g 1
use stops-before 6
each write 1 to 6 prints-only $ 1 1 2|
failing write 7
prints 1 1 2|

case each write of rank fails once
pieces 1
use one-arc g
run rank g --rounds 1
use stops-before 120
each write 1 to 120 prints-only $ 1 0.075000000000000000000000 0.925000000000000000000000 1 2|\
    0 0.075000000000000000000000 0.500000000000000000000000 1 2|
failing write 121
prints 1 0.075000000000000000000000 0.925000000000000000000000 1 2|\
    0 0.075000000000000000000000 0.500000000000000000000000 1 2|

case each write of verify fails once
pieces 1
use one-arc g
text c damping 850|pages 2|0.075000000000000000000000|0.075000000000000000000000|
run verify g c
use stops-before 54
each write 1 to 54 prints-only $ ok pages=2 damping=850 gap=0.850000000000000000000000|
failing write 55
prints ok pages=2 damping=850 gap=0.850000000000000000000000|

case each write of bulk fails once
pieces 1
run bulk 0 1
use stops-before 49
each write 1 to 49 prints-only $ nodes 1|arcs 1|bits 8|referring 0|first 0|sure 1|
failing write 50
prints nodes 1|arcs 1|bits 8|referring 0|first 0|sure 1|

case each write of a report fails once, and the list is refused all the same
pieces 1
text a 0 1|0 1|
run build a g --nodes 2
each report 1 to 21 status 7
each report 1 to 21 prints-only 0
each report 1 to 21 reports-only $ wg: a: line 2: order|
each report 1 to 21 lacks g.properties
failing report 22
refuses 7 wg: a: line 2: order|
";
