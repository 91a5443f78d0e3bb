//! Certificates of two pages.

/// What is read of them, and the first fault.
pub const CERTIFICATES: &str = r"
let claimed text c &
let claimed run verify $ c

case a certificate in another spelling
use one-arc g
use claimed g damping 850|pages 2|0.075000000000000000000000%0D|0.050000000000000000000000
prints ok pages=2 damping=850 gap=0.875000000000000000000000|

case the first fault of a certificate
use one-arc g
use claimed g
refuses 16 wg: c: line 1: missing|
use claimed g |
refuses 16 wg: c: line 1: shape|
use claimed g damping  1|
refuses 16 wg: c: line 1: shape|
use claimed g damping 1|
refuses 16 wg: c: line 2: missing|
use claimed g damping 1|pages 02|
refuses 16 wg: c: line 2: shape|
use claimed g damping 1|pages 2||
refuses 16 wg: c: line 3: shape|
use claimed g damping 1|pages 2|0|
refuses 16 wg: c: line 3: shape|
use claimed g damping 1|pages 2|1.000000000000000000000001|
refuses 16 wg: c: line 3: shape|
use claimed g damping 1|pages 2|2.000000000000000000000000|
refuses 16 wg: c: line 3: shape|
use claimed g damping 1|pages 2|0,000000000000000000000001|
refuses 16 wg: c: line 3: shape|
use claimed g damping 1|pages 2|0.00000000000000000000000a|
refuses 16 wg: c: line 3: shape|
use claimed g damping 1|pages 2|0.0000000000000000000000001|
refuses 16 wg: c: line 3: shape|
use claimed g damping 1|pages 2|%20.000000000000000000000001|
refuses 16 wg: c: line 3: shape|
use claimed g damping 1|pages 2|0.0
refuses 16 wg: c: line 3: shape|
use claimed g damping 1|pages 2|1.000000000000000000000000|0.000000000000000000000001|
refuses 16 wg: c: sum|

case a certificate that other weights refuse
use one-arc g
text w 1|3|
text c damping 850|pages 2|0.075000000000000000000000|0.075000000000000000000000|
run verify g c --weights w
refuses 16 wg: c: page 0 falls|
text w 1|1|
run verify g c --weights w
prints ok pages=2 damping=850 gap=0.850000000000000000000000|
";
