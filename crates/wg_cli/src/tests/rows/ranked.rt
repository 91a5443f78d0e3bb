//! Rankings, and certificates of them.

/// What `rank`, `verify` and `bulk` print and write, worked by hand.
pub const RANKED: &str = r"
case one arc after no round and after one
use one-arc g
run rank g --rounds 0 --damping 0
prints 0 0.000000000000000000000000 1.000000000000000000000000 1 2|\
    1 0.000000000000000000000000 1.000000000000000000000000 1 2|
run rank g --rounds 1 --damping 0
prints 0 0.500000000000000000000000 0.500000000000000000000000 1 2|\
    1 0.500000000000000000000000 0.500000000000000000000000 1 2|
run rank g --rounds 1
prints 1 0.075000000000000000000000 0.925000000000000000000000 1 2|\
    0 0.075000000000000000000000 0.500000000000000000000000 1 2|
run rank g --rounds 1 --top 1
prints 1 0.075000000000000000000000 0.925000000000000000000000 1 2|
run rank g --top 0
prints

case intervals that touch, and a page that is surely first
use one-arc g
run rank --damping 500 --rounds 2 g
prints 1 0.437500000000000000000000 0.687500000000000000000000 1 2|\
    0 0.312500000000000000000000 0.437500000000000000000000 1 2|
run rank --damping 500 --rounds 3 g
prints 1 0.515625000000000000000000 0.640625000000000000000000 1 1|\
    0 0.359375000000000000000000 0.421875000000000000000000 2 2|

case one page is ranked
use one-page g
run rank g --rounds 1
prints 0 0.150000000000000000000000 1.000000000000000000000000 1 1|
run rank g --rounds 0
prints 0 0.000000000000000000000000 1.000000000000000000000000 1 1|

case a page with itself as its one successor is ranked
use loop g
run rank g --rounds 0
prints 0 0.000000000000000000000000 1.000000000000000000000000 1 1|

case no pages are ranked
use no-pages g
run rank g
prints

case a ranking by weights
use one-arc g
text w 3|# a comment|1|
run rank g --rounds 1 --weights w
prints 0 0.112500000000000000000000 0.537500000000000000000000 1 2|\
    1 0.037500000000000000000000 0.887500000000000000000000 1 2|
text w 1|1
run rank g --rounds 1 --weights w
prints 1 0.075000000000000000000000 0.925000000000000000000000 1 2|\
    0 0.075000000000000000000000 0.500000000000000000000000 1 2|

case weights that are refused
use one-arc g
text w 0|0|
run rank g --rounds 1 --weights w
refuses 12 wg: w: sum zero|
text w 1|
run rank g --rounds 1 --weights w
refuses 12 wg: w: count 1 of 2|
text w 1|1 1|
run rank g --rounds 1 --weights w
refuses 12 wg: w: line 2: shape|
text w 4294967296|
run rank g --rounds 1 --weights w
refuses 12 wg: w: line 1: range|
text w 1|2||3|
run rank g --rounds 1 --weights w
refuses 12 wg: w: line 4: too many|
use misses v rank g --rounds 1 --weights v

case a certificate is written and verified
use one-arc g
text c old
run rank g --rounds 1 --certificate c
prints 1 0.075000000000000000000000 0.925000000000000000000000 1 2|\
    0 0.075000000000000000000000 0.500000000000000000000000 1 2|
holds c damping 850|pages 2|0.075000000000000000000000|0.075000000000000000000000|
run verify g c
prints ok pages=2 damping=850 gap=0.850000000000000000000000|

case a certificate by weights
use one-arc g
text w 3|1|
run rank g --rounds 1 --weights w --certificate c
status 0
holds c damping 850|pages 2|0.112500000000000000000000|0.037500000000000000000000|
run verify g c --weights w
prints ok pages=2 damping=850 gap=0.850000000000000000000000|
run verify g c
refuses 16 wg: c: page 0 falls|
text w 0|0|
run verify g c --weights w
refuses 12 wg: w: sum zero|

case a certificate of no pages
use no-pages g
text c damping 0|pages 0|
run verify g c
prints ok pages=0 damping=0 gap=1.000000000000000000000000|

case certificates that are refused
use one-arc g
use misses c verify g c
text c damping 850|pages 2|0.500000000000000000000000|0.075000000000000000000000|
run verify g c
refuses 16 wg: c: page 0 falls|
text c damping 850|pages 2|0.600000000000000000000000|0.600000000000000000000000|
run verify g c
refuses 16 wg: c: sum|
text c damping 1000|pages 2|
run verify g c
refuses 16 wg: c: line 1: shape|
text c damping 850|pages 3|
run verify g c
refuses 16 wg: c: line 2: pages|
text c damping 850|pages 2|0.075000000000000000000000|
run verify g c
refuses 16 wg: c: line 4: missing|
text c damping 0|pages 2|0.000000000000000000000000|0.000000000000000000000000||
run verify g c
refuses 16 wg: c: line 5: extra|

case generated graphs of one page and of none
run bulk 0 1
prints nodes 1|arcs 1|bits 8|referring 0|first 0|sure 1|
run bulk 7 0
prints nodes 0|arcs 0|bits 0|referring 0|first -|sure 0|

case the parts of a bound are rounded one by one
use default g nodes=7|arcs=1
bits g.graph 010 1 1 1011  1 1 1 1 1 1
run rank g --rounds 1 --top 2
prints 1 0.021428571428571428571428 0.871428571428571428571432 1 7|0 0.021428571428571428571428 \
    0.750000000000000000000001 1 7|

case the greatest weights
use one-arc g
text w 4294967295|4294967295|
run rank g --rounds 1 --damping 0 --weights w
prints 0 0.500000000000000000000000 0.500000000000000000000000 1 2|1 0.500000000000000000000000 \
    0.500000000000000000000000 1 2|

case generated graphs have as many arcs as another program counts
run bulk 3 12
begins nodes 12|arcs 41|
run bulk 3 500
begins nodes 500|arcs 5169|
";
