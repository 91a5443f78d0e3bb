//! Creates and appends that fail, each once.

/// What stands when an archive h is stopped.
pub const FILES: &str = r"
# The files are created in this order, and then written: the graph, the offsets, and last the properties.
let stops failing create 1
let stops refuses 5 wg: write failed: h.properties|
let stops lacks h.properties
let stops lacks h.graph
let stops lacks h.offsets
let stops failing create 2
let stops refuses 5 wg: write failed: h.graph|
let stops holds h.properties
let stops lacks h.graph
let stops lacks h.offsets
let stops failing create 3
let stops refuses 5 wg: write failed: h.offsets|
let stops holds h.properties
let stops holds h.graph
let stops lacks h.offsets
let stops failing create 4
let stops prints ok nodes=3 arcs=4 bits=19|
let stops failing append 1
let stops refuses 5 wg: write failed: h.graph|
let stops holds h.properties
let stops holds h.graph
let stops holds h.offsets
let stops failing append 2
let stops refuses 5 wg: write failed: h.offsets|
let stops holds h.properties
let stops holds-bits h.graph 011 1 1 1011 100  011 01 1  1
let stops holds h.offsets
let stops failing append 3
let stops refuses 5 wg: write failed: h.properties|
let stops holds h.properties
let stops holds-bits h.graph 011 1 1 1011 100  011 01 1  1
let stops holds-bits h.offsets 1 0001101 00111 010
let stops run check h
let stops refuses 8 wg: h.properties: missing graphclass|
let stops failing append 4
let stops prints ok nodes=3 arcs=4 bits=19|
let stops failing write 1
let stops refuses 5 wg: write failed: -|
let stops stands copied h
let stops run check h
let stops prints ok nodes=3 arcs=4 bits=19|

# The same where a byte is written at once.
let stops-at-a-byte failing append 3
let stops-at-a-byte refuses 5 wg: write failed: h.graph|
let stops-at-a-byte holds-bits h.graph 01111101 11000110
let stops-at-a-byte holds h.offsets
let stops-at-a-byte holds h.properties
let stops-at-a-byte failing append 4
let stops-at-a-byte refuses 5 wg: write failed: h.offsets|
let stops-at-a-byte holds-bits h.graph 011 1 1 1011 100  011 01 1  1
let stops-at-a-byte holds h.offsets
let stops-at-a-byte holds h.properties
let stops-at-a-byte run check h
let stops-at-a-byte refuses 8 wg: h.properties: missing graphclass|
let stops-at-a-byte failing append 8
let stops-at-a-byte refuses 5 wg: write failed: h.properties|
let stops-at-a-byte holds-bits h.graph 011 1 1 1011 100  011 01 1  1
let stops-at-a-byte holds-bits h.offsets 1 0001101 00111 010
let stops-at-a-byte holds h.properties #B
let stops-at-a-byte each write 1 to 26 status 5
let stops-at-a-byte each write 1 to 26 reports wg: write failed: -|
let stops-at-a-byte failing write 26
let stops-at-a-byte stands copied h

case each file of build stops once
pieces 4096
text a 0 1|0 2|1 1|1 2|
run build a h --nodes 3
use stops

case each file of build stops at a byte
pieces 1
text a 0 1|0 2|1 1|1 2|
run build a h --nodes 3
use stops-at-a-byte
each write 1 to 26 prints-only $ ok nodes=3 arcs=4 bits=19|

case each file of import stops once
pieces 4096
text t 3|1 2|1 2||
run import t h
use stops

case each file of import stops at a byte
pieces 1
text t 3|1 2|1 2||
run import t h
use stops-at-a-byte

case each file of recode stops once
pieces 4096
use copied g
run recode g h
use stops

case each file of recode stops at a byte
pieces 1
use copied g
run recode g h
use stops-at-a-byte

case each file of transpose stops once
pieces 4096
use reversed g
run transpose g h
use stops

case each file of transpose stops at a byte
pieces 1
use reversed g
run transpose g h
use stops-at-a-byte

case each file of quotient stops once
pieces 4096
use copied g
text m 0|1|2|
run quotient g m h --classes 3
use stops

case each file of quotient stops at a byte
pieces 1
use copied g
text m 0|1|2|
run quotient g m h --classes 3
use stops-at-a-byte

case each file of union stops once
pieces 4096
use copied g
run union g g h
use stops

case each file of union stops at a byte
pieces 1
use copied g
run union g g h
use stops-at-a-byte

case a certificate over an old file stops
pieces 32
use one-arc g
text c old
run rank g --rounds 1 --certificate c
prints 1 0.075000000000000000000000 0.925000000000000000000000 1 2|\
    0 0.075000000000000000000000 0.500000000000000000000000 1 2|
holds c damping 850|pages 2|0.075000000000000000000000|0.075000000000000000000000|
failing create 1
refuses 5 wg: write failed: c|
holds c old
failing append 1
refuses 5 wg: write failed: c|
holds c
failing append 2
refuses 5 wg: write failed: c|
holds c damping 850|pages 2|0.0750000000
failing append 3
refuses 5 wg: write failed: c|
holds c damping 850|pages 2|0.075000000000000000000000|0.075000000000000
failing append 4
prints 1 0.075000000000000000000000 0.925000000000000000000000 1 2|\
    0 0.075000000000000000000000 0.500000000000000000000000 1 2|
failing write 1
refuses 5 wg: write failed: -|
holds c damping 850|pages 2|0.075000000000000000000000|0.075000000000000000000000|
";
