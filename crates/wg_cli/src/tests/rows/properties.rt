//! Properties texts.

/// Texts that say the same, and what is reported of others. Each text has the end that is named.
pub const PROPERTIES: &str = r"
let same text $.properties #BVGraph properties|graphclass=it.unimi.dsi.webgraph.BVGraph|version=0|arcs=4|\
    windowsize=7|maxrefcount=3|minintervallength=4|zetak=3|compressionflags=|&
let same run check $
let same prints ok nodes=3 arcs=4 bits=29|
let ended text $.properties #BVGraph properties|graphclass=it.unimi.dsi.webgraph.BVGraph|version=0|arcs=4|\
    windowsize=7|maxrefcount=3|minintervallength=4|zetak=3|compressionflags=|&
let ended run check $

case a properties text in each spelling
bits g.graph 011 1 1 1011 100  011 01 010 010 1 1011  1
bits g.offsets 1 0001101 000010001 010
use same g nodes=3
use same g nodes:3
use same g nodes 3
use same g nodes%093
use same g nodes = 3
use same g nodes : 3
use same g nodes%09=%093
use same g nodes= 3
use same g nodes =3
use same g %20nodes=3
use same g %09nodes=3
use same g nodes=3%20
use same g nodes=3%09 %09
use same g nodes=3|
use same g nodes=3%0D|
use same g nodes=3%0D
use same g nodes=3 %0D|%0D||
use same g |%0D| %09|nodes=3
use same g nodes=4|nodes=3
use same g nodes=x|nodes|nodes=3
use same g nodes=3|#nodes=4
use same g nodes=3|  # nodes=4
use same g nodes=3|!nodes=4
use same g nodes=3%0D|#Thu Nov 26 19:35:09 UTC 2026%0D|
use same g nodes=3|# at its end a backslash%5C
use same g nodes=3|other=4
use same g nodes=3|NODES=4
use same g nodes=3|node=4|nodess=4
use same g nodes=3|%FF%FE%00=%FF
use same g nodes=3|=4|:4
use same g nodes=3|no des=4
use same g nodes=3|endianness=big
use same g nodes=3|a backslash before a blank\%20
use same g nodes=3|zetak=5|zetak=3
use same g nodes=3|compressionflags=OUTDEGREES_GAMMA%7CBLOCKS_GAMMA %7C REFERENCES_UNARY%7C%09BLOCK_COUNT_GAMMA %7C \
    OFFSETS_GAMMA
use same g nodes=3|compressionflags= RESIDUALS_NIBBLE %7C RESIDUALS_ZETA|graphclass class \
    it.unimi.dsi.webgraph.BVGraph

case the first fault of a properties text
use ended g
refuses 8 wg: g.properties: missing nodes|
use ended g nodes
refuses 8 wg: g.properties: number nodes|
use ended g nodes=-1
refuses 8 wg: g.properties: number nodes|
use ended g nodes=03
refuses 8 wg: g.properties: number nodes|
use ended g nodes==3
refuses 8 wg: g.properties: number nodes|
use ended g nodes=3%0D%0D|
refuses 8 wg: g.properties: number nodes|
use ended g nodes=18446744073709551616
refuses 8 wg: g.properties: number nodes|
use ended g nodes=68719476736
refuses 8 wg: g.properties: range nodes|
use ended g nodes=68719476735|arcs=1099511627777
refuses 8 wg: g.properties: range arcs|
use ended g nodes=3|arcs=4.0
refuses 8 wg: g.properties: number arcs|
use ended g nodes=3|windowsize=65536
refuses 8 wg: g.properties: range windowsize|
use ended g nodes=3|windowsize=-1
refuses 8 wg: g.properties: number windowsize|
use ended g nodes=3|maxrefcount=2147483648
refuses 8 wg: g.properties: range maxrefcount|
use ended g nodes=3|maxrefcount=-2
refuses 8 wg: g.properties: number maxrefcount|
use ended g nodes=3|maxrefcount=-1|minintervallength=2147483648
refuses 8 wg: g.properties: range minintervallength|
use ended g nodes=3|minintervallength=
refuses 8 wg: g.properties: number minintervallength|
use ended g nodes=3|zetak=0
refuses 8 wg: g.properties: range zetak|
use ended g nodes=3|zetak=32
refuses 8 wg: g.properties: range zetak|
use ended g nodes=3|zetak=
refuses 8 wg: g.properties: number zetak|
use ended g nodes=3|compressionflags=OUTDEGREES_ZETA
refuses 8 wg: g.properties: flag 1|
use ended g nodes=3|compressionflags=outdegrees_gamma
refuses 8 wg: g.properties: flag 1|
use ended g nodes=3|compressionflags=OUTDEGREES_DELTA BLOCKS_DELTA
refuses 8 wg: g.properties: flag 1|
use ended g nodes=3|compressionflags=%7C
refuses 8 wg: g.properties: flag 1|
use ended g nodes=3|compressionflags=OUTDEGREES_DELTA%7C
refuses 8 wg: g.properties: flag 2|
use ended g nodes=3|compressionflags=OFFSETS_DELTA%7CRESIDUALS_NIBBLE%7COFFSETS_UNARY%7CX
refuses 8 wg: g.properties: flag 3|
use ended g graphclass=BVGraph
refuses 8 wg: g.properties: class|
use ended g graphclass=
refuses 8 wg: g.properties: class|
use ended g graphclass=class  it.unimi.dsi.webgraph.BVGraph
refuses 8 wg: g.properties: class|
use ended g graphclass=it.unimi.dsi.webgraph.BVGraphs|version=1
refuses 8 wg: g.properties: class|
use ended g version=1|endianness=little
refuses 8 wg: g.properties: version|
use ended g version=00
refuses 8 wg: g.properties: version|
use ended g endianness=little
refuses 8 wg: g.properties: endianness|
use ended g endianness
refuses 8 wg: g.properties: endianness|
use ended g graphclass=x%5C
refuses 8 wg: g.properties: line 10|
use ended g |#\|%5C
refuses 8 wg: g.properties: line 12|
use ended g %20\%0D|x%5C
refuses 8 wg: g.properties: line 10|
use ended g %FF \|
refuses 8 wg: g.properties: line 10|
use ended g x\ |x%5C
refuses 8 wg: g.properties: line 11|

case a key that is missing
text g.properties graphclass=it.unimi.dsi.webgraph.BVGraph
run check g
refuses 8 wg: g.properties: missing version|
text g.properties version=0|graphclass=it.unimi.dsi.webgraph.BVGraph
run check g
refuses 8 wg: g.properties: missing nodes|
text g.properties version=0|graphclass=it.unimi.dsi.webgraph.BVGraph|nodes=0
run check g
refuses 8 wg: g.properties: missing arcs|
text g.properties version=0|graphclass=it.unimi.dsi.webgraph.BVGraph|nodes=0|arcs=0
run check g
refuses 8 wg: g.properties: missing windowsize|
text g.properties version=0|graphclass=it.unimi.dsi.webgraph.BVGraph|nodes=0|arcs=0|windowsize=0
run check g
refuses 8 wg: g.properties: missing maxrefcount|
text g.properties version=0|graphclass=it.unimi.dsi.webgraph.BVGraph|nodes=0|arcs=0|windowsize=0|maxrefcount=0
run check g
refuses 8 wg: g.properties: missing minintervallength|
";
