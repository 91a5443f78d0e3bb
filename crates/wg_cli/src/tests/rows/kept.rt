//! Steps that rows use by a name.

/// Archives that are worked by hand, and what stands where one of them is written.
pub const KEPT: &str = r"
# The properties as they are written by default, and without references and intervals; and other lines after them.
let default text $.properties #BVGraph properties|version=0|windowsize=7|maxrefcount=3|\
    minintervallength=4|zetak=3|compressionflags=|graphclass=it.unimi.dsi.webgraph.BVGraph|&|
let plain text $.properties #BVGraph properties|version=0|windowsize=0|maxrefcount=3|\
    minintervallength=0|zetak=3|compressionflags=|graphclass=it.unimi.dsi.webgraph.BVGraph|&|

# Archives. One blank parts the words of a record, and two part the records.
let no-pages text $.properties #BVGraph properties|version=0|nodes=0|arcs=0|windowsize=7|maxrefcount=3|\
    minintervallength=4|zetak=3|compressionflags=|graphclass=it.unimi.dsi.webgraph.BVGraph|
let no-pages bits $.graph
let no-pages bits $.offsets 1
let one-page text $.properties #BVGraph properties|version=0|nodes=1|arcs=0|windowsize=7|maxrefcount=3|\
    minintervallength=4|zetak=3|compressionflags=|graphclass=it.unimi.dsi.webgraph.BVGraph|
let one-page bits $.graph 1
let one-page bits $.offsets 1 010
let loop text $.properties #BVGraph properties|version=0|nodes=1|arcs=1|windowsize=7|maxrefcount=3|\
    minintervallength=4|zetak=3|compressionflags=|graphclass=it.unimi.dsi.webgraph.BVGraph|
let loop bits $.graph 010 1 1 100
let loop bits $.offsets 1 0001001
let one-arc text $.properties #BVGraph properties|version=0|nodes=2|arcs=1|windowsize=7|maxrefcount=3|\
    minintervallength=4|zetak=3|compressionflags=|graphclass=it.unimi.dsi.webgraph.BVGraph|
let one-arc bits $.graph 010 1 1 1011  1
let one-arc bits $.offsets 1 0001010 010
let plain-arc text $.properties #BVGraph properties|version=0|nodes=2|arcs=1|windowsize=0|maxrefcount=3|\
    minintervallength=0|zetak=3|compressionflags=RESIDUALS_GAMMA|graphclass=it.unimi.dsi.webgraph.BVGraph|
let plain-arc bits $.graph 010 011  1
let plain-arc bits $.offsets 1 00111 010
# Page 1 copies the list of page 0.
let copied text $.properties #BVGraph properties|version=0|nodes=3|arcs=4|windowsize=7|maxrefcount=3|\
    minintervallength=4|zetak=3|compressionflags=|graphclass=it.unimi.dsi.webgraph.BVGraph|
let copied bits $.graph 011 1 1 1011 100  011 01 1  1
let copied bits $.offsets 1 0001101 00111 010
let copied-delta text $.properties #BVGraph properties|version=0|nodes=3|arcs=4|windowsize=7|maxrefcount=3|\
    minintervallength=4|zetak=3|compressionflags=OFFSETS_DELTA|graphclass=it.unimi.dsi.webgraph.BVGraph|
let copied-delta bits $.graph 011 1 1 1011 100  011 01 1  1
let copied-delta bits $.offsets 1 00100101 01111 0100
# The same with each arc the other way round.
let reversed text $.properties #BVGraph properties|version=0|nodes=3|arcs=4|windowsize=7|maxrefcount=3|\
    minintervallength=4|zetak=3|compressionflags=|graphclass=it.unimi.dsi.webgraph.BVGraph|
let reversed bits $.graph 1  011 1 1 1010 100  011 01 1
let reversed bits $.offsets 1 010 0001101 00111
let intervals text $.properties #BVGraph properties|version=0|nodes=6|arcs=4|windowsize=7|maxrefcount=3|\
    minintervallength=2|zetak=3|compressionflags=|graphclass=it.unimi.dsi.webgraph.BVGraph|
let intervals bits $.graph 00101 1 011 011 1 1 1  1  1  1  1  1
let intervals bits $.offsets 1 000010000 010 010 010 010 010
# Page 1 copies page 0 but for one page.
let blocks text $.properties #BVGraph properties|version=0|nodes=8|arcs=7|windowsize=7|maxrefcount=3|\
    minintervallength=4|zetak=3|compressionflags=|graphclass=it.unimi.dsi.webgraph.BVGraph|
let blocks bits $.graph 00101 1 1 1011 1010 1010 1010  00100 01 011 010 1  1  1  1  1  1  1
let blocks bits $.offsets 1 000011000 0001111 010 010 010 010 010 010
# Pages 2 and 3 copy page 1, since page 3 may not refer to page 2, which refers on.
let chain text $.properties #BVGraph properties|version=0|nodes=4|arcs=6|windowsize=7|maxrefcount=1|\
    minintervallength=4|zetak=3|compressionflags=|graphclass=it.unimi.dsi.webgraph.BVGraph|
let chain bits $.graph 1  011 1 1 1010 1010  011 01 1  011 001 1
let chain bits $.offsets 1 010 0001110 00111 0001000

# None of an archive's files, and all of them, with nothing in them.
let none lacks $.properties
let none lacks $.graph
let none lacks $.offsets
let begun holds $.properties
let begun holds $.graph
let begun holds $.offsets

# What is said of a file of an archive: by a check, and where a page is asked for that is not there.
let bad-properties run check $
let bad-properties refuses 8 wg: $.properties: &|
let bad-properties run show $ 68719476736
let bad-properties refuses 8 wg: $.properties: &|
let bad-graph run check $
let bad-graph refuses 9 wg: $.graph: &|
let bad-graph run show $ 68719476736
let bad-graph refuses 9 wg: $.graph: &|
let bad-offsets run check $
let bad-offsets refuses 9 wg: $.offsets: &|
let bad-offsets run show $ 68719476736
let bad-offsets refuses 9 wg: $.offsets: &|

# A union with no pages opens each page, and gives its successors one by one.
let opened text e.properties #BVGraph properties|version=0|nodes=0|arcs=0|windowsize=7|maxrefcount=3|\
    minintervallength=4|zetak=3|compressionflags=|graphclass=it.unimi.dsi.webgraph.BVGraph|
let opened text e.graph
let opened bits e.offsets 1
let opened run union $ e k
let opened status 0
let opened run arcs k
let opened prints-file l

# Words that are no job, and a job that misses a file.
let no-job run $ &
let no-job refuses 2 wg: bad command line|
let misses run &
let misses refuses 6 wg: missing: $|
";
