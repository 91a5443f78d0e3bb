//! Words that ask for a job, and words that do not.

/// Each over no files: a job misses its first input, and if there is no job the words are refused.
pub const WORDS: &str = r"
case words that are a job
use misses g.properties check g
use misses g.properties arcs g
use misses g.properties offsets g
use misses data/a.b.properties check data/a.b
use misses ./g.properties arcs ./g
use misses ../g.properties offsets ../g
use misses -.properties check -
use misses g.properties arcs -- g
use misses -g.properties offsets -- -g
use misses --help.properties arcs -- --help
use misses g.graph.properties check g.graph
use misses check.properties check check
use misses g.properties show g 0 18446744073709551615
use misses g.properties rank g
use misses g.properties rank g --rounds 10000 --damping 999 --top 68719476735
use misses a build a g --nodes 1
use misses g.properties recode g h
use misses g.properties transpose --chain none g h --offsets delta

case words that are no job
use no-job
use no-job check
use no-job arcs
use no-job offsets
use no-job show g
use no-job check g h
use no-job arcs g g
use no-job offsets g 1
use no-job check ''
use no-job check -g
use no-job arcs --all g
use no-job offsets g --offsets delta
use no-job rank g --damping 1000
use no-job rank g --rounds 1 --rounds 2
use no-job check --help
use no-job --help
use no-job help arcs
use no-job --version
use no-job -- check g
use no-job g check
use no-job Check g
use no-job arcs g h
use no-job ascii
use no-job show
use no-job show g --
use no-job show g x
use no-job show g 1 02
use no-job show g 00
use no-job show g +1
use no-job show g 1a
use no-job show g ''
use no-job show g 100000000000000000000
use no-job show g 1 -1
use no-job show g -
use no-job show g 1 18446744073709551616
use no-job show '' 1
use no-job show g --page 1
use no-job spot g
use no-job spot g 1 2
use no-job spot g 18446744073709551616
use no-job spot '' 1
use no-job rank
use no-job rank g --rounds
use no-job rank g --rounds 10001
use no-job rank g --top 68719476736
use no-job rank g --rounds 05
use no-job rank g --rounds x
use no-job rank g --rounds -
use no-job rank g --rounds=
use no-job rank g --top -1
use no-job rank g --weights=
use no-job rank g --certificate=
use no-job rank g --certificate g.properties
use no-job rank g --certificate g.graph
use no-job rank g --certificate g.offsets
use no-job rank g --weights w --certificate w
use no-job verify g
use no-job verify g ''
use no-job verify g c d
use no-job verify g c --weights=
use no-job verify g c --certificate d
use no-job check g --rounds 5
use no-job check g --bogus
use no-job help
use no-job chec g
use no-job g
use no-job bulk 1
use no-job bulk 1 16777217
use no-job bulk 18446744073709551616 1
use no-job bulk 1 2 3
use no-job bulk 1 01
use no-job build a b
use no-job build a --nodes 1
use no-job build a b c --nodes 1
use no-job build a b --nodes x
use no-job build a b --nodes 68719476736
use no-job build a b --nodes 1 --nodes 1
use no-job build a b --nodes 1 --window 65536
use no-job build a b --nodes 1 --window none
use no-job build a b --nodes 1 --chain 2147483648
use no-job build a b --nodes 1 --interval 2147483648
use no-job build a b --nodes 1 --zeta 0
use no-job build a b --nodes 1 --zeta 32
use no-job build a b --nodes 1 --outdegrees unary
use no-job build a b --nodes 1 --references zeta
use no-job build a b --nodes 1 --blockcounts zeta
use no-job build a b --nodes 1 --residuals unary
use no-job build a b --nodes 1 --offsets nibble
use no-job build g.properties g --nodes 1
use no-job build g.offsets g --nodes 1
use no-job build '' b --nodes 1
use no-job build a '' --nodes 1
use no-job import a
use no-job import a b --nodes 1
use no-job import a b --offsets nibble
use no-job import g.graph g
use no-job import '' b
use no-job check a --window 1
use no-job quotient g m h
use no-job quotient g h --classes 1
use no-job quotient g m h i --classes 1
use no-job quotient g m h --classes 68719476736
use no-job quotient g m h --classes x
use no-job quotient g m h --classes 1 --classes 1
use no-job quotient g m h --classes 1 --nodes 1
use no-job quotient g m h --classes 1 --offsets nibble
use no-job quotient g m g --classes 1
use no-job quotient g h.properties h --classes 1
use no-job quotient g h.graph h --classes 1
use no-job quotient g h.offsets h --classes 1
use no-job quotient g '' h --classes 1
use no-job quotient '' m h --classes 1
use no-job transpose g g
use no-job recode --window 1 -- g g
use no-job recode
use no-job recode g
use no-job transpose g
use no-job recode g --window 1
use no-job recode g h i
use no-job transpose g h i
use no-job recode g h --nodes 1
use no-job transpose g h --nodes 1
use no-job recode g h --rounds 1
use no-job recode '' h
use no-job recode g ''
use no-job union g h
use no-job union g h k l
use no-job union g h g
use no-job union g h h
use no-job union g '' k
use no-job union g h k --nodes 1
use no-job transpose '' h
use no-job transpose g ''
use no-job recode g h --window 65536
use no-job transpose g h --chain x
use no-job recode g h --residuals unary
use no-job transpose g h --offsets
use no-job transpose g h --window 1 --window 1

case the name of an archive
use misses data/a.b.properties check data/a.b
use misses -.properties check -
use misses -g.properties check -- -g
use misses g.properties offsets -- g
use misses -g.properties show -- -g 18446744073709551615
use misses -g.properties spot -- -g 18446744073709551615
use misses -.properties rank -
use misses -g.properties rank --top 68719476735 --rounds 10000 -- -g
use misses g.graph.properties verify --weights c g.graph c
use misses g.properties quotient g m h --classes 68719476735
use misses data/a.b build data/a.b g --nodes 68719476735

case the pages of a line
use copied g
run show g 1 -- 2
prints 1 1 2|2|
run show g 2 0 2
prints 2|0 1 2|2|
run show g 1
prints 1 1 2|
run spot g 18446744073709551615
refuses 10 wg: no page 18446744073709551615|

case the numbers of a ranking
use loop g
run rank g --rounds=5
prints 0 0.556294687500000000000000 1.000000000000000000000000 1 1|
run rank g --rounds 1 --damping 999
prints 0 0.001000000000000000000000 1.000000000000000000000000 1 1|

case a ranking if nothing is told
text a
run build a g --nodes 12
status 0
run rank g
save x
run rank g --rounds 100 --damping 850 --top 10
prints-file x
run rank --top 3 g --rounds 0
prints 0 0.000000000000000000000000 1.000000000000000000000000 1 12|1 0.000000000000000000000000 \
    1.000000000000000000000000 1 12|2 0.000000000000000000000000 1.000000000000000000000000 1 12|

case the files of a ranking
use loop g
run rank g --weights g.graph --certificate g
refuses 12 wg: g.graph: line 1: shape|
lacks g
text w 1|
run rank g --rounds 0 --weights w --certificate c --top 3
prints 0 0.000000000000000000000000 1.000000000000000000000000 1 1|
holds c damping 850|pages 1|0.000000000000000000000000|

case the layout of an archive that is built
text a
text -a
text g.arcs
run build g.arcs g --nodes 1
prints ok nodes=1 arcs=0 bits=1|
stands one-page g
run build --window 0 --chain=0 --interval 2147483647 --zeta 31 --outdegrees delta --references gamma --blockcounts \
    unary --blocks delta --residuals nibble --offsets delta --nodes=0 a b
status 0
holds b.properties #BVGraph properties|version=0|nodes=0|arcs=0|windowsize=0|maxrefcount=0|\
    minintervallength=2147483647|zetak=31|compressionflags=OUTDEGREES_DELTA %7C BLOCKS_DELTA %7C REFERENCES_GAMMA \
    %7C BLOCK_COUNT_UNARY %7C RESIDUALS_NIBBLE %7C OFFSETS_DELTA|graphclass=it.unimi.dsi.webgraph.BVGraph|
run build a b --nodes 0 --chain none --zeta 5 --references delta --blockcounts delta
status 0
holds b.properties #BVGraph properties|version=0|nodes=0|arcs=0|windowsize=7|maxrefcount=-1|minintervallength=4|\
    zetak=5|compressionflags=REFERENCES_DELTA %7C BLOCK_COUNT_DELTA|graphclass=it.unimi.dsi.webgraph.BVGraph|
run build --residuals delta --nodes 3 --chain 2147483647 --window 65535 -- -a g
status 0
holds g.properties #BVGraph properties|version=0|nodes=3|arcs=0|windowsize=65535|maxrefcount=2147483647|\
    minintervallength=4|zetak=3|compressionflags=RESIDUALS_DELTA|graphclass=it.unimi.dsi.webgraph.BVGraph|
text g.txt 0|
run import g.txt g --zeta 5
status 0
holds g.properties #BVGraph properties|version=0|nodes=0|arcs=0|windowsize=7|maxrefcount=3|minintervallength=4|\
    zetak=5|compressionflags=|graphclass=it.unimi.dsi.webgraph.BVGraph|

case the layout of an archive that is made of others
use no-pages -g
use no-pages g
use no-pages a
text g %20|
run quotient --classes=0 --window 0 -- -g g h.txt
status 0
holds h.txt.properties #BVGraph properties|version=0|nodes=0|arcs=0|windowsize=0|maxrefcount=3|minintervallength=4|\
    zetak=3|compressionflags=|graphclass=it.unimi.dsi.webgraph.BVGraph|
run recode --window 0 --chain=none --interval 0 --zeta 1 --outdegrees delta --references delta --blockcounts delta \
    --blocks delta --residuals zeta --offsets delta -- -g -
status 0
holds -.properties #BVGraph properties|version=0|nodes=0|arcs=0|windowsize=0|maxrefcount=-1|minintervallength=0|\
    zetak=1|compressionflags=OUTDEGREES_DELTA %7C BLOCKS_DELTA %7C REFERENCES_DELTA %7C BLOCK_COUNT_DELTA %7C \
    OFFSETS_DELTA|graphclass=it.unimi.dsi.webgraph.BVGraph|
run transpose a --residuals gamma a.b --window 65535
status 0
holds a.b.properties #BVGraph properties|version=0|nodes=0|arcs=0|windowsize=65535|maxrefcount=3|\
    minintervallength=4|zetak=3|compressionflags=RESIDUALS_GAMMA|graphclass=it.unimi.dsi.webgraph.BVGraph|
run recode g ./g
status 0
stands no-pages ./g
run union g a k --window 1
status 0
holds k.properties #BVGraph properties|version=0|nodes=0|arcs=0|windowsize=1|maxrefcount=3|minintervallength=4|\
    zetak=3|compressionflags=|graphclass=it.unimi.dsi.webgraph.BVGraph|
run union -- g g -
status 0
stands no-pages -

case the greatest seed of a generated graph
run bulk 18446744073709551615 0
prints nodes 0|arcs 0|bits 0|referring 0|first -|sure 0|
";
