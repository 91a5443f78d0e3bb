//! Texts of numbers: arc lists, weights, and plain texts.

/// What is read of them, and the first fault.
pub const LISTS: &str = r"
let listed text a &
let listed run build a $ --nodes 12
let listed status 0
let listed run arcs $
let unlisted text a &
let unlisted run build a $ --nodes 12

case an arc list in each spelling
use listed g
prints
use listed g 0 0|0 10|2 11|
prints 0 0|0 10|2 11|
use listed g # arcs%0D|| %09|  0%09 1 %0D|#|1 0
prints 0 1|1 0|
use listed g # 3 arcs| 1   0%0D||1 11|7%097
prints 1 0|1 11|7 7|

case the first fault of an arc list
use unlisted g 0 1 2|
refuses 7 wg: a: line 1: shape|
use unlisted g 0 1|0|
refuses 7 wg: a: line 2: shape|
use unlisted g 0 01|
refuses 7 wg: a: line 1: shape|
use unlisted g 0 18446744073709551616|
refuses 7 wg: a: line 1: shape|
use unlisted g |0 12|
refuses 7 wg: a: line 2: range|
use unlisted g 12 0|
refuses 7 wg: a: line 1: range|
use unlisted g 0 1|0 1|
refuses 7 wg: a: line 2: order|
use unlisted g 1 0|0 5|
refuses 7 wg: a: line 2: order|
use unlisted g 1 0|0 12|
refuses 7 wg: a: line 2: range|
use none g

case weights in each spelling
use one-arc g
let weighed text w &
let weighed run rank $ --rounds 1 --weights w
use weighed g # weights%0D|| %093 %0D|#|1
prints 0 0.112500000000000000000000 0.537500000000000000000000 1 2|1 0.037500000000000000000000 \
    0.887500000000000000000000 1 2|
use weighed g 0|4294967295|
prints 1 0.150000000000000000000000 1.000000000000000000000000 1 2|0 0.000000000000000000000000 \
    0.425000000000000000000000 1 2|

case the first fault of weights
use one-arc g
use weighed g 0|4294967296|
refuses 12 wg: w: line 2: range|
use weighed g 1 2|
refuses 12 wg: w: line 1: shape|
use weighed g #1|1|+2|
refuses 12 wg: w: line 3: shape|
use weighed g 1|18446744073709551616|
refuses 12 wg: w: line 2: shape|
use weighed g 1|2||3|
refuses 12 wg: w: line 4: too many|
use weighed g 1|2|x
refuses 12 wg: w: line 3: shape|
use weighed g 1|2|4294967296
refuses 12 wg: w: line 3: range|
use weighed g # none|
refuses 12 wg: w: count 0 of 2|

let imported text a &
let imported run import a $
let imported status 0
let imported run ascii $
let unread text a &
let unread run import a $

case a plain text in each spelling
use imported g 3%0D|1 2%0D|1 2%0D|%0D|
prints 3|1 2|1 2||
use imported g %203%09|%091  2|1%092 | | |%09||
prints 3|1 2|1 2||
use imported g 2|0 1|1
prints 2|0 1|1|
use imported g 2||1
prints 2||1|
use imported g 0
prints 0|
use imported g 0|||
prints 0|
use imported g 11|0 9 10|||||||||| |
prints 11|0 9 10|||||||||||

case the first fault of a plain text
use unread g |
refuses 13 wg: a: line 1: shape|
use unread g |0|
refuses 13 wg: a: line 1: shape|
use unread g 1 1|0|
refuses 13 wg: a: line 1: shape|
use unread g 68719476736 0|
refuses 13 wg: a: line 1: shape|
use unread g 01|0|
refuses 13 wg: a: line 1: shape|
use unread g 1%0D%0D|0|
refuses 13 wg: a: line 1: shape|
use unread g # pages|1|0|
refuses 13 wg: a: line 1: shape|
use unread g 18446744073709551616|
refuses 13 wg: a: line 1: shape|
use unread g 68719476735|
refuses 13 wg: a: line 2: missing|
use unread g 1|
refuses 13 wg: a: line 2: missing|
use unread g 2||
refuses 13 wg: a: line 3: missing|
use unread g 3|2 1|||
refuses 13 wg: a: line 2: order|
use unread g 3|2 3 1|||
refuses 13 wg: a: line 2: range|
use unread g 3|2 1 x|||
refuses 13 wg: a: line 2: order|
use unread g 3|2 x 3|||
refuses 13 wg: a: line 2: shape|
use unread g 3|1,2|||
refuses 13 wg: a: line 2: shape|
use unread g 3||# none||
refuses 13 wg: a: line 3: shape|
use unread g 1|18446744073709551615
refuses 13 wg: a: line 2: range|
use unread g 1|0| | 0|
refuses 13 wg: a: line 4: extra|
use unread g 1||x|
refuses 13 wg: a: line 3: extra|
use none g
";
