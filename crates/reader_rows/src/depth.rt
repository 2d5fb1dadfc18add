// The maximum depth of open constructs, and the length of a source without depth.

use crate::built::built;
use crate::grammar::gives;
use crate::lines::{first_line, wanted};
use std::alloc::Global;

// The refusal with one part more than fits, and the parts with the maximum number of repetitions at which nothing is
// too deep.
const LIMITS: &str = "TooDeep 72: int f() |{|64||}|
TooDeep 77: int f() { a = |(|63|1|)|; }
TooDeep 141: int f() { a = |a[|63|1|]|; }
TooDeep 140: int f() { a = |- |63|1||; }
TooDeep 77: int f() { a = |!|63|1||; }
TooDeep 141: int f() { a = |1?|63|1|:1|; }
TooDeep 267: int f() { a = |1?1:|63|1||; }
TooDeep 322: int f() { |if(1)|62|;|| }
TooDeep 511: int f() { |while(1)|62|;|| }
TooDeep 447: int f() { |for(;;)|62|;|| }
TooDeep 694: int f() { |if(1);else |62|;|| }
TooDeep 77: int f() { a = |!|63|1?2:3||; }";

// Long sources that never have much open, and sources that have too much open or fit no rule.
const LONG: &str = "tree 1: int f() { a = 1|+1|500000|||; }
tree 1: int f() { |a=1;|100000|||}
tree 1: int f(int|,int|65000|||);
Unexpected 0: |(|1048576|||
TooDeep 76: int f() { a =|(|1048000|||
TooDeep 139: int f() { a =|- |524000|||
TooDeep 76: int f() { a =|!|1048000|||
TooDeep 71: int f()|{|1048000|||
TooDeep 322: int f() { |if(1)|200000|||";

// A hundred constructs of each kind, one after another.
const CLOSED: &str = "tree 1: int f() { |{}|100||| }
tree 1: int f() { a = 0|+(1)|100|||; }
tree 1: int f() { a = 0|+a[1]|100|||; }
tree 1: int f() { a = 0|+-1|100|||; }
tree 1: int f() { a = 0|+!1|100|||; }
tree 1: int f() { a = 0|+(1?2:3)|100|||; }
tree 1: int f() { |a = 1?2:3;|100||| }
tree 1: int f() { |if(1);|100||| }
tree 1: int f() { |if(1);else;|100||| }
tree 1: int f() { |while(1);|100||| }
tree 1: int f() { |for(;;);|100||| }";

// Checks whether the grammar gives this answer for the source of the parts.
fn built_gives(alloc: Global, parts: &str, more: usize, want: &str) -> bool {
    match built(alloc, parts, more) {
        Ok(source) => {
            let same = gives(alloc, &source, want);
            drop(source);
            same
        }
        Err(_) => false,
    }
}

#[test]
fn the_limit_of_each_construct(rt: HostRuntime) {
    let mut rows = LIMITS;
    for _ in 0..12 {
        let (row, after) = first_line(rows);
        let (want, parts) = wanted(row);
        let fits = built_gives(rt.alloc(), parts, 0, "tree 1");
        assert!(rt; fits && built_gives(rt.alloc(), parts, 1, want), "{row}");
        rows = after;
    }
    assert!(rt; rows.is_empty());
    // the 65th parenthesis is unexpected after a number
    let both = "int f() { a = |(|63|1(|)|; }";
    assert!(rt; built_gives(rt.alloc(), both, 0, "Unexpected 78"));
}

#[test]
fn long_sources(rt: HostRuntime) {
    let mut rows = LONG;
    for _ in 0..9 {
        let (row, after) = first_line(rows);
        let (want, parts) = wanted(row);
        assert!(rt; built_gives(rt.alloc(), parts, 0, want), "{row}");
        rows = after;
    }
    assert!(rt; rows.is_empty());
}

#[test]
fn constructs_are_closed(rt: HostRuntime) {
    let mut rows = CLOSED;
    for _ in 0..11 {
        let (row, after) = first_line(rows);
        let (want, parts) = wanted(row);
        assert!(rt; built_gives(rt.alloc(), parts, 0, want), "{row}");
        rows = after;
    }
    assert!(rt; rows.is_empty());
}
