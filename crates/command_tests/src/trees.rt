// Plans by trees, and certificates of either kind.
use crate::runs::{check, ran, ran_over};
use base_words::NoMemory;
use std::alloc::Global;
use std::test::Fail;

#[test]
fn certificates_of_trees_are_judged(rt: HostRuntime) -> Result<(), Fail> {
    let cases = "
        bestcheck,t,c|positions,items,indices|trees,forward_tree,aft_tree,siblings|0|GOOD BEST
        bestcheck,t,c|positions,items,indices|PLAN,trees,forward_tree,aft_tree,siblings|0|GOOD BEST
        bestcheck,t,c|positions,items,indices|trees,forward_tree,siblings|10|REJECTED 4 0 6
        bestcheck,t,c|positions,items,indices|trees,forward_tree,aft_tree,residue,siblings|10|REJECTED 4 0 11
        bestcheck,t,c|positions,items,indices|trees,forward_tree,aft_tree,END|10|REJECTED 5 0
        bestcheck,t,c|positions,items,indices|trees_of_none,forward_tree,aft_tree,END|10|REJECTED 4 0 2";
    check(&rt, rt.alloc(), cases)
}

#[test]
fn that_nothing_fits_is_shown_by_trees(rt: HostRuntime) -> Result<(), Fail> {
    let cases = "
        bestcheck,t,c|positions,items,narrow|trees_of_none,forward_tree,aft_tree,END|0|GOOD NONE
        bestcheck,t,c|positions,items,narrow|trees,forward_tree,aft_tree,siblings|10|REJECTED 1";
    check(&rt, rt.alloc(), cases)
}

/// Two positions that do not exclude each other, a price beyond its bound, and texts that are none of trees.
#[test]
fn wrong_certificates_of_trees_are_refused(rt: HostRuntime) -> Result<(), Fail> {
    let cases = "
        bestcheck,t,c|positions,items,indices|CERTIFICATE 3,best 12 41,clique 11 12,nearer,END|10|REJECTED 2 0
        bestcheck,t,c|positions,items,indices|CERTIFICATE 3,best 12 41,low 11 10000000000001 ; ;,nearer,END|10|REJECTED 3 0
        bestcheck,t,c|positions,items,indices|CERTIFICATE 3,best 12 41,END|3|INPUT LINE 3
        bestcheck,t,c|positions,items,indices|trees,forward_tree|3|INPUT END
        bestcheck,t,c|positions,items,indices|trees,forward_tree,siblings,|3|INPUT LINE 17";
    check(&rt, rt.alloc(), cases)
}

#[test]
fn certificates_of_cuts_are_judged_as_by_check(rt: HostRuntime) -> Result<(), Fail> {
    let cases = "
        bestcheck,t,c|positions,items,indices|plan|0|GOOD BEST
        bestcheck,t,c|positions,items,narrow|narrow_none|0|GOOD NONE
        bestcheck,t,c|positions,items,indices|too_few|10|REJECTED 7
        bestcheck,t,c|positions,items,indices|narrow_none|10|REJECTED 6 11 12
        bestcheck,t,c|positions,items,indices|PLAN,CERTIFICATE 1,best 12 41|3|INPUT END
        bestcheck,t,c|positions,items,indices|items|3|INPUT START";
    check(&rt, rt.alloc(), cases)
}

/// A certificate with the start of one of the other kind before it, behind it or within it; and a start without its line feed.
#[test]
fn the_first_start_tells_the_kind(rt: HostRuntime) -> Result<(), Fail> {
    let cases = "
        bestcheck,t,c|positions,items,indices|CERTIFICATE 1,trees,forward_tree,aft_tree,siblings|3|INPUT LINE 2
        bestcheck,t,c|positions,items,indices|CERTIFICATE 3,plan|3|INPUT LINE 2
        bestcheck,t,c|positions,items,indices|plan,CERTIFICATE 3|3|INPUT LINE 12
        bestcheck,t,c|positions,items,indices|CERTIFICATE 2,CERTIFICATE 13,plan|0|GOOD BEST
        bestcheck,t,c|positions,items,indices|CERTIFICATE 1 ,CERTIFICATE,trees,forward_tree,aft_tree,siblings|0|GOOD BEST";
    check(&rt, rt.alloc(), cases)?;
    let cut = String::from_str(rt.alloc(), "CERTIFICATE 1")?;
    let got = ran_over(
        rt.alloc(),
        "bestcheck,t,c",
        "positions,items,indices",
        cut,
        100,
    )?;
    assert_eq!(rt; got.as_str(), "3 INPUT START\n");
    Ok(())
}

/// So few looks at trees decide neither task, of which the first has 4 near prefixes and the second 1.
#[test]
fn what_the_trees_do_not_decide_the_budget_may(rt: HostRuntime) -> Result<(), Fail> {
    let cases = "
        best,t,1|positions,items,indices|nothing|5|UNDECIDED 1
        best,t,3|positions,items,indices|nothing|5|UNDECIDED 3
        best,t,4|positions,items,indices|nothing|0|plan
        best,t,1|combined,loose 51 301,combined_indices|nothing|4|none";
    check(&rt, rt.alloc(), cases)
}

#[test]
fn best_refuses_what_place_refuses(rt: HostRuntime) -> Result<(), Fail> {
    let cases = "
        best|positions,items,indices|nothing|2|USAGE
        best,t,0|positions,items,indices|nothing|2|USAGE
        best,t,1000001|positions,items,indices|nothing|2|USAGE
        best,t,20000,more|positions,items,indices|nothing|2|USAGE
        bestcheck,t|positions,items,indices|nothing|2|USAGE
        best,t|positions,items,cut|nothing|3|INPUT END
        bestcheck,t,t|positions,items,indices|nothing|3|INPUT START
        best,u|positions,items,indices|nothing|6|nothing";
    check(&rt, rt.alloc(), cases)
}

/// What `bestcheck` says of the answer of `best` in these words, if the answer begins so.
fn judged(alloc: Global, words: &str, task: &str, start: &str) -> Result<Option<String>, NoMemory> {
    let answer = ran(alloc, words, task, "nothing")?;
    let Some(rest) = answer.strip_prefix(start) else {
        return Ok(None);
    };
    let (_, text) = answer.split_once(' ').unwrap_or((rest, rest));
    let certificate = String::from_str(alloc, text)?;
    Ok(Some(ran_over(alloc, "bestcheck,t,c", task, certificate, 100)?))
}

#[test]
fn an_answer_of_best_is_good(rt: HostRuntime) -> Result<(), Fail> {
    let rows = [
        (
            "best,t",
            "positions,items,indices",
            "0 PLAN\nplace AKE10001XX 12\nplace AKE10002XX 41\nindex 49.20000\ndistance 0.80000\nCERTIFICATE 3\nbest 12 41\n",
            "0 GOOD BEST\n",
        ),
        (
            "best,t",
            "positions,items,narrow",
            "4 NONE\nCERTIFICATE 3\n",
            "0 GOOD NONE\n",
        ),
        (
            "best,t,4",
            "positions,items,indices",
            "0 PLAN\nplace AKE10001XX 12\nplace AKE10002XX 41\nindex 49.20000\ndistance 0.80000\nCERTIFICATE 1\nbest 12 41\n",
            "0 GOOD BEST\n",
        ),
        (
            "best,t,1",
            "combined,loose 51 301,combined_indices",
            "4 NONE\nCERTIFICATE 1\n",
            "0 GOOD NONE\n",
        ),
    ];
    for (words, task, start, judgement) in rows {
        let said = judged(rt.alloc(), words, task, start)?;
        assert_eq!(rt; said.as_deref(), Some(judgement));
    }
    Ok(())
}
