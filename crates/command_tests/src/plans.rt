// Plans, and certificates of plans.
use crate::runs::check;
use std::test::Fail;

#[test]
fn worked_tasks_are_answered(rt: HostRuntime) -> Result<(), Fail> {
    let cases = "
        place,t|positions,items,indices|nothing|0|plan
        place,t,4|positions,items,indices|nothing|0|plan
        place,t,4|positions,other_items,indices|nothing|0|plan
        place,t,3|positions,items,indices|nothing|5|BUDGET 3
        place,t,1|positions,items,indices|nothing|5|BUDGET 1
        place,t,1|positions,indices|nothing|0|empty_plan
        place,t|positions,items,narrow|nothing|4|narrow_none
        place,t,50000|positions,items,narrow|nothing|4|narrow_none";
    check(&rt, rt.alloc(), cases)
}

/// A combined limit that is met exactly, and one kilogram more; and two positions that exclude each other.
#[test]
fn limits_are_kept(rt: HostRuntime) -> Result<(), Fail> {
    let cases = "
        place,t|combined,loose 51 300,combined_indices|nothing|0|combined_plan
        place,t|combined,loose 51 301,combined_indices|nothing|4|none
        place,t|forward,items,indices|nothing|4|none";
    check(&rt, rt.alloc(), cases)
}

/// The limit with room, met exactly, and one kilogram less; and sides of positions in the wrong order.
#[test]
fn a_lateral_limit_is_kept(rt: HostRuntime) -> Result<(), Fail> {
    let cases = "
        place,t|sided,side 11 right,side 12 left,side 41 left,side 42 right,lateral 500,items,indices|nothing|0|sided_plan
        place,t|sided,side 11 right,side 12 left,side 41 left,side 42 right,lateral 200,items,indices|nothing|0|sided_plan
        place,t|sided,side 11 right,side 12 left,side 41 left,side 42 right,lateral 199,items,indices|nothing|4|none
        place,t|sided,side 12 left,side 11 right,lateral 199,items,indices|nothing|3|INPUT HOLD 10";
    check(&rt, rt.alloc(), cases)
}

#[test]
fn certificates_are_judged(rt: HostRuntime) -> Result<(), Fail> {
    let cases = "
        check,t,c|positions,items,indices|plan|0|GOOD BEST
        check,t,c|positions,items,indices|too_few|10|REJECTED 7
        check,t,c|positions,items,indices|narrow_none|10|REJECTED 6 11 12
        check,t,c|positions,items,indices|items|3|INPUT START";
    check(&rt, rt.alloc(), cases)
}

#[test]
fn a_wrong_file_is_refused_with_its_line(rt: HostRuntime) -> Result<(), Fail> {
    let cases = "
        place,t|positions,twice,indices|nothing|3|INPUT TASK 2
        place,t|positions,items,short_base|nothing|3|INPUT LINE 8
        place,t|positions,items,cut|nothing|3|INPUT END
        place,t|positions,exclude 11 43,indices|nothing|3|INPUT LINE 6
        place,t|positions,bulk 51 5 800,exclude 11 12,combined 1000 11 51,loose 11 5,indices|nothing|3|INPUT TASK 4
        place,t|TASK 1,items,indices|nothing|3|INPUT HOLD 1
        place,t|positions,items,indices,|nothing|3|INPUT LINE 12";
    check(&rt, rt.alloc(), cases)
}

#[test]
fn a_load_is_made_from_a_number(rt: HostRuntime) -> Result<(), Fail> {
    let cases = "
        gen,0|nothing|nothing|0|load_0
        gen|nothing|nothing|2|USAGE
        gen,00|nothing|nothing|2|USAGE
        gen,4294967296|nothing|nothing|2|USAGE
        gen,0,20000|nothing|nothing|2|USAGE";
    check(&rt, rt.alloc(), cases)
}

#[test]
fn invalid_arguments_are_refused(rt: HostRuntime) -> Result<(), Fail> {
    let cases = "
        nothing|positions,items,indices|nothing|2|USAGE
        place|positions,items,indices|nothing|2|USAGE
        place,a,b,c|positions,items,indices|nothing|2|USAGE
        place,t,0|positions,items,indices|nothing|2|USAGE
        place,t,50001|positions,items,indices|nothing|2|USAGE
        place,t,017|positions,items,indices|nothing|2|USAGE
        place,-x|positions,items,indices|nothing|2|USAGE
        check,t|positions,items,indices|nothing|2|USAGE
        place,t,17 |positions,items,indices|nothing|2|USAGE";
    check(&rt, rt.alloc(), cases)
}
