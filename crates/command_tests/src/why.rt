// Why a task has no plan.
use crate::runs::check;
use std::test::Fail;

/// A pair that excludes; a combined limit, an end of the window and a lateral limit, each with the least change.
#[test]
fn a_limit_in_the_way_is_told(rt: HostRuntime) -> Result<(), Fail> {
    let cases = "
        why,t|positions,items,indices|nothing|0|PLAN,END
        why,t|forward,items,indices|nothing|4|WITHOUT exclude 11 12,END
        why,t,1000|combined,loose 51 301,combined_indices|nothing|4|WITHOUT combined 1500 11 51 AT 1501,END
        why,t|positions,items,narrow|nothing|4|WITHOUT window low AT -0.80000,WITHOUT window high AT 0.80000,END
        why,t|sided,side 11 right,side 12 left,side 41 left,side 42 right,lateral 199,items,indices|nothing|4|WITHOUT lateral 199 AT 200,END";
    check(&rt, rt.alloc(), cases)
}

/// A container that is too heavy for each position, and more containers of a kind than positions for it.
#[test]
fn a_container_without_a_position_is_told(rt: HostRuntime) -> Result<(), Fail> {
    let cases = "
        why,t|positions,items,item AKE10003XX 1501,indices|nothing|4|UNFIT AKE10003XX,END
        why,t|positions,item AKN10001XX 10,indices|nothing|4|UNFIT AKN10001XX,SHORT AKN 1 0,END
        why,t|forward,items,item AKE10003XX 5,indices|nothing|4|SHORT AKE 3 2,END";
    check(&rt, rt.alloc(), cases)
}

#[test]
fn invalid_questions_are_refused(rt: HostRuntime) -> Result<(), Fail> {
    let cases = "
        why|positions,items,indices|nothing|2|USAGE
        why,t,0|positions,items,indices|nothing|2|USAGE
        why,t,1000001|positions,items,indices|nothing|2|USAGE
        why,t,1,1|positions,items,indices|nothing|2|USAGE
        why,t|positions,items,cut|nothing|3|INPUT END
        why,t|TASK 1,items,indices|nothing|3|INPUT HOLD 1";
    check(&rt, rt.alloc(), cases)
}
