// Plans over several sectors.
use crate::runs::check;
use std::test::Fail;

/// Two sectors, with what stands behind 41 and without; and three, of which the second one has its own base and window.
#[test]
fn loads_over_several_sectors_are_placed(rt: HostRuntime) -> Result<(), Fail> {
    let cases = "
        stops,t|two_sectors,behind 41 11,positions,items,indices,positions,last_sector|nothing|0|stops_plan
        stops,t,3|two_sectors,behind 41 11,positions,items,indices,positions,last_sector|nothing|0|stops_plan
        stops,t,5000|two_sectors,positions,items,indices,positions,last_sector|nothing|0|PLAN,place AKE10001XX 41,place AKE10002XX 11,index 49.20000,distance 0.80000,sector 2 54.00000,END
        stops,t|three_sectors,positions,items,indices,positions,items,base 48.00000,window 0.50000 0.90000,ideal 48.00000 48.00000,END,positions,last_sector|nothing|0|PLAN,place AKE10001XX 41,place AKE10002XX 12,index 50.80000,distance 0.80000,sector 2 48.80000,sector 3 54.00000,END";
    check(&rt, rt.alloc(), cases)
}

/// One prefix fewer than are near, and a window of the second sector that no placement meets.
#[test]
fn a_load_without_a_plan_is_answered(rt: HostRuntime) -> Result<(), Fail> {
    let cases = "
        stops,t,2|two_sectors,behind 41 11,positions,items,indices,positions,last_sector|nothing|5|BUDGET 2
        stops,t|two_sectors,positions,items,indices,positions,item AKE10001XX 1000,narrow|nothing|4|NONE";
    check(&rt, rt.alloc(), cases)
}

/// Lines, tasks of either sector, and then what is wrong with the load of lawful tasks.
#[test]
fn a_wrong_load_is_refused_with_its_line(rt: HostRuntime) -> Result<(), Fail> {
    let cases = "
        stops,t|positions,items,indices|nothing|3|INPUT LINE 1
        stops,t|two_sectors,positions,items,indices,positions,item AKE10001XX 1000,short_base|nothing|3|INPUT LINE 21
        stops,t|two_sectors,positions,items,indices|nothing|3|INPUT END
        stops,t|two_sectors,positions,items,indices,positions,items,cut|nothing|3|INPUT END
        stops,t|two_sectors,positions,items,indices,TASK 1,last_sector|nothing|3|INPUT HOLD 1
        stops,t|two_sectors,positions,twice,indices,TASK 1,last_sector|nothing|3|INPUT TASK 2
        stops,t|two_sectors,positions,items,indices,forward,last_sector|nothing|3|INPUT STOPS 2
        stops,t|three_sectors,positions,items,indices,positions,last_sector|nothing|3|INPUT STOPS 3
        stops,t|two_sectors,positions,items,indices,positions,items,indices|nothing|3|INPUT STOPS 4
        stops,t|two_sectors,behind 41 43,positions,items,indices,positions,last_sector|nothing|3|INPUT STOPS 5";
    check(&rt, rt.alloc(), cases)
}

#[test]
fn stops_needs_a_file_and_a_budget_in_range(rt: HostRuntime) -> Result<(), Fail> {
    let cases = "
        stops|nothing|nothing|2|USAGE
        stops,t,0|two_sectors|nothing|2|USAGE
        stops,t,5001|two_sectors|nothing|2|USAGE
        stops,t,02|two_sectors|nothing|2|USAGE
        stops,t,2000,more|two_sectors|nothing|2|USAGE
        stops,u|two_sectors|nothing|6|nothing";
    check(&rt, rt.alloc(), cases)
}
