// Plans with prices, and certificates with prices.
use crate::runs::{check, ran, ran_over};
use std::test::Fail;

#[test]
fn certificates_with_prices_are_judged(rt: HostRuntime) -> Result<(), Fail> {
    let cases = "
        pricedcheck,t,c|positions,items,far|far_none|0|GOOD NONE
        pricedcheck,t,c|positions,items,far|NONE,far_none|0|GOOD NONE
        pricedcheck,t,c|positions,items,narrow|priced_none,expanded 3,END|0|GOOD NONE
        pricedcheck,t,c|positions,items,narrow|priced_none,expanded 2,END|10|REJECTED 7
        pricedcheck,t,c|positions,items,indices|priced_claim,expanded 5,END|0|GOOD BEST
        pricedcheck,t,c|positions,items,indices|CERTIFICATE 2,best 11 12,expanded 5,END|10|REJECTED 5 11 41
        pricedcheck,t,c|positions,items,indices|priced_none,expanded 5,END|10|REJECTED 6 11 12";
    check(&rt, rt.alloc(), cases)
}

/// A claim that is not admissible; cuts out of order, complete, with wrong prices, and with prices that show too little.
#[test]
fn wrong_certificates_with_prices_are_rejected(rt: HostRuntime) -> Result<(), Fail> {
    let cases = "
        pricedcheck,t,c|positions,items,indices|CERTIFICATE 2,best 11 11,expanded 5,END|10|REJECTED 1
        pricedcheck,t,c|positions,items,indices|priced_claim,cut 11,lower -800000 ; 0 0 0 0,upper 800000 ; 0 0 0 0,cut 11,lower ;,upper ;,expanded 5,END|10|REJECTED 4 0
        pricedcheck,t,c|positions,items,indices|priced_claim,cut 11 12,lower ; 0 0 0 0,upper ; 0 0 0 0,expanded 5,END|10|REJECTED 3 0
        pricedcheck,t,c|positions,items,indices|priced_claim,cut 11,lower ; 0 0 0 0,upper 800000 ; 0 0 0 0,expanded 5,END|10|REJECTED 8 0
        pricedcheck,t,c|positions,items,far|far_wrong|10|REJECTED 8 0";
    check(&rt, rt.alloc(), cases)
}

#[test]
fn texts_of_no_certificate_with_prices_are_refused(rt: HostRuntime) -> Result<(), Fail> {
    let cases = "
        pricedcheck,t,c|positions,items,indices|plan|3|INPUT START
        pricedcheck,t,c|positions,items,indices|priced_claim,cut 11,lower 1 ; 1,expanded 5,END|3|INPUT LINE 5
        pricedcheck,t,c|positions,items,indices|priced_claim,expanded 50001,END|3|INPUT LINE 3
        pricedcheck,t,c|positions,items,indices|priced_claim,expanded 5|3|INPUT END
        pricedcheck,t,c|positions,items,cut|far_none|3|INPUT END
        check,t,c|positions,items,far|far_none|3|INPUT START
        bestcheck,t,c|positions,items,far|far_none|3|INPUT START";
    check(&rt, rt.alloc(), cases)
}

#[test]
fn priced_refuses_what_place_refuses(rt: HostRuntime) -> Result<(), Fail> {
    let cases = "
        priced|positions,items,indices|nothing|2|USAGE
        priced,t,0|positions,items,indices|nothing|2|USAGE
        priced,t,501|positions,items,indices|nothing|2|USAGE
        priced,t,500,more|positions,items,indices|nothing|2|USAGE
        pricedcheck,t|positions,items,indices|nothing|2|USAGE
        pricedcheck,t,c,more|positions,items,indices|nothing|2|USAGE
        priced,t|positions,items,cut|nothing|3|INPUT END
        priced,t,1|positions,items,indices|nothing|5|BUDGET 1
        priced,u|positions,items,indices|nothing|6|nothing
        pricedcheck,t,u|positions,items,indices|nothing|6|nothing";
    check(&rt, rt.alloc(), cases)
}

/// The answer of `priced` begins as that of `place`, and `pricedcheck` accepts it.
#[test]
fn an_answer_of_priced_is_good(rt: HostRuntime) -> Result<(), Fail> {
    let rows = [
        (
            "priced,t",
            "positions,items,indices",
            "0 PLAN\nplace AKE10001XX 12\nplace AKE10002XX 41\nindex 49.20000\ndistance 0.80000\nCERTIFICATE 2\nbest 12 41\n",
            "0 GOOD BEST\n",
        ),
        (
            "priced,t,1",
            "positions,items,far",
            "4 NONE\nCERTIFICATE 2\nnone\ncut\n",
            "0 GOOD NONE\n",
        ),
    ];
    for (words, task, start, judgement) in rows {
        let answer = ran(rt.alloc(), words, task, "nothing")?;
        assert!(rt; answer.starts_with(start));
        let certificate = String::from_str(rt.alloc(), answer.as_str())?;
        let said = ran_over(rt.alloc(), "pricedcheck,t,c", task, certificate, 100)?;
        assert_eq!(rt; said.as_str(), judgement);
    }
    Ok(())
}
