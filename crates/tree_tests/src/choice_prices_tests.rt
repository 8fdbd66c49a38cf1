// Prices of a task with a limit of each kind, against a plain program that follows the definitions.
use crate::pass;
use crate::plain_prices::{mass_at, plain_cheap, plain_value};
use case_rows::Subject;
use choice_prices::{PriceFault, ReadyPrices, is_clique, price_fault, wrong_clique};
use hold_limits::Task;
use hold_reach::Span;
use position_set::PositionSet;
use problem_text::read_task;
use std::alloc::Global;
use std::test::Fail;
use tree_certificate::{End, PriceList, TreeCertificate, read_trees};

// Positions 0 to 5, of which 2 is bulk, with a limit of each kind.
const TASK: &[u8] = b"TASK 2
position 11 1 -600 AKE 1500
position 12 1 -400 AKE 1500
bulk 51 5 70
position 41 4 300 AKE 1500
position 42 4 400 AKE 1500
position 43 4 600 AKE 1500
exclude 11 12
exclude 41 42
exclude 41 43
exclude 42 43
combined 1800 11 12
combined 2000 51 43
cumulative forward 51 2500
cumulative aft 41 2600
side 11 left
side 12 right
side 51 right
side 42 left
side 43 right
lateral 900
item AKE10001XX 1000
item AKE10002XX 900
item AKE10003XX 700
loose 51 310
base 50.00000
window -100.00000 100.00000
ideal 50.00000 50.00000
END
";

// A list without prices from each end, one for each kind of price, and one with prices of all kinds, some of them twice.
const CERTIFICATE: &[u8] = b"CERTIFICATE 3
none
clique 11 12
clique 41 42 43
low ; ;
high ; ;
low 11 7000 51 11 ; ;
high ; ; 0 900 1 50000
low ; 0 30 1 41 ;
high ; 2 52 3 63 ;
low ; 4 170 ;
low ; 5 170 ;
high 12 123 43 4567 12 1000 ; 0 5 3 77 5 11 4 13 0 2 ; 1 123456 0 1 1 4
any
END
";

fn certificate(alloc: Global, task: &Task) -> Result<TreeCertificate, Fail> {
    Ok(read_trees(alloc, task, CERTIFICATE)?)
}

// The set of these numbers.
fn set(numbers: &[u8]) -> PositionSet {
    let mut set = PositionSet::empty();
    for number in numbers {
        if *number < 64 {
            set = set.with(*number);
        }
    }
    set
}

// Choices: all positions, some, a container without any, sets of one, positions of no hold, one set too few and one too many.
fn choice(number: usize) -> [PositionSet; 4] {
    let all = set(&[0, 1, 3, 4, 5]);
    match number {
        0 => [all, all, all, set(&[])],
        1 => [set(&[0, 4]), set(&[4]), set(&[3, 4]), set(&[])],
        2 => [all, set(&[]), set(&[5]), set(&[])],
        3 => [set(&[0]), set(&[4]), set(&[3]), set(&[])],
        4 => [set(&[1, 63]), set(&[2, 40]), all, set(&[])],
        _ => [set(&[1]), set(&[1]), set(&[1]), set(&[5])],
    }
}

// How many sets of a choice are looked at.
fn length(number: usize) -> usize {
    match number {
        3 => 2,
        5 => 4,
        _ => 3,
    }
}

// The prices of a list, made ready in a certificate with these cliques.
fn ready<'a>(
    task: &'a Task,
    certificate: &'a TreeCertificate,
    list: &'a PriceList,
) -> Result<ReadyPrices<'a>, Fail> {
    let cliques = certificate.cliques.as_slice();
    match wrong_clique(task, cliques) {
        Some(_) => Err("a wrong clique".into()),
        None => Ok(ReadyPrices::new(task, cliques, list)?),
    }
}

// The ticks whose goal is so much more than a value.
fn up_to(end: End, value: i128, more: i64) -> Result<Span, Fail> {
    let goal = i64::try_from(value)?.saturating_add(more);
    Ok(match end {
        End::Low => Span {
            low: i64::MIN,
            high: goal,
        },
        End::High => Span {
            low: goal.saturating_neg(),
            high: i64::MAX,
        },
    })
}

// Whether the value over these sets is the plain one, and beyond a goal that is one less, and beyond none that is as much.
fn has_plain_value(
    task: &Task,
    certificate: &TreeCertificate,
    list: &PriceList,
    sets: &[PositionSet],
) -> Result<bool, Fail> {
    let prices = ready(task, certificate, list)?;
    let plain = plain_value(task, certificate.cliques.as_slice(), list, sets);
    Ok(
        prices.value(sets) == plain
            && prices.is_beyond(up_to(list.end, plain, -1)?, sets)
            && !prices.is_beyond(up_to(list.end, plain, 0)?, sets),
    )
}

#[test]
fn each_value_is_that_of_the_definition(rt: HostRuntime) -> Result<(), Fail> {
    let task = read_task(rt.alloc(), TASK)?;
    let certificate = certificate(rt.alloc(), &task)?;
    for list in certificate.prices.as_slice() {
        for number in 0..6 {
            let sets = choice(number);
            let sets = sets.get(..length(number)).ok_or("sets")?;
            let right = has_plain_value(&task, &certificate, list, sets)?;
            assert!(rt; right, "{list:?} over choice {number}");
        }
    }
    Ok(())
}

// Whether what is left of these sets, for a goal that is so much more than the value, is what costs no more over the least.
fn is_plainly_trimmed(
    task: &Task,
    certificate: &TreeCertificate,
    list: &PriceList,
    sets: &[PositionSet],
    slack: i64,
) -> Result<bool, Fail> {
    let cliques = certificate.cliques.as_slice();
    let value = plain_value(task, cliques, list, sets);
    let ticks = up_to(list.end, value, slack)?;
    let trimmed = ready(task, certificate, list)?.trimmed(ticks, sets);
    for (rank, left) in trimmed.as_slice().iter().enumerate() {
        let set = sets.get(rank).ok_or("a set")?;
        let mass = mass_at(task, rank);
        if *left != plain_cheap(task, cliques, list, i128::from(slack), mass, *set) {
            return Ok(false);
        }
    }
    Ok(trimmed.len() == sets.len().min(task.items().len()))
}

#[test]
fn what_is_trimmed_costs_too_much(rt: HostRuntime) -> Result<(), Fail> {
    let task = read_task(rt.alloc(), TASK)?;
    let certificate = certificate(rt.alloc(), &task)?;
    for list in certificate.prices.as_slice() {
        for number in 0..6 {
            let sets = choice(number);
            let sets = sets.get(..length(number)).ok_or("sets")?;
            for slack in [-1, 0, 199_999, 200_000, 500_000, 5_000_000] {
                let right = is_plainly_trimmed(&task, &certificate, list, sets, slack)?;
                assert!(rt; right, "{list:?} over choice {number} by {slack}");
            }
        }
    }
    Ok(())
}

// With 1,000, 900 and 700 kg on 11, 42 and 41 the moments of the containers come to -30,000, and the loose load has 21,700.
// The second clique is taken twice, and counts once. The loose load is under the second and the third limit, and on the
// right; 1,900 kg of the containers are on the left.
#[test]
fn a_value_by_hand(rt: HostRuntime) -> Result<(), Fail> {
    let task = read_task(rt.alloc(), TASK)?;
    let certificate = certificate(rt.alloc(), &task)?;
    let sets = [set(&[0]), set(&[4]), set(&[3])];
    let lists = certificate.prices.as_slice();
    let values = [
        -8_300, 8_300, -8_300, 58_300, -101_590, -116_580, -431_600, 109_000,
    ];
    for (list, value) in lists.iter().zip(values) {
        let prices = ready(&task, &certificate, list)?;
        assert_eq!(rt; prices.value(&sets), value, "{list:?}");
    }
    Ok(())
}

#[test]
fn a_clique_excludes_each_pair(rt: HostRuntime) -> Result<(), Fail> {
    let task = read_task(rt.alloc(), TASK)?;
    for clique in [
        set(&[]),
        set(&[3]),
        set(&[40]),
        set(&[0, 1]),
        set(&[3, 4, 5]),
    ] {
        assert!(rt; is_clique(&task, clique), "{clique:?}");
    }
    for other in [set(&[0, 3]), set(&[0, 1, 3]), set(&[3, 4, 6])] {
        assert!(rt; !is_clique(&task, other), "{other:?}");
    }
    let sets = [set(&[0, 1]), set(&[1, 3]), set(&[2, 5])];
    assert_eq!(rt; wrong_clique(&task, &sets), Some(1));
    assert_eq!(rt; wrong_clique(&task, &sets[..1]), None);
    Ok(())
}

// The fault of a list of prices in a certificate with two cliques.
fn fault_of(alloc: Global, line: &str) -> Result<Option<PriceFault>, Fail> {
    let task = read_task(alloc, TASK)?;
    let text = format!(in alloc; "CERTIFICATE 3\nnone\n{line}\nany\nEND\n")?;
    let certificate = read_trees(alloc, &task, text.as_bytes())?;
    let list = certificate.prices.as_slice().first().ok_or("a list")?;
    Ok(price_fault(&task, 2, list))
}

/// The fault of the prices of a case.
struct Faults;

impl Subject for Faults {
    fn said(&self, alloc: Global, case: &str) -> Result<String, Fail> {
        Ok(format!(in alloc; "{:?}", fault_of(alloc, case)?)?)
    }
}

#[test]
fn a_price_is_of_something_and_bounded(rt: HostRuntime) {
    let rows = "None|low 11 10000000000000 43 0 ; 5 0 ; 1 0
Some(Position(1))|low 11 1 12 10000000000001 ; 6 0 ; 2 0
Some(Limit(1))|high ; 5 1 6 1 7 1 ; 2 0
Some(Limit(0))|high ; 0 10000000000001 ;
Some(Clique(2))|low ; ; 0 1 1 1 2 1";
    pass(&rt, rt.alloc(), &Faults, rows);
}

#[test]
fn a_list_has_64_prices_of_positions_at_most(rt: HostRuntime) -> Result<(), Fail> {
    let mut line = String::from_str(rt.alloc(), "low")?;
    for _ in 0..64 {
        line.push_str(" 11 1")?;
    }
    let many = format!(in rt.alloc(); "{line} 12 10000000000001 ; ;")?;
    line.push_str(" ; ;")?;
    assert_eq!(rt; fault_of(rt.alloc(), &line)?, None);
    assert_eq!(rt; fault_of(rt.alloc(), &many)?, Some(PriceFault::TooMany));
    Ok(())
}
