// Texts by name, and what a run over them prints.
use base_words::NoMemory;
use load_io::{MemoryShelf, MemorySink, Shelf};
use placer::Direct;
use plan_commands::print;
use std::alloc::Global;
use std::process::Abort;
use std::test::Fail;

/// Four positions.
const POSITIONS: &str = "TASK 1
position 11 1 -600 AKE 1500
position 12 1 -400 AKE 1500
position 41 4 400 AKE 1500
position 42 4 600 AKE 1500
";

/// Two positions that exclude each other.
const FORWARD: &str = "TASK 1
position 11 1 -600 AKE 1500
position 12 1 -400 AKE 1500
exclude 11 12
";

/// Two containers.
const ITEMS: &str = "item AKE10001XX 1000
item AKE10002XX 800
";

/// The same in the other order.
const OTHER_ITEMS: &str = "item AKE10002XX 800
item AKE10001XX 1000
";

/// Two containers of one identity.
const TWICE: &str = "item AKE10001XX 1000
item AKE10001XX 800
";

/// Indices, and the end of a task.
const INDICES: &str = "base 50.00000
window -100.00000 100.00000
ideal 50.00000 50.00000
END
";

/// Indices with a window that no placement meets.
const NARROW: &str = "base 50.00000
window 0.00000 0.00000
ideal 50.00000 50.00000
END
";

/// A base with one decimal.
const SHORT_BASE: &str = "base 50.0
window -100.00000 100.00000
ideal 50.00000 50.00000
END
";

/// Indices with a window beyond what three containers can add.
const FAR: &str = "item AKE10003XX 600
base 50.00000
window 7.00000 14.00000
ideal 50.00000 50.00000
END
";

/// Indices of a task that does not end.
const CUT: &str = "base 50.00000
window -100.00000 100.00000
ideal 50.00000 50.00000
";

/// A combined limit on a container and a loose load.
const COMBINED: &str = "TASK 1
position 11 1 -500 AKE 1500
bulk 51 5 800
combined 1500 11 51
item AKE10001XX 1200
";

/// Its indices.
const COMBINED_INDICES: &str = "base 50.00000
window -20.00000 20.00000
ideal 46.40000 46.40000
END
";

/// Positions that may have sides.
const SIDED: &str = "TASK 2
position 11 1 -600 AKE 1500
position 12 1 -400 AKE 1500
position 41 4 400 AKE 1500
position 42 4 600 AKE 1500
";

/// The plan with a lateral limit.
const SIDED_PLAN: &str = "PLAN
place AKE10001XX 12
place AKE10002XX 42
index 50.80000
distance 0.80000
lateral -200
CERTIFICATE 1
best 12 42
cut 11
cut 42
expanded 3
END
";

/// The plan of the worked task.
const PLAN: &str = "PLAN
place AKE10001XX 12
place AKE10002XX 41
index 49.20000
distance 0.80000
CERTIFICATE 1
best 12 41
cut 11
cut 42
expanded 3
END
";

/// A certificate with too few prefixes.
const TOO_FEW: &str = "CERTIFICATE 1
best 12 41
cut 11
cut 42
expanded 2
END
";

/// There is no plan, and no prefix is viable.
const NONE: &str = "NONE
CERTIFICATE 1
none
expanded 1
END
";

/// There is none in the narrow window.
const NARROW_NONE: &str = "NONE
CERTIFICATE 1
none
expanded 3
END
";

/// The plan of no containers.
const EMPTY_PLAN: &str = "PLAN
index 50.00000
distance 0.00000
CERTIFICATE 1
best
expanded 0
END
";

/// The plan that meets the combined limit.
const COMBINED_PLAN: &str = "PLAN
place AKE10001XX 11
index 46.40000
distance 0.00000
CERTIFICATE 1
best 11
expanded 1
END
";

/// The head of a certificate of trees.
const TREES: &str = "CERTIFICATE 3
best 12 41
low ; ;
high ; ;
nearer
";

/// The head of one that claims that there is no plan.
const TREES_OF_NONE: &str = "CERTIFICATE 3
none
low ; ;
high ; ;
any
";

/// The trees of the positions forward.
const FORWARD_TREE: &str = "split 0 11 12
split 1 11 12
leaf 1
split 0 11
leaf 1
residue
";

/// Those of the positions aft.
const AFT_TREE: &str = "split 1 41 42
leaf 0
split 0 41
residue
leaf 0
";

/// Those of both containers, and the end.
const SIBLINGS: &str = "least 0 11
leaf 1
least 1 11
leaf 1
END
";

/// The certificate with prices that there is no plan in the far window.
const FAR_NONE: &str = "CERTIFICATE 2
none
cut
lower 40000 160000 240000 ; -640000 -480000 0 0
upper -40000 -160000 -240000 ; 0 0 480000 640000
expanded 0
END
";

/// The same with a price that is a tick too small.
const FAR_WRONG: &str = "CERTIFICATE 2
none
cut
lower 40000 160000 240000 ; -640000 -480000 0 0
upper -40000 -160000 -240000 ; 0 0 480000 639999
expanded 0
END
";

/// That there is no plan, in a certificate with prices.
const PRICED_NONE: &str = "CERTIFICATE 2
none
";

/// A plan of the worked task, in a certificate with prices.
const PRICED_CLAIM: &str = "CERTIFICATE 2
best 12 41
";

/// A load over two sectors: the first container is aboard on both.
const TWO_SECTORS: &str = "STOPS 1
leave AKE10001XX 2
leave AKE10002XX 1
";

/// A load over three sectors: the first container is aboard on all, the second one on two.
const THREE_SECTORS: &str = "STOPS 1
leave AKE10001XX 3
leave AKE10002XX 2
";

/// What the last sector has behind its positions: the first container, and a window that leaves it those towards the
/// tail.
const LAST_SECTOR: &str = "item AKE10001XX 1000
base 50.00000
window 4.00000 10.00000
ideal 50.00000 50.00000
END
";

/// The plan over two sectors where what stands on 11 is behind what stands on 41.
const STOPS_PLAN: &str = "PLAN
place AKE10001XX 41
place AKE10002XX 12
index 50.80000
distance 0.80000
sector 2 54.00000
END
";

/// The summary of the load that is made from 0.
const LOAD_0: &str = "GEN 0
mass 50712
PLAN
index 44.04800
distance 0.00000
cuts 1880
expanded 48
END
";

/// Of the texts for commands with prices, the one that has this name.
fn named_with_prices(name: &str) -> Option<&'static str> {
    Some(match name {
        "far" => FAR,
        "far_none" => FAR_NONE,
        "far_wrong" => FAR_WRONG,
        "priced_none" => PRICED_NONE,
        "priced_claim" => PRICED_CLAIM,
        _ => return None,
    })
}

/// Of the texts of loads over several sectors, the one that has this name.
fn named_over_sectors(name: &str) -> Option<&'static str> {
    Some(match name {
        "two_sectors" => TWO_SECTORS,
        "three_sectors" => THREE_SECTORS,
        "last_sector" => LAST_SECTOR,
        "stops_plan" => STOPS_PLAN,
        _ => return None,
    })
}

/// Of the other texts, the one that has this name.
fn named_otherwise(name: &str) -> Option<&'static str> {
    Some(match name {
        "positions" => POSITIONS,
        "forward" => FORWARD,
        "items" => ITEMS,
        "other_items" => OTHER_ITEMS,
        "twice" => TWICE,
        "indices" => INDICES,
        "narrow" => NARROW,
        "short_base" => SHORT_BASE,
        "cut" => CUT,
        "combined" => COMBINED,
        "combined_indices" => COMBINED_INDICES,
        "sided" => SIDED,
        "sided_plan" => SIDED_PLAN,
        "plan" => PLAN,
        "too_few" => TOO_FEW,
        "none" => NONE,
        "narrow_none" => NARROW_NONE,
        "empty_plan" => EMPTY_PLAN,
        "combined_plan" => COMBINED_PLAN,
        "trees" => TREES,
        "trees_of_none" => TREES_OF_NONE,
        "forward_tree" => FORWARD_TREE,
        "aft_tree" => AFT_TREE,
        "siblings" => SIBLINGS,
        "load_0" => LOAD_0,
        "nothing" => "",
        _ => return None,
    })
}

/// The text that has this name.
fn named(name: &str) -> Option<&'static str> {
    named_otherwise(name)
        .or_else(|| named_with_prices(name))
        .or_else(|| named_over_sectors(name))
}

/// The parts of a text, which are parted by commas: names, and lines in full.
fn joined(alloc: Global, parts: &str) -> Result<String, NoMemory> {
    let mut text = String::new(alloc);
    for part in parts.split(',') {
        match named(part) {
            Some(found) => text.push_str(found)?,
            None => {
                text.push_str(part)?;
                text.push('\n')?;
            }
        }
    }
    Ok(text)
}

/// The words, which are parted by commas.
fn words_of(alloc: Global, words: &str) -> Result<Vec<String>, NoMemory> {
    let mut list = Vec::new(alloc);
    if words == "nothing" {
        return Ok(list);
    }
    for word in words.split(',') {
        list.push(String::from_str(alloc, word)?)?;
    }
    Ok(list)
}

/// A shelf with a task in the file `t` and a certificate in the file `c`.
fn shelf_with(alloc: Global, task: String, certificate: String) -> Result<MemoryShelf, NoMemory> {
    let mut files = Vec::new(alloc);
    files.push((String::from_str(alloc, "t")?, task.into_bytes()))?;
    files.push((String::from_str(alloc, "c")?, certificate.into_bytes()))?;
    Ok(MemoryShelf::new(files, Vec::new(alloc)))
}

/// The exit status, a space, and what was printed in so much room.
pub fn ran_on<F: Shelf>(
    alloc: Global,
    words: &str,
    shelf: &mut F,
    room: usize,
) -> Result<String, NoMemory> {
    let words = words_of(alloc, words)?;
    let mut out = MemorySink::new(alloc, room, Vec::new(alloc))?;
    let status = print(alloc, words.as_slice(), shelf, &mut out, &Direct);
    let mut text = format!(in alloc; "{status} ")?;
    text.push_str(str::from_utf8(out.written()).unwrap_or("?"))?;
    Ok(text)
}

/// The same over the parts of a task and the text of a certificate.
pub fn ran_over(
    alloc: Global,
    words: &str,
    task: &str,
    certificate: String,
    room: usize,
) -> Result<String, NoMemory> {
    let mut shelf = shelf_with(alloc, joined(alloc, task)?, certificate)?;
    ran_on(alloc, words, &mut shelf, room)
}

/// The same over the parts of both, with room for all that is printed.
pub fn ran(alloc: Global, words: &str, task: &str, certificate: &str) -> Result<String, NoMemory> {
    ran_over(alloc, words, task, joined(alloc, certificate)?, 1_000)
}

/// The status and the text of these parts, as a run gives them.
pub fn due(alloc: Global, status: &str, parts: &str) -> Result<String, NoMemory> {
    let text = joined(alloc, parts)?;
    Ok(format!(in alloc; "{status} {text}")?)
}

/// Runs the cases, each in a line of its own: words, the task, the certificate if there is one, the status and what is printed,
/// parted by bars.
pub fn check(rt: &impl Abort, alloc: Global, cases: &str) -> Result<(), Fail> {
    for case in cases.trim().split('\n') {
        let mut columns = case.trim_start().split('|');
        let words = columns.next().unwrap_or("");
        let task = columns.next().unwrap_or("");
        let certificate = columns.next().unwrap_or("");
        let status = columns.next().unwrap_or("");
        let printed = columns.next().unwrap_or("");
        let got = ran(alloc, words, task, certificate)?;
        assert_eq!(rt;
            got.as_str(),
            due(alloc, status, printed)?.as_str(),
            "{case}"
        );
    }
    Ok(())
}
