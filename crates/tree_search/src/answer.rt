//! The answer to a task, which is checked before it is told.

ghost use Rattle.std.specs.Prelude.{◌≡◌, ◌≢◌, IfOk};
ghost use Rattle.tree_checker.specs.Claims.{ClaimsPath, ClaimsNone};
ghost use Rattle.tree_search.specs.declared.answer.TreeAnswer.TheVariants.{Undecided};
ghost use Rattle.tree_search.specs.TreeAnswers.{IsAnswerWith, IsTreeAnswerTo};

use crate::dive::least;
use crate::nearest::{Nearest, distance_of, find_nearest};
use crate::used_prices::used_prices;
use base_words::NoMemory;
use certificate::Claim;
use finder_tables::{Load, Path};
use hold_choices::Choices;
use hold_limits::Task;
use std::alloc::Global;
use tree_certificate::{Operation, Sibling, TreeCertificate};
use tree_checker::{
    NoPlanByTrees, ProvenByTrees, TreeRejection, no_plan_by_trees, proven_by_trees,
    tree_certificate_laws,
};
use tree_finder::{Finder, Ground, load_for};

/// What the search for the best path of a task ends with.
#[derive(Debug, Drop)]
pub enum TreeAnswer {
    /// The best path, with its evidence.
    Best(ProvenByTrees),
    /// No path is admissible, with the evidence for it.
    NoneFits(NoPlanByTrees),
    /// So many looks do not decide it.
    Undecided(u32),
}

/// What a search comes to.
#[derive(Drop)]
struct Outcome {
    path: Option<Path>,
    root: Vec<Operation>,
    siblings: Vec<Sibling>,
}

/// The best path and the trees for it. None where the looks are spent.
fn searched(
    alloc: Global,
    finder: &mut Finder<'_>,
    full: &Choices,
    looks: u32,
) -> Result<Option<Outcome>, NoMemory> {
    let Some(found) = find_nearest(alloc, finder, full, looks)? else {
        return Ok(None);
    };
    let Nearest {
        path,
        tree: root,
        opening,
    } = found;
    let Some(path) = path else {
        return Ok(Some(Outcome {
            path: None,
            root,
            siblings: Vec::new(alloc),
        }));
    };
    let load = finder.ground.load;
    finder.ticks = load.ticks_within(distance_of(load, &path));
    match least(alloc, finder, full, path, opening)? {
        Some((path, siblings)) => Ok(Some(Outcome {
            path: Some(path),
            root,
            siblings,
        })),
        None => Ok(None),
    }
}

fn claim_of(path: Option<Path>) -> Claim {
    match path {
        Some(path) => Claim::Best(path),
        None => Claim::NoneFits,
    }
}

/// The certificate of what a search with so many looks comes to. None where they are spent.
fn certificate(
    alloc: Global,
    task: &Task,
    load: &Load,
    looks: u32,
) -> Result<Option<TreeCertificate>, NoMemory> {
    let full = Choices::full(task);
    let mut finder = Finder::new(Ground::of(alloc, task, load), looks);
    let Some(found) = searched(alloc, &mut finder, &full, looks)? else {
        return Ok(None);
    };
    let Outcome {
        path,
        mut root,
        mut siblings,
    } = found;
    let prices = used_prices(
        alloc,
        finder.into_lists(),
        root.as_mut_slice(),
        siblings.as_mut_slice(),
    )?;
    Ok(Some(TreeCertificate {
        claim: claim_of(path),
        cliques: load.cliques.as_slice().to_vec(alloc)?,
        prices,
        root,
        siblings,
    }))
}

/// The answer where the certificate is rejected. A lack of memory says nothing about it, and is no rejection.
fn undecided(rejection: TreeRejection, looks: u32) -> Result<TreeAnswer, NoMemory>
    ensures { IfOk result (λ answer. (answer ≡ Undecided looks) × (rejection ≢ TreeRejection.NoMemory)) }
{
    match rejection {
        TreeRejection::NoMemory => Err(NoMemory),
        TreeRejection::NotAPlacement
        | TreeRejection::NotAClique(_)
        | TreeRejection::WrongPrices(_)
        | TreeRejection::WrongOperation(_, _)
        | TreeRejection::WrongSibling(_) => Ok(TreeAnswer::Undecided(looks)),
    }
}

/// The answer with a certificate that claims a path, if it is good.
fn with_path(
    alloc: Global,
    task: Task,
    certificate: TreeCertificate,
    looks: u32,
) -> Result<TreeAnswer, NoMemory>
    requires { ClaimsPath certificate }
    ensures { IfOk result (IsAnswerWith task certificate looks) }
{
    tree_certificate_laws();
    match proven_by_trees(alloc, task, certificate) {
        Ok(proven) => Ok(TreeAnswer::Best(proven)),
        Err(rejection) => undecided(rejection, looks),
    }
}

/// The answer with a certificate that claims no path, if it is good.
fn without_path(
    alloc: Global,
    task: Task,
    certificate: TreeCertificate,
    looks: u32,
) -> Result<TreeAnswer, NoMemory>
    requires { ClaimsNone certificate }
    ensures { IfOk result (IsAnswerWith task certificate looks) }
{
    tree_certificate_laws();
    match no_plan_by_trees(alloc, task, certificate) {
        Ok(no_plan) => Ok(TreeAnswer::NoneFits(no_plan)),
        Err(rejection) => undecided(rejection, looks),
    }
}

/// The answer with a certificate, if it is good.
fn answer_with(
    alloc: Global,
    task: Task,
    certificate: TreeCertificate,
    looks: u32,
) -> Result<TreeAnswer, NoMemory>
    ensures { IfOk result (IsAnswerWith task certificate looks) }
{
    if matches!(certificate.claim, Claim::Best(_)) {
        with_path(alloc, task, certificate, looks)
    } else {
        without_path(alloc, task, certificate, looks)
    }
}

/// The best path of a task, or that none is admissible, each with its evidence, which was checked. The search looks at so
/// many choices at most, 1 to 1,000,000; where they do not decide it, the answer is that number.
pub fn find_best(alloc: Global, task: &Task, looks: u32) -> Result<TreeAnswer, NoMemory>
    ensures { IfOk result (IsTreeAnswerTo task.now looks) }
{
    let load = load_for(task);
    match certificate(alloc, task, &load, looks)? {
        Some(found) => answer_with(alloc, task.copy(alloc)?, found, looks),
        None => Ok(TreeAnswer::Undecided(looks)),
    }
}
