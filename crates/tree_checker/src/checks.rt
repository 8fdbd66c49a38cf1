//! Whether a certificate of trees is good.

ghost use Rattle.std.specs.Prelude.{◌≡◌, ◌⊎◌, IfOk, IfErr, IsOk, IfSome, Err, All, length, map};
ghost use Rattle.hold_limits.specs.Placement.{IsAdmissible};
ghost use Rattle.tree_certificate.specs.Listed.{listed_prices, listed_trees};
ghost use Rattle.choice_prices.specs.Listing.{IsClique, ArePriced};
ghost use Rattle.tree_checker.specs.GoodTrees.{IsGoodTrees};
ghost use Rattle.tree_checker.specs.FirstReason.{IsRejected};
ghost use Rattle.tree_checker.specs.Steps.{path_of, IsReady, IsMeasured, CliqueIsRefused, PricesAreRefused, EvidenceHolds, EvidenceFails};
ghost use Rattle.tree_checker.specs.declared.rejection.TreeRejection.TheVariants.{NoMemory};

use crate::claim::{Claimed, claimed_numbers, claimed_path};
use crate::evidence::TreeEvidence;
use crate::rejection::TreeRejection;
use crate::siblings::check_siblings;
use crate::trees::check_all_trees;
use choice_prices::{is_clique, price_fault};
use hold_choices::{Choices, Conflicts};
use hold_limits::Task;
use position_set::PositionSet;
use std::alloc::Global;
use tree_certificate::{PriceList, TreeCertificate};

/// Tests that the positions of each clique exclude each other.
fn check_cliques(task: &Task, cliques: &[PositionSet]) -> Result<(), TreeRejection>
    ensures hold { IfOk result (λ _. All (IsClique task.now) cliques.now) }
    ensures fails { IfErr result (CliqueIsRefused task.now cliques.now) }
{
    for at in 0..cliques.len() {
        if !is_clique(task, cliques[at]) {
            return Err(TreeRejection::NotAClique(at));
        }
    }
    Ok(())
}

/// Tests that each list of prices of a certificate with so many cliques may stand there.
fn check_prices(task: &Task, cliques: usize, prices: &[PriceList]) -> Result<(), TreeRejection>
    ensures hold { IfOk result (λ _. All (ArePriced task.now.hold cliques) (map listed_prices prices.now)) }
    ensures fails { IfErr result (PricesAreRefused task.now cliques (map listed_prices prices.now)) }
{
    for at in 0..prices.len() {
        if price_fault(task, cliques, &prices[at]).is_some() {
            return Err(TreeRejection::WrongPrices(at));
        }
    }
    Ok(())
}

/// Tests the trees and the siblings of a certificate whose other parts hold.
fn check_evidence(
    alloc: Global,
    evidence: &TreeEvidence<'_>,
    claimed: &Option<Claimed<'_>>,
    certificate: &TreeCertificate,
) -> Result<(), TreeRejection>
    requires ready { IsReady evidence.now }
    requires admissible { IfSome (path_of claimed.now) (IsAdmissible evidence.now.task.now) }
    requires measured { IsMeasured evidence.now.task.now claimed.now }
    ensures holds { IfOk result (λ _. EvidenceHolds evidence.now claimed.now certificate.now) }
    ensures fails { IfErr result (EvidenceFails evidence.now claimed.now certificate.now) }
{
    let full = Choices::full(evidence.task);
    let siblings = certificate.siblings.as_slice();
    check_all_trees(
        alloc,
        evidence,
        &full,
        claimed,
        certificate.root.as_slice(),
        siblings,
    )?;
    check_siblings(evidence, &full, claimed_numbers(claimed), siblings)
}

/// The first reason for which the certificate is not good.
fn first_reason(
    alloc: Global,
    task: &Task,
    certificate: &TreeCertificate,
) -> Result<(), TreeRejection>
    ensures good { IfOk result (λ _. IsGoodTrees task.now (listed_trees certificate.now)) }
    ensures refused { IfErr result (IsRejected task.now (listed_trees certificate.now)) }
{
    let claimed = claimed_path(task, &certificate.claim)?;
    let cliques = certificate.cliques.as_slice();
    check_cliques(task, cliques)?;
    let prices = certificate.prices.as_slice();
    check_prices(task, cliques.len(), prices)?;
    let conflicts = Conflicts::of(task);
    let evidence = TreeEvidence {
        task,
        conflicts: &conflicts,
        cliques,
        prices,
    };
    check_evidence(alloc, &evidence, &claimed, certificate)
}

/// Whether the certificate is good for the task: then its claim is true. It is refused where it is not, with the first
/// reason: the claim is tested first, then the cliques, the price lists, the operations of the trees, and the siblings.
///
/// The only memory that it takes is for the choices of one tree that are left to refute, each with a position for every
/// container. A split leaves two of them, and both are smaller than what is split, so that there are never more than
/// the containers have positions together.
pub fn check_trees(
    alloc: Global,
    task: &Task,
    certificate: &TreeCertificate,
) -> Result<(), TreeRejection>
    ensures good { IfOk result (λ _. IsGoodTrees task.now (listed_trees certificate.now)) }
    ensures refused { IfErr result (IsRejected task.now (listed_trees certificate.now)) }
    ensures accepted { IsGoodTrees task.now (listed_trees certificate.now)
        → IsOk result ⊎ (result ≡ Err NoMemory) }
{
    first_reason(alloc, task, certificate)
}
