// The report of a certificate that is held in memory.
ghost use Rattle.std.specs.Prelude.{◌≡◌, ◌+◌, ◌≤◌, ◌^◌, None, IfOk, OnErr};
ghost use Rattle.road_types.specs.Faults.{road_fault};
ghost use Rattle.cert_tree.specs.Trees.{box_tree_of, node_count};
ghost use Rattle.cert_text.specs.Certs.{certificate_of, IsSpelledCert};
ghost use Rattle.cert_text.specs.Validity.{IsValid};
ghost use Rattle.report.specs.Lines.{Adds};
ghost use Rattle.report.specs.Reports.{plan_found, bound_found};
ghost use Rattle.cert_report.specs.CertReport.{open_leaves, cert_lines};
ghost use Rattle.cert_report.specs.inside.Counting.{count_of, with_tree};

use crate::counting::count_cause;
use cert_text::Cert;
use cert_tree::Tree;
use report::{Findings, OpenLeaves, write_report};
use road_types::Road;
use std::alloc::{AllocError, Global};

/// Counts the leaves of a tree that were left open.
fn count_tree(tree: &Tree, leaves: &mut OpenLeaves)
    requires { count_of leaves.old + node_count (box_tree_of tree.now) ≤ 2 ^ 63 }
    ensures counted { leaves.new ≡ with_tree leaves.old (box_tree_of tree.now) }
    ensures few { count_of leaves.new ≤ count_of leaves.old + node_count (box_tree_of tree.now) }
{
    match tree {
        Tree::Low { cause, .. } => count_cause(*cause, leaves),
        Tree::Dead { .. } => {}
        Tree::Split { first, second, .. } => {
            count_tree(first.get(), leaves);
            count_tree(second.get(), leaves);
        }
    }
}

/// The leaves of a tree that were left open.
fn open_leaves(tree: &Tree) -> OpenLeaves
    requires { node_count (box_tree_of tree.now) ≤ 2 ^ 63 }
    ensures { result ≡ open_leaves (box_tree_of tree.now) }
{
    let mut leaves = OpenLeaves {
        nodes: 0,
        pivots: 0,
        width: 0,
    };
    count_tree(tree, &mut leaves);
    leaves
}

/// What was found, as a certificate states it.
fn findings(cert: &Cert) -> Findings<'_>
    requires { cert.now.bound ≡ None → cert.now.plan ≡ None }
    ensures plan { plan_found result ≡ cert.now.plan }
    ensures bound { bound_found result ≡ cert.now.bound }
{
    let Some(bound) = cert.bound else {
        return Findings::NoPlan;
    };
    match &cert.plan {
        Some(plan) => Findings::Planned { plan, bound },
        None => Findings::Bounded { bound },
    }
}

/// Appends the report of a valid certificate of an accepted road that has a text, as `replay` appends it from that text.
///
/// The one error is want of memory; nothing is appended then.
pub fn report_cert(
    alloc: Global,
    road: &Road,
    cert: &Cert,
    out: &mut Vec<u8>,
) -> Result<(), AllocError>
    requires accepted { road_fault road.now ≡ None }
    requires spelled { IsSpelledCert road.now cert.now }
    requires valid { IsValid road.now (certificate_of cert.now) }
    requires few { node_count (box_tree_of cert.now.tree) ≤ 2 ^ 63 }
    ensures adds { IfOk result (λ _. Adds (cert_lines road.now (certificate_of cert.now)) out.old.items out.new.items) }
    ensures kept { OnErr result (out.new.items ≡ out.old.items) }
{
    let leaves = open_leaves(&cert.tree);
    write_report(alloc, road, &findings(cert), leaves, out)
}
