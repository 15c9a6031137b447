// A certificate carried to a road's costs.
ghost use Rattle.std.specs.Prelude.{◌≡◌, None, IfOk};
ghost use Rattle.road_types.specs.Faults.{road_fault};
ghost use Rattle.cert_text.specs.Certs.{certificate_of, IsSpelledCert};
ghost use Rattle.cert_text.specs.Validity.{IsCarriable};
ghost use Rattle.carried_bounds.specs.Carried.{IsCarried};

use crate::pricing::price_plan;
use crate::trees::bounded_tree;
use cert_text::Cert;
use road_types::Road;
use std::alloc::{AllocError, Global};

/// The certificate with its bound carried to the costs of a road: the plan with its cost on this road, the splits and causes as
/// they were, the multipliers of each low leaf raised on its own box in eight rounds, and the least of the leaves' bounds. The
/// certificate is asked to have a text and to be carriable: an admissible plan, or none, splits that fit, multipliers with right
/// signs, dead leaves whose values are above 0, and a bound exactly where some leaf is low; stated cost and bound are any. The
/// answer is valid and has a text, which may be longer than a certificate's may be. The one error is want of memory.
pub fn carry(alloc: Global, road: &Road, cert: &Cert) -> Result<Cert, AllocError>
    requires accepted { road_fault road.now ≡ None }
    requires spelled { IsSpelledCert road.now cert.now }
    requires carriable { IsCarriable road.now (certificate_of cert.now) }
    ensures carried { IfOk result (λ new. IsCarried road.now (certificate_of cert.now) (certificate_of new)) }
    ensures spelled { IfOk result (IsSpelledCert road.now) }
{
    let bounded = bounded_tree(alloc, road, &cert.tree)?;
    match price_plan(alloc, road, &cert.plan) {
        Ok(priced) => Ok(Cert {
            plan: priced.plan,
            cost: priced.cost,
            bound: bounded.bound,
            tree: bounded.tree,
        }),
        Err(error) => {
            // Dropped by name, which is one step in the proof.
            drop(bounded);
            Err(error)
        }
    }
}
