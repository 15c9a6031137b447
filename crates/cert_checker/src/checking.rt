// The check of a certificate, and what of it lasts when costs change.
ghost use Rattle.std.specs.Prelude.{◌≡◌, ◌≤◌, ◌^◌, IsTrue, ◌↔◌, None, Some, IfOk, unsigned_abs, length};
ghost use Rattle.algebra.specs.Scale.{IsScale};
ghost use Rattle.numbers.specs.Fractions.{HasValue};
ghost use Rattle.road_types.specs.Faults.{road_fault};
ghost use Rattle.plan_text.specs.PlanText.{HasText};
ghost use Rattle.cert_text.specs.CertText.{IsStated, IsPricedOrNone};
ghost use Rattle.cert_text.specs.Validity.{longest_text, stated_cost};
ghost use Rattle.cert_tree.specs.Soundness.{SoundTreesBound};
ghost use Rattle.cert_checker.specs.Answered.{IsProved};
ghost use Rattle.cert_checker.specs.Widths.{HasNarrowValues};
ghost use Rattle.cert_checker.specs.Refusals.{first_of, IsPlanRefusal, last_refusal, Answers, RefusesRightly, HasOneRefusal};
ghost use Rattle.cert_checker.specs.Carriable.{IsRuleRefusal, IsFirstCarryRefusal, CarriableAnswers, RefusesUncarriable, HasOneCarryRefusal};
ghost use Rattle.cert_checker.specs.inside.Findings.{bound_tried, FindsOrLine, AreFound, EndsText, IsFirstOfFindings, IsFirstLasting, TellsLasting, TellsRefusal, AnswersBy};

use crate::refusal::{CertRule, CheckErr, Checked, Refusal};
use crate::walk::{Walked, walk_tree};
use cert_text::{Cert, Heading, LONGEST_TEXT, PricedPlan, read_cert, read_end, read_heading};
use numbers::Frac;
use plan_rules::{Verdict, judge};
use plan_text::TextErr;
use road_types::Road;
use std::alloc::Global;
use text_parts::Lines;

/// What is tried of a certificate.
#[derive(Clone, Copy)]
pub(crate) enum Tried {
    /// All that a valid one has.
    Everything,
    /// What lasts when costs change: all but the stated cost, and the stated bound on the low leaves.
    Lasting,
}

/// What one pass over the bytes finds.
#[derive(Drop)]
pub(crate) struct Findings {
    pub(crate) heading: Heading,
    pub(crate) bound_line: usize,
    pub(crate) walked: Walked,
}

/// Whether the stated fraction is the cost over its denominator.
fn is_value(stated: &Frac, cost: i128, den: i128) -> bool
    requires cost { unsigned_abs cost ≤ 2 ^ 118 }
    requires den { IsScale den }
    ensures { IsTrue result ↔ HasValue stated.now cost den }
{
    match Frac::new(cost, den) {
        Some(value) => stated.is_same(&value),
        None => false,
    }
}

/// A plan that isn't admissible, or whose stated cost, on this line, isn't its own.
fn priced_refusal(road: &Road, priced: &PricedPlan, line: usize) -> Option<Refusal>
    requires accepted { road_fault road.now ≡ None }
    requires plan { HasText road.now priced.now.plan }
    requires cost { IsStated priced.now.cost }
    ensures { IsPlanRefusal road.now line (Some priced.now) result }
{
    match judge(road, &priced.plan) {
        Verdict::Admissible { cost } => {
            if is_value(&priced.cost, cost, priced.plan.den) {
                None
            } else {
                Some(Refusal {
                    rule: CertRule::C4,
                    line,
                })
            }
        }
        Verdict::Broken { .. } => Some(Refusal {
            rule: CertRule::C3,
            line: 2,
        }),
    }
}

/// A plan that isn't admissible.
fn rule_refusal(road: &Road, planned: &Option<PricedPlan>) -> Option<Refusal>
    requires accepted { road_fault road.now ≡ None }
    requires planned { IsPricedOrNone road.now planned.now }
    ensures { IsRuleRefusal road.now planned.now result }
{
    match planned {
        Some(priced) => broken_refusal(road, priced),
        None => None,
    }
}

fn broken_refusal(road: &Road, priced: &PricedPlan) -> Option<Refusal>
    requires accepted { road_fault road.now ≡ None }
    requires plan { HasText road.now priced.now.plan }
    ensures { IsRuleRefusal road.now (Some priced.now) result }
{
    match judge(road, &priced.plan) {
        Verdict::Admissible { .. } => None,
        Verdict::Broken { .. } => Some(Refusal {
            rule: CertRule::C3,
            line: 2,
        }),
    }
}

fn plan_refusal(road: &Road, planned: &Option<PricedPlan>, line: usize) -> Option<Refusal>
    requires accepted { road_fault road.now ≡ None }
    requires planned { IsPricedOrNone road.now planned.now }
    ensures { IsPlanRefusal road.now line planned.now result }
{
    match planned {
        Some(priced) => priced_refusal(road, priced, line),
        None => None,
    }
}

/// A bound on this line without a low leaf, or none where there is one.
fn last_refusal(bound: &Option<Frac>, has_low: bool, line: usize) -> Option<Refusal>
    ensures { result ≡ last_refusal bound.now has_low line }
{
    if bound.is_some() == has_low {
        None
    } else {
        Some(Refusal {
            rule: CertRule::C9,
            line,
        })
    }
}

/// The first of two refusals.
fn first_of(first: Option<Refusal>, second: Option<Refusal>) -> Option<Refusal>
    ensures { result ≡ first_of first second }
{
    match first {
        Some(refusal) => Some(refusal),
        None => second,
    }
}

/// Takes the end of the text: no line is left.
fn read_nothing(lines: &mut Lines) -> Result<(), TextErr>
    ensures { EndsText lines.old result }
{
    if lines.next().is_some() {
        return Err(TextErr::Bad {
            line: lines.number(),
        });
    }
    Ok(())
}

/// The bound that the low leaves are tried on.
fn bound_tried(tried: Tried, bound: &Option<Frac>) -> Option<Frac>
    ensures { result ≡ bound_tried tried bound.now }
{
    match tried {
        Tried::Everything => *bound,
        Tried::Lasting => None,
    }
}

/// Reads a certificate to its end and tells what is first refused in its tree.
fn find(alloc: Global, road: &Road, bytes: &[u8], tried: Tried) -> Result<Findings, TextErr>
    requires { road_fault road.now ≡ None }
    ensures { FindsOrLine road.now bytes.now tried result }
{
    let mut lines = Lines::over(bytes);
    let heading = match read_heading(alloc, road, bytes, &mut lines) {
        Ok(heading) => heading,
        Err(error) => return Err(error),
    };
    let bound_line = lines.number();
    let bound = bound_tried(tried, &heading.bound);
    let walked = match walk_tree(alloc, road, &bound, &mut lines) {
        Ok(walked) => walked,
        Err(error) => {
            // Dropped by name, which is one step in the proof.
            drop(heading);
            return Err(error);
        }
    };
    match read_end(&mut lines) {
        Ok(()) => {}
        Err(error) => {
            drop(heading);
            return Err(error);
        }
    }
    match read_nothing(&mut lines) {
        Ok(()) => Ok(Findings {
            heading,
            bound_line,
            walked,
        }),
        Err(error) => {
            drop(heading);
            Err(error)
        }
    }
}

/// What is refused behind the plan: in the tree, or that a bound stands or doesn't.
fn rest_refusal(findings: &Findings) -> Option<Refusal>
    ensures { result ≡ first_of findings.now.walked.found (last_refusal findings.now.heading.bound findings.now.walked.has_low findings.now.bound_line) }
{
    let last = last_refusal(
        &findings.heading.bound,
        findings.walked.has_low,
        findings.bound_line,
    );
    first_of(findings.walked.found, last)
}

/// The first refusal of what was found.
fn first_refusal(road: &Road, findings: &Findings) -> Option<Refusal>
    requires accepted { road_fault road.now ≡ None }
    requires planned { IsPricedOrNone road.now findings.now.heading.planned }
    ensures { IsFirstOfFindings road.now findings.now result }
{
    let planned = plan_refusal(
        road,
        &findings.heading.planned,
        findings.bound_line.saturating_sub(1),
    );
    first_of(planned, rest_refusal(findings))
}

/// The stated cost.
fn stated_cost(planned: &Option<PricedPlan>) -> Option<Frac>
    ensures { result ≡ stated_cost planned.now }
{
    match planned {
        Some(priced) => Some(priced.cost),
        None => None,
    }
}

/// The answer where this is first refused in what was found.
fn answer(findings: &Findings, refusal: Option<Refusal>) -> Result<Checked, CheckErr>
    ensures { AnswersBy findings.now refusal result }
{
    match refusal {
        Some(Refusal { rule, line }) => Err(CheckErr::Refused { rule, line }),
        None => Ok(Checked {
            cost: stated_cost(&findings.heading.planned),
            bound: findings.heading.bound,
        }),
    }
}

/// The answer to what one pass found.
fn conclude(road: &Road, bytes: &[u8], findings: Findings) -> Result<Checked, CheckErr>
    requires accepted { road_fault road.now ≡ None }
    requires short { length bytes.now ≤ longest_text }
    requires found { AreFound road.now bytes.now Tried.Everything findings }
    ensures { Answers road.now bytes.now result }
{
    let refusal = first_refusal(road, &findings);
    let checked = answer(&findings, refusal);
    drop(findings);
    checked
}

/// Whether the bytes are no more than a certificate's text may be.
#[tactic(auto, unfolding(cert_text::specs::Validity::longest_text))]
fn is_short(bytes: &[u8]) -> bool
    ensures { IsTrue result ↔ length bytes.now ≤ longest_text }
{
    bytes.len() <= LONGEST_TEXT
}

fn answer_bytes(alloc: Global, road: &Road, bytes: &[u8]) -> Result<Checked, CheckErr>
    requires { road_fault road.now ≡ None }
    ensures { Answers road.now bytes.now result }
{
    if !is_short(bytes) {
        return Err(CheckErr::Refused {
            rule: CertRule::C1,
            line: 0,
        });
    }
    match find(alloc, road, bytes, Tried::Everything) {
        Ok(findings) => conclude(road, bytes, findings),
        Err(TextErr::Bad { line }) => Err(CheckErr::Refused {
            rule: CertRule::C2,
            line,
        }),
        Err(TextErr::NoMemory) => Err(CheckErr::NoMemory),
    }
}

/// Checks a certificate of an accepted road, from any maker. `Ok`, with the stated cost and bound, comes exactly where the bytes are the
/// text of a valid certificate, of at most 2^26 bytes: then the cost is that of an admissible plan which stands in the bytes, no
/// admissible plan costs less than the bound, and without a bound no plan is admissible. `Refused` tells the first broken rule with its
/// line. One leaf is held at a time. None is refused for a width: what is compared has a magnitude of at most 2^126.
pub fn check(alloc: Global, road: &Road, bytes: &[u8]) -> Result<Checked, CheckErr>
    requires { road_fault road.now ≡ None }
    ensures answer { Answers road.now bytes.now result }
    ensures rightly { RefusesRightly road.now bytes.now result }
    ensures proved { IfOk result (IsProved road.now bytes.now) }
    ensures one { HasOneRefusal road.now bytes.now }
    ensures any_sound { SoundTreesBound road.now }
    ensures narrow { HasNarrowValues road.now }
{
    answer_bytes(alloc, road, bytes)
}

/// The first refusal of what was found, but for the stated costs.
fn lasting_refusal(road: &Road, findings: &Findings) -> Option<Refusal>
    requires accepted { road_fault road.now ≡ None }
    requires planned { IsPricedOrNone road.now findings.now.heading.planned }
    ensures { IsFirstLasting road.now findings.now result }
{
    let broken = rule_refusal(road, &findings.heading.planned);
    first_of(broken, rest_refusal(findings))
}

/// Tells a refusal, if there is one.
fn told(refusal: Option<Refusal>) -> Result<(), CheckErr>
    ensures { TellsRefusal refusal result }
{
    match refusal {
        Some(Refusal { rule, line }) => Err(CheckErr::Refused { rule, line }),
        None => Ok(()),
    }
}

/// What is refused of what one pass found, but for the stated costs.
fn conclude_lasting(road: &Road, bytes: &[u8], findings: Findings) -> Result<(), CheckErr>
    requires accepted { road_fault road.now ≡ None }
    requires short { length bytes.now ≤ longest_text }
    requires found { AreFound road.now bytes.now Tried.Lasting findings }
    ensures { TellsLasting road.now bytes.now result }
{
    let refusal = lasting_refusal(road, &findings);
    drop(findings);
    told(refusal)
}

/// Tells what is first refused in the bytes, but for the stated costs.
fn try_lasting(alloc: Global, road: &Road, bytes: &[u8]) -> Result<(), CheckErr>
    requires { road_fault road.now ≡ None }
    ensures { TellsLasting road.now bytes.now result }
{
    if !is_short(bytes) {
        return Err(CheckErr::Refused {
            rule: CertRule::C1,
            line: 0,
        });
    }
    match find(alloc, road, bytes, Tried::Lasting) {
        Ok(findings) => conclude_lasting(road, bytes, findings),
        Err(TextErr::Bad { line }) => Err(CheckErr::Refused {
            rule: CertRule::C2,
            line,
        }),
        Err(TextErr::NoMemory) => Err(CheckErr::NoMemory),
    }
}

/// Reads the certificate in which nothing lasting is refused.
fn read_tried(alloc: Global, road: &Road, bytes: &[u8]) -> Result<Cert, CheckErr>
    requires accepted { road_fault road.now ≡ None }
    requires tried { IsFirstCarryRefusal road.now bytes.now None }
    ensures { CarriableAnswers road.now bytes.now result }
{
    match read_cert(alloc, road, bytes) {
        Ok(cert) => Ok(cert),
        Err(TextErr::Bad { line }) => Err(CheckErr::Refused {
            rule: CertRule::C2,
            line,
        }),
        Err(TextErr::NoMemory) => Err(CheckErr::NoMemory),
    }
}

fn answer_carriable(alloc: Global, road: &Road, bytes: &[u8]) -> Result<Cert, CheckErr>
    requires { road_fault road.now ≡ None }
    ensures { CarriableAnswers road.now bytes.now result }
{
    match try_lasting(alloc, road, bytes) {
        Ok(()) => read_tried(alloc, road, bytes),
        Err(error) => Err(error),
    }
}

/// The certificate of an accepted road whose text the bytes are, where its bound can be carried to the costs of this road: `Ok` comes
/// exactly where they are at most 2^26, the plan is admissible, the splits fit, the leaves prove what they can, and a bound stands
/// exactly where some leaf is low. The stated cost and bound may be any. `Refused` tells the first broken rule, of all but `C4` and
/// `C7`, with its line, numbered as `check` numbers it.
pub fn carriable(alloc: Global, road: &Road, bytes: &[u8]) -> Result<Cert, CheckErr>
    requires { road_fault road.now ≡ None }
    ensures answer { CarriableAnswers road.now bytes.now result }
    ensures rightly { RefusesUncarriable road.now bytes.now result }
    ensures one { HasOneCarryRefusal road.now bytes.now }
{
    answer_carriable(alloc, road, bytes)
}
